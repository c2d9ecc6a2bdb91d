//! How many threads this process has, and how much memory is mapped for it.

use std::rt::{Clock, Files};
use std::time::Duration;
use std::{fs, thread};

/// How many threads this process has, or 0 where the system does not tell.
pub fn threads_now<R: Files + Alloc>(rt: &R) -> u64 {
    status_now(rt, "Threads:")
}

/// How many kilobytes are mapped for this process, its threads' stacks among them, or 0 where the system does
/// not tell.
pub fn mapped_now<R: Files + Alloc>(rt: &R) -> u64 {
    status_now(rt, "VmSize:")
}

/// The number behind this word of the process's status, or 0 where there is none.
fn status_now<R: Files + Alloc>(rt: &R, word: &str) -> u64 {
    let Ok(text) = fs::read_to_string(rt, "/proc/self/status") else {
        return 0;
    };
    for line in text.as_str().lines() {
        if let Some(rest) = line.strip_prefix(word)
            && let Some(number) = rest.split_whitespace().next()
        {
            return number.parse().unwrap_or(0);
        }
    }
    0
}

/// Whether the process comes to have so many threads, where that was told. One that was joined can be
/// counted for a moment.
pub fn comes_to<R: Files + Alloc + Clock>(rt: &R, threads: u64) -> bool {
    for _ in 0..1_000u32 {
        if threads == 0 || threads_now(rt) == threads {
            return true;
        }
        thread::sleep(rt, Duration::from_millis(1));
    }
    false
}

/// The same, and it has as many a little later.
pub fn stays_at<R: Files + Alloc + Clock>(rt: &R, threads: u64) -> bool {
    let has_come = comes_to(rt, threads);
    thread::sleep(rt, Duration::from_millis(20));
    has_come && threads_now(rt) == threads
}
