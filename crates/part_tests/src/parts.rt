//! The parts by themselves, each by its own calls.

mod bindings;
mod joiners;
mod marks;
mod shares;
mod types;

ghost use Rattle.std.specs.Prelude.{◌≡◌, IfOk};

use scope_rules::Name;
use std::alloc::{AllocError, Global};
use std::fs;
use std::rt::Files;
use std::test::Fail;

fn name(text: &[u8]) -> Result<Name, Fail> {
    Ok(Name::new(text).ok_or("a name")?)
}

/// The value in a box.
fn boxed<F: Drop>(alloc: Global, value: F) -> Result<Box<F>, AllocError>
    ensures { IfOk result (λ made. made.value ≡ value) }
{
    Ok(Box::new(alloc, value)?)
}

/// How many pages of memory this process has, or 0 where the system does not tell.
fn pages<R: Files + Alloc>(rt: &R) -> u64 {
    let Ok(text) = fs::read_to_string(rt, "/proc/self/statm") else {
        return 0;
    };
    match text.as_str().split_whitespace().next() {
        Some(size) => size.parse().unwrap_or(0),
        None => 0,
    }
}
