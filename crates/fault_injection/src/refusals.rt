//! Which calls of a scenario were refused memory.

use std::alloc::Global;
use std::sync::atomic::{AtomicU64, Ordering};

/// The calls that take memory, and so may be refused it.
#[derive(Clone, Copy)]
pub enum Call {
    Open,
    Fork,
    Cancel,
    Move,
    Tick,
    Bind,
    Unbind,
    Join,
    Close,
    CloseWith,
    Retire,
    Outcome,
    Project,
    Preview,
    View,
    ViewWith,
    History,
    OpenMarked,
    Cell,
    ForkJob,
    Thread,
    SetDeadline,
    Expire,
    AddScope,
    BindPair,
    Inherit,
}

/// Each call, and what it is called where the gate reads it.
const CALLS: [(Call, &str); 26] = [
    (Call::Open, "open"),
    (Call::Fork, "fork"),
    (Call::Cancel, "cancel"),
    (Call::Move, "move"),
    (Call::Tick, "tick"),
    (Call::Bind, "bind"),
    (Call::Unbind, "unbind"),
    (Call::Join, "join"),
    (Call::Close, "close"),
    (Call::CloseWith, "close_with"),
    (Call::Retire, "retire"),
    (Call::Outcome, "outcome"),
    (Call::Project, "project"),
    (Call::Preview, "preview"),
    (Call::View, "view"),
    (Call::ViewWith, "view_with"),
    (Call::History, "history"),
    (Call::OpenMarked, "open_marked"),
    (Call::Cell, "cell"),
    (Call::ForkJob, "fork_job"),
    (Call::Thread, "thread"),
    (Call::SetDeadline, "set_deadline"),
    (Call::Expire, "expire"),
    (Call::AddScope, "add_scope"),
    (Call::BindPair, "bind_pair"),
    (Call::Inherit, "inherit"),
];

/// Which calls were refused memory, on any thread: a bit each, in their order.
#[derive(Drop)]
pub struct Refusals {
    calls: AtomicU64,
}

impl Refusals {
    /// None was.
    pub fn new() -> Refusals {
        Refusals {
            calls: AtomicU64::new(0),
        }
    }

    /// The call was refused.
    pub fn note(&self, call: Call) {
        let noted = self.calls.load(Ordering::SeqCst);
        self.calls.store(noted | bit_of(call), Ordering::SeqCst);
    }

    /// Says on standard error which calls were refused, a line each.
    pub fn tell<R: Eprint>(&self, rt: &R) {
        let noted = self.calls.load(Ordering::SeqCst);
        for (call, name) in CALLS {
            if noted & bit_of(call) != 0 {
                let _told = eprintln!(rt; "refused {name}");
            }
        }
    }
}

/// The call's bit.
fn bit_of(call: Call) -> u64 {
    1u64.wrapping_shl(call as u32)
}

/// Asks for memory until it is refused, a million times at most: where all requests from some place on are to
/// be refused, that place is passed then.
pub fn use_up(alloc: Global) {
    for _ in 0..1_000_000u32 {
        if Box::new(alloc, 0u64).is_err() {
            return;
        }
    }
}

/// The call's answer. Where memory is refused, that is noted, and the call is made again.
macro_rules! again {
    ($refusals:expr, $call:expr, $made:expr) => {
        match $made {
            Err(Refusal::Memory) => {
                $refusals.note($call);
                $made
            }
            answer => answer,
        }
    };
}

pub(crate) use again;
