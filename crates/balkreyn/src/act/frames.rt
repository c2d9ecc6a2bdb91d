//! What a task keeps of the scopes that it has open: which tasks it owes a join for, and which deadline comes next.

use job_runner::Clock;
use scope_rules::{Refusal, ScopeId, Verdict};
use std::alloc::Global;

/// The scopes that a task has opened and not closed, outermost first, and the earliest deadline that it knows and hasn't
/// passed: of these scopes, or of those in which it was forked. One for which there was no memory is missing.
#[derive(Drop)]
pub(crate) struct Frames {
    scopes: Vec<Frame>,
    /// The earliest deadline that was known to who forked the task.
    around: Option<u64>,
    next: Option<u64>,
}

/// One of these scopes.
#[derive(Drop)]
struct Frame {
    scope: ScopeId,
    deadline: Option<u64>,
    /// How many of its tasks neither a join nor `next_done` has taken.
    owed: u32,
}

impl Frames {
    /// None yet, of a task that was forked when this deadline was the earliest.
    pub(crate) fn within(alloc: Global, around: Option<u64>) -> Frames {
        Frames {
            scopes: Vec::new(alloc),
            around,
            next: around,
        }
    }

    /// The time that the clock reads, if that is past a deadline that is known; without one it isn't read.
    pub(crate) fn come<C: Clock>(&self, clock: &mut C) -> Option<u64> {
        let deadline = self.next?;
        let now = clock.now();
        if now < deadline { None } else { Some(now) }
    }

    /// The earliest deadline that is known, and not passed.
    pub(crate) fn next(&self) -> Option<u64> {
        self.next
    }

    /// A scope was opened, with this deadline.
    pub(crate) fn opened(&mut self, opened: &Result<ScopeId, Refusal>, deadline: Option<u64>) {
        if let Ok(scope) = opened {
            let _noted = self.scopes.push(Frame {
                scope: *scope,
                deadline,
                owed: 0,
            });
            self.next = earlier(self.next, deadline);
        }
    }

    /// This scope was closed, if it was, and with it all that were opened later.
    pub(crate) fn closed(&mut self, scope: ScopeId, closed: &Result<Verdict, Refusal>) {
        if closed.is_ok() {
            self.scopes.retain(|frame| frame.scope < scope);
            self.find_next(0);
        }
    }

    /// The scope has this deadline from now on, if it was moved.
    pub(crate) fn moved(
        &mut self,
        scope: ScopeId,
        deadline: Option<u64>,
        moved: &Result<(), Refusal>,
    ) {
        if moved.is_ok() {
            if let Some(frame) = self.of(scope) {
                frame.deadline = deadline;
            }
            self.next = earlier(self.next, deadline);
        }
    }

    /// All deadlines up to this time were passed.
    pub(crate) fn passed(&mut self, now: u64) {
        self.find_next(now);
    }

    /// The earliest deadline behind this time.
    fn find_next(&mut self, now: u64) {
        let mut next = later_than(now, self.around);
        for frame in self.scopes.iter() {
            next = earlier(next, later_than(now, frame.deadline));
        }
        self.next = next;
    }

    /// Counts a task that was forked in the scope, if it was.
    pub(crate) fn forked<T>(&mut self, scope: ScopeId, forked: &Result<T, Refusal>) {
        if let (Ok(_reply), Some(frame)) = (forked, self.of(scope)) {
            frame.owed = frame.owed.saturating_add(1);
        }
    }

    /// The scope was joined, if it was.
    pub(crate) fn joined<T>(&mut self, scope: ScopeId, joined: &Result<T, Refusal>) {
        if let (Ok(_joined), Some(frame)) = (joined, self.of(scope)) {
            frame.owed = 0;
        }
    }

    /// One of the scope's tasks was taken without a join.
    pub(crate) fn took(&mut self, scope: ScopeId) {
        if let Some(frame) = self.of(scope) {
            frame.owed = frame.owed.saturating_sub(1);
        }
    }

    /// Whether some of the scope's tasks were neither joined nor taken.
    pub(crate) fn owes(&self, scope: ScopeId) -> bool {
        self.scopes
            .iter()
            .any(|frame| frame.scope == scope && frame.owed > 0)
    }

    /// What is kept of the scope.
    fn of(&mut self, scope: ScopeId) -> Option<&mut Frame> {
        self.scopes.iter_mut().find(|frame| frame.scope == scope)
    }
}

/// The earlier of two deadlines.
fn earlier(one: Option<u64>, other: Option<u64>) -> Option<u64> {
    match (one, other) {
        (Some(one), Some(other)) => Some(one.min(other)),
        (Some(one), None) => Some(one),
        (None, other) => other,
    }
}

/// The deadline, if it is behind this time.
fn later_than(now: u64, deadline: Option<u64>) -> Option<u64> {
    deadline.filter(|it| *it > now)
}
