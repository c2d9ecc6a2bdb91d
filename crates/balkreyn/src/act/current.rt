//! In which calls the actors of a realm wait now, for who draws its tree.
ghost use Rattle.std.specs.Prelude.{◌<◌, ◌≤◌};

use realm_lock::RealmState;
use scope_checks::Readings;
use scope_rules::types::values::MAIN;
use scope_rules::{Actor, Limits};
use std::alloc::{AllocError, Global};
use std::sync::atomic::{AtomicU64, Ordering};
use tree_dump::{CurrentWait, WaitCall, Waits};

/// A cell for main, and one for each task that a realm may have between two retirements: in which call that actor waits, if
/// it does, and since when. A wait writes its cell and takes no lock, so a tree may show one that has just ended.
#[derive(Drop)]
pub(crate) struct CurrentWaits {
    main: AtomicU64,
    tasks: Vec<AtomicU64>,
}

/// What the cells said of the tasks of one history, and of main.
#[derive(Drop)]
pub(crate) struct FoundWaits {
    main: Option<CurrentWait>,
    tasks: Vec<Option<CurrentWait>>,
}

/// What a cell has in which nobody waits.
const NOBODY: u64 = 0;

/// By how much the time lies above the call in a cell.
const SHIFT: u64 = 16;

impl CurrentWaits {
    /// Nobody waits.
    pub(crate) fn new(alloc: Global, limits: Limits) -> Result<CurrentWaits, AllocError> {
        let mut tasks = Vec::new(alloc);
        for _ in 0..limits.tasks {
            tasks.push(AtomicU64::new(NOBODY))?;
        }
        Ok(CurrentWaits {
            main: AtomicU64::new(NOBODY),
            tasks,
        })
    }

    /// The actor waits in the call since this time. One past 4294967295 counts as that.
    pub(crate) fn begin(&self, actor: Actor, call: WaitCall, since: u64) {
        if let Some(cell) = self.cell(actor) {
            cell.store(small(since) * SHIFT + code_of(call), Ordering::SeqCst);
        }
    }

    /// The actor waits no more.
    pub(crate) fn end(&self, actor: Actor) {
        if let Some(cell) = self.cell(actor) {
            cell.store(NOBODY, Ordering::SeqCst);
        }
    }

    /// What is found of main, and of each task of the realm since its last retirement.
    pub(crate) fn found(
        &self,
        alloc: Global,
        realm: &RealmState,
    ) -> Result<FoundWaits, AllocError> {
        let mut tasks = Vec::new(alloc);
        let before = realm.retired_tasks();
        for index in 0..realm.tasks() - before {
            tasks.push(self.at(before + 1 + index))?;
        }
        Ok(FoundWaits {
            main: self.at(MAIN),
            tasks,
        })
    }

    /// The cell of the actor. Of tasks that a realm has between two retirements no two have the same.
    fn cell(&self, actor: Actor) -> Option<&AtomicU64> {
        if actor == MAIN {
            return Some(&self.main);
        }
        let place = (actor as usize).checked_rem(self.tasks.len())?;
        self.tasks.get(place)
    }

    /// In which call the actor waits, if it does.
    fn at(&self, actor: Actor) -> Option<CurrentWait> {
        let found = self.cell(actor)?.load(Ordering::SeqCst);
        let call = call_of(found % SHIFT)?;
        let since = u32::try_from(found / SHIFT).ok()?;
        Some(CurrentWait { call, since })
    }
}

impl FoundWaits {
    /// The same, lent.
    pub(crate) fn lent(&self) -> Waits<'_> {
        Waits {
            main: self.main,
            tasks: &self.tasks,
        }
    }
}

/// The time, if it has 32 bits, or else the largest one that has.
fn small(time: u64) -> u64
    ensures { result ≤ 4294967295 }
{
    time.min(4_294_967_295)
}

/// A number for the call, from 1 on.
fn code_of(call: WaitCall) -> u64
    ensures { result < 16 }
{
    match call {
        WaitCall::Join => 1,
        WaitCall::Close => 2,
        WaitCall::Sleep => 3,
        WaitCall::Receive => 4,
        WaitCall::Send => 5,
        WaitCall::Permit => 6,
        WaitCall::NextDone => 7,
        WaitCall::Stop => 8,
        WaitCall::Ring => 9,
    }
}

/// The call of the number, if it is that of one.
fn call_of(code: u64) -> Option<WaitCall> {
    match code {
        1 => Some(WaitCall::Join),
        2 => Some(WaitCall::Close),
        3 => Some(WaitCall::Sleep),
        4 => Some(WaitCall::Receive),
        5 => Some(WaitCall::Send),
        6 => Some(WaitCall::Permit),
        7 => Some(WaitCall::NextDone),
        8 => Some(WaitCall::Stop),
        9 => Some(WaitCall::Ring),
        _ => None,
    }
}
