//! Rounds of works, over any spawner.

use super::works::{Kind, PoolWork, Shared, fork, join};
use share_ledger::RealmName;
use std::alloc::{AllocError, Global};
use std::sync::Wait;
use thread_pool::Spawns;

/// A work, the place at which it is forked, and the number that it ends with.
pub type Planned = (Kind, u32, Option<i64>);

/// The place at which the owner notes that it has forked all works of a round.
pub const OWNER: u32 = 31;

/// What came of rounds.
#[derive(Drop)]
pub struct Played {
    alloc: Global,
    /// Whether each work ended as it was to, and those that were refused came back.
    pub is_right: bool,
    forks: u64,
    /// Which forks were refused, counted from 1, each as often as it was.
    pub refused: Vec<u64>,
}

impl Played {
    /// No round yet.
    pub fn new(alloc: Global) -> Played {
        Played {
            alloc,
            is_right: true,
            forks: 0,
            refused: Vec::new(alloc),
        }
    }

    /// Whether all went right, and this fork alone was refused, once; or none, where it is 0.
    pub fn is_right_but_for(&self, nth: u64) -> bool {
        match self.refused.as_slice() {
            [] => self.is_right && nth == 0,
            [one] => self.is_right && *one == nth,
            _ => false,
        }
    }

    /// Forks the work, and notes how often it was refused.
    pub fn fork<N: RealmName, S: Spawns<N, PoolWork<N>>, R: Wait>(
        &mut self,
        rt: &R,
        spawner: &mut S,
        board: &Shared<N>,
        kind: Kind,
        place: u32,
    ) -> Result<Option<S::Handle>, AllocError> {
        self.forks = self.forks.saturating_add(1);
        let Some((refusals, handle)) = fork(rt, spawner, board, kind, place) else {
            self.is_right = false;
            return Ok(None);
        };
        for _ in 0..refusals {
            self.refused.push(self.forks)?;
        }
        Ok(handle)
    }

    /// Forks the works in one go, notes that, and joins them, the last first.
    pub fn round<N: RealmName, S: Spawns<N, PoolWork<N>>, R: Wait>(
        &mut self,
        rt: &R,
        spawner: &mut S,
        board: &Shared<N>,
        works: &[Planned],
    ) -> Result<(), AllocError> {
        let mut handles = Vec::new(self.alloc);
        for (kind, place, end) in works {
            handles.push((*end, self.fork(rt, spawner, board, *kind, *place)?))?;
        }
        board.note(OWNER);
        for _ in works {
            if let Some((end, handle)) = handles.pop() {
                let found = join(rt, spawner, handle);
                self.is_right = self.is_right && found == end;
            }
        }
        Ok(())
    }

    /// Forks as many short works in one go, and then so many that each wait at the place for all others, and joins them.
    /// So the threads are quick at first, and a thread that is called looks how quick they are before it comes.
    pub fn gather<N: RealmName, S: Spawns<N, PoolWork<N>>, R: Wait>(
        &mut self,
        rt: &R,
        spawner: &mut S,
        board: &Shared<N>,
        place: u32,
        count: u32,
    ) -> Result<(), AllocError> {
        let mut handles = Vec::new(self.alloc);
        for _ in 0..count {
            handles.push(self.fork(rt, spawner, board, Kind::Plain(1), OWNER)?)?;
        }
        for _ in 0..count {
            handles.push(self.fork(rt, spawner, board, Kind::Gathers(u64::from(count)), place)?)?;
        }
        for handle in handles {
            let found = join(rt, spawner, handle);
            self.is_right = self.is_right && found == Some(1);
        }
        Ok(())
    }
}
