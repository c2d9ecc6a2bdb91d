//! Clocks that are set by hand.
ghost use Rattle.std.specs.Prelude.{◌≡◌, Some};

use super::duties::Shared;
use job_runner::{Clock, SystemClock};
use std::rt::Clock as SystemTime;
use std::test::Fail;
use std::thread;
use std::time::Duration;

/// A clock of three readings, of which the last stands for all that follow.
#[derive(Drop)]
pub struct Readings {
    all: [u64; 3],
    next: u8,
    last: Option<u64>,
}

impl Readings {
    pub fn new(all: [u64; 3]) -> Readings {
        Readings {
            all,
            next: 0,
            last: None,
        }
    }
}

impl Clock for Readings {
    ghost reading = { λ clock. clock.last };

    ghost reads = { λ old new now. new.last ≡ Some now };

    fn now(&mut self) -> u64 {
        let (now, next) = match self.next {
            0 => (self.all[0], 1),
            1 => (self.all[1], 2),
            _ => (self.all[2], 2),
        };
        self.next = next;
        self.last = Some(now);
        now
    }

    fn last(&self) -> Option<u64> {
        self.last
    }
}

/// A clock that reads what stands on the board.
#[derive(Drop)]
pub struct BoardClock {
    board: Shared,
    last: Option<u64>,
}

impl BoardClock {
    pub fn new(board: Shared) -> BoardClock {
        BoardClock { board, last: None }
    }
}

impl Clock for BoardClock {
    ghost reading = { λ clock. clock.last };

    ghost reads = { λ old new now. new.last ≡ Some now };

    fn now(&mut self) -> u64 {
        let now = self.board.time();
        self.last = Some(now);
        now
    }

    fn last(&self) -> Option<u64> {
        self.last
    }
}

/// The system's clock, of which each reading is counted on the board.
#[derive(Drop)]
pub struct CountedClock<T> {
    clock: SystemClock<T>,
    board: Shared,
}

impl<T> CountedClock<T> {
    pub fn new(clock: SystemClock<T>, board: Shared) -> CountedClock<T> {
        CountedClock { clock, board }
    }
}

impl<T: SystemTime + Copy> Clock for CountedClock<T> {
    ghost reading = { λ clock. clock.clock.last };

    ghost reads = { λ old new now. new.clock.last ≡ Some now };

    fn now(&mut self) -> u64 {
        self.board.count();
        self.clock.now()
    }

    fn last(&self) -> Option<u64> {
        self.clock.last()
    }
}

/// A pause of 30 milliseconds takes that, and not a thousand times as long, by each copy of the clock.
#[test]
fn the_system_clock_goes_as_time_does(rt: HostRuntime) -> Result<(), Fail> {
    let mut clock = SystemClock::starting_at(rt, 1_000).ok_or("no time")?;
    let mut copy = clock;
    let before = clock.now();
    assert!(rt; 1_000 <= before && before < 21_000);
    thread::sleep(&rt, Duration::from_millis(30));
    let passed = copy.now().saturating_sub(before);
    assert!(rt; 29 <= passed && passed < 20_000);
    Ok(())
}
