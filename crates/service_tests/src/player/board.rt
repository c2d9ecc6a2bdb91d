//! What the actors of a row share.

use super::steps::{Row, Step, StopBy};
use balkreyn::Refusal;
use balkreyn::act::{Limiter, Load, Receiver, Sender, Stop, channel};
use std::alloc::{AllocError, Global};
use std::sync::Arc;
use std::sync::atomic::{AtomicU64, Ordering};
use std::{fs, thread};

/// How many cells a board has.
const CELLS: u64 = 168;

/// The file that asks for a stop.
pub const STOP_FILE: &str = "asked-to-stop";

/// What all actors see: a half of a channel without a value, one of a channel that becomes full, and permits; what they count;
/// and whether each step came to what it was to.
#[derive(Drop)]
pub struct Board {
    pub io: HostRuntime,
    pub jobs: &'static [&'static [Step]],
    pub empty: Receiver<u64>,
    pub full: Sender<u64>,
    pub limiter: Limiter,
    pub stop: Option<Arc<Stop, Global>>,
    pub load: Arc<Load, Global>,
    /// How often the clock was read.
    pub readings: &'static AtomicU64,
    /// How many threads the process had before the service.
    pub threads: u64,
    cells: Vec<AtomicU64>,
    /// The actor and the step that came to something else, if there is one: a thousand times the actor's number, and the step's.
    pub stray: AtomicU64,
}

/// The other halves, which main has.
#[derive(Drop)]
pub struct Halves {
    pub into: Sender<u64>,
    pub from: Receiver<u64>,
}

impl Halves {
    /// The same for one more.
    pub fn share(&self) -> Result<Halves, AllocError> {
        Ok(Halves {
            into: self.into.share()?,
            from: self.from.share()?,
        })
    }
}

/// The board of the row, and main's halves.
pub fn board_of(
    io: HostRuntime,
    readings: &'static AtomicU64,
    row: Row,
) -> Result<(Board, Halves), AllocError> {
    let alloc = io.alloc();
    let (into, empty) = channel(alloc, row.rooms.0)?;
    let (full, from) = channel(alloc, row.rooms.1)?;
    let cells = cells_of(alloc)?;
    let limiter = Limiter::new(alloc, row.permits)?;
    let stop = stop_of(io, row.stop)?;
    let load = Arc::new(alloc, Load::at_most(row.most))?;
    let board = Board {
        io,
        jobs: row.jobs,
        empty,
        full,
        limiter,
        stop,
        load,
        readings,
        threads: threads_now(&io),
        cells,
        stray: AtomicU64::new(0),
    };
    Ok((board, Halves { into, from }))
}

/// Cells in which nothing is counted.
fn cells_of(alloc: Global) -> Result<Vec<AtomicU64>, AllocError> {
    let mut cells = Vec::new(alloc);
    for _ in 0..CELLS {
        cells.push(AtomicU64::new(0))?;
    }
    Ok(cells)
}

/// The stop that is asked for so.
fn stop_of(io: HostRuntime, by: StopBy) -> Result<Option<Arc<Stop, Global>>, AllocError> {
    let stop = match by {
        StopBy::Nothing => return Ok(None),
        StopBy::Call | StopBy::Watched => Stop::new(),
        StopBy::File => Stop::by_file(io, String::from_str(io.alloc(), STOP_FILE)?),
    };
    Ok(Some(Arc::new(io.alloc(), stop)?))
}

impl Board {
    /// What is counted in the cell.
    pub fn counted(&self, cell: usize) -> u64 {
        match self.cells.get(cell) {
            Some(count) => count.load(Ordering::SeqCst),
            None => 0,
        }
    }

    /// Counts one more in the cell, and gives how much was counted before.
    pub fn count(&self, cell: usize) -> u64 {
        match self.cells.get(cell) {
            Some(count) => count.fetch_add(1, Ordering::SeqCst),
            None => 0,
        }
    }

    /// Puts the number into the cell.
    pub fn put(&self, cell: usize, number: u64) {
        if let Some(count) = self.cells.get(cell) {
            count.store(number, Ordering::SeqCst);
        }
    }

    /// The number was received, or came back.
    pub fn see(&self, number: u64) {
        self.count(usize::try_from(number).unwrap_or(usize::MAX));
    }

    /// How many of so many cells were counted just once.
    pub fn once(&self, many: u64) -> u64 {
        let mut once = 0u64;
        for cell in self.cells.iter() {
            if cell.load(Ordering::SeqCst) == 1 {
                once = once.saturating_add(1);
            }
        }
        once.min(many)
    }

    /// How often the clock was read.
    pub fn read(&self) -> u64 {
        self.readings.load(Ordering::SeqCst)
    }

    /// Returns once so much is counted in the cell.
    pub fn wait(&self, cell: usize, least: u64) {
        for _ in 0..u32::MAX {
            if self.counted(cell) >= least {
                break;
            }
            thread::yield_now();
        }
    }

    /// Returns once somebody is in line.
    pub fn wait_line(&self, cell: usize) {
        self.wait(cell, 1);
        for _ in 0..u32::MAX {
            if self.read() >= self.counted(cell) {
                break;
            }
            thread::yield_now();
        }
    }

    /// The actor's step came to something else.
    pub fn strays(&self, actor: u64, step: u64) {
        let place = actor.saturating_mul(1_000).saturating_add(step);
        self.stray.fetch_max(place, Ordering::SeqCst);
    }

    /// Asks for the stop by its file.
    pub fn write_stop(&self) -> Result<(), Refusal> {
        match fs::write(&self.io, STOP_FILE, "") {
            Ok(()) => Ok(()),
            Err(_) => Err(Refusal::Unavailable),
        }
    }
}

/// How many threads this process has, or 0 where the system does not tell.
pub fn threads_now(io: &HostRuntime) -> u64 {
    let Ok(text) = fs::read_to_string(io, "/proc/self/status") else {
        return 0;
    };
    for line in text.as_str().lines() {
        if let Some(number) = line.strip_prefix("Threads:") {
            return number.trim().parse().unwrap_or(0);
        }
    }
    0
}
