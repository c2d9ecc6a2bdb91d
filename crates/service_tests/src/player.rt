//! One player of all services that only act: their rows are data. Each row is a service of its own, whose actors do one step
//! after the other, and each step is to come to what stands beside it.

mod board;
mod jobs;
mod noted;
mod playing;
mod rows;
mod scopes;
mod steps;
mod waiting;
mod waits;

use super::cancels::Heard;
use super::counting::Counting;
use super::watches::watch_of;
use balkreyn::act::{Hooks, serve};
use balkreyn::{PoolRuntime, Refusal, ServiceError};
use board::{Board, Halves, STOP_FILE, board_of};
use playing::{Main, Player, Work};
use rows::{CANCELS, JOBS, TIMES};
pub use scopes::opened;
use std::alloc::Global;
use std::fs;
use std::process::Abort;
use std::rt::Clock as SystemTime;
use std::sync::Arc;
use std::sync::atomic::Ordering;
use std::test::Fail;
use steps::{Row, StopBy};
use waiting::{CROWDS, HANDING, LINES, TREES, WOKEN};

/// What is said of a service that was refused something else, and of one whose observer heard of other cancels. Else it is a
/// thousand times an actor's number, and that of a step.
const REFUSED: u64 = 1_000_000;

const HEARD: u64 = 2_000_000;

/// The first that went otherwise than the row says, or 0.
fn wrong_in<R: PoolRuntime + SystemTime>(rt: R, io: HostRuntime, row: Row) -> Result<u64, Refusal> {
    let alloc = io.alloc();
    let counting = Counting::over(rt, alloc)?;
    let (board, halves) = board_of(io, counting.readings, row)?;
    let board = Arc::new(alloc, board)?;
    let observer = Arc::new(alloc, Heard::none())?;
    let refused = served(&counting, &board, halves, &observer, row)?;
    if let StopBy::File = row.stop
        && fs::remove_file(&io, STOP_FILE).is_err()
    {
        return Ok(REFUSED);
    }
    let stray = board.stray.load(Ordering::SeqCst);
    if stray > 0 {
        return Ok(stray);
    }
    if refused != row.refused {
        return Ok(REFUSED);
    }
    match row.heard {
        Some(heard) if heard != observer.all() => Ok(HEARD),
        _ => Ok(0),
    }
}

/// Serves the row; what it is refused.
fn served<R: PoolRuntime + SystemTime>(
    rt: &R,
    board: &Arc<Board, Global>,
    halves: Halves,
    observer: &Arc<Heard, Global>,
    row: Row,
) -> Result<Option<Refusal>, Refusal> {
    let player = Player {
        number: 0,
        first: row.first,
        steps: row.steps,
        board: Arc::try_clone(board)?,
        halves: Some(halves),
    };
    let main = Main {
        body: row.body,
        player,
    };
    let hooks = hooks_of(board, observer, row.stop)?;
    match serve::<Work, Heard, Main, R>(rt, board.io.alloc(), row.keep, hooks, main) {
        Ok(_given) => Ok(None),
        Err(ServiceError::Refused(refusal)) => Ok(Some(refusal)),
        Err(_) => Ok(Some(Refusal::Unavailable)),
    }
}

/// The hooks of a service that is stopped so.
fn hooks_of(
    board: &Board,
    observer: &Arc<Heard, Global>,
    by: StopBy,
) -> Result<Hooks<Heard>, Refusal> {
    let stop = match &board.stop {
        Some(stop) => Some(Arc::try_clone(stop)?),
        None => None,
    };
    let watch = match by {
        StopBy::Watched => Some(watch_of(board.io, "tree-of-a-row", 2, 60)?),
        _ => None,
    };
    let load = Arc::try_clone(&board.load)?;
    let observer = Arc::try_clone(observer)?;
    Ok(Hooks {
        stop,
        watch,
        load: Some(load),
        observer: Some(observer),
    })
}

/// Plays each of the rows as often as it says.
fn check<R: PoolRuntime + SystemTime + Abort>(
    rt: R,
    io: HostRuntime,
    rows: &[Row],
) -> Result<(), Fail> {
    for row in rows {
        for _ in 0..row.rounds {
            let wrong = wrong_in(rt, io, *row)?;
            assert!(rt; wrong == 0, "{}: {wrong}", row.name);
        }
    }
    Ok(())
}

#[test]
fn each_row_of_cancels(rt: HostRuntime) -> Result<(), Fail> {
    check(rt, rt, &CANCELS)
}

#[test]
fn each_row_of_times(rt: HostRuntime) -> Result<(), Fail> {
    check(rt, rt, &TIMES)
}

#[test]
fn each_row_of_jobs(rt: HostRuntime) -> Result<(), Fail> {
    check(rt, rt, &JOBS)
}

#[test]
fn each_row_of_woken(rt: HostRuntime) -> Result<(), Fail> {
    check(rt, rt, &WOKEN)
}

#[test]
fn each_row_of_handing(rt: HostRuntime) -> Result<(), Fail> {
    check(rt, rt, &HANDING)
}

#[test]
fn each_row_of_lines(rt: HostRuntime) -> Result<(), Fail> {
    check(rt, rt, &LINES)
}

#[test]
fn each_row_of_crowds(rt: HostRuntime) -> Result<(), Fail> {
    check(rt, rt, &CROWDS)
}

#[test]
fn each_row_of_trees(rt: HostRuntime) -> Result<(), Fail> {
    check(rt, rt, &TREES)
}
