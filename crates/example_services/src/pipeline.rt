//! Three stages with small channels between them: numbers are sent, doubled, and checked. One number is poison, which the
//! check leaves out; the end of each stage closes its channel, so all stop behind the last number.

use balkreyn::act::*;
use balkreyn::*;
use std::rt::Clock as SystemTime;

/// The stages, by the halves of channels that they hold.
#[derive(Drop)]
enum Stage {
    Feed(Sender<u32>),
    Double(Receiver<u32>, Sender<u32>),
    Check(Receiver<u32>, Sender<u32>),
}

/// The number that spoils what it meets.
const POISON: u32 = 26;

impl Task for Stage {
    fn run<X: Acts<Stage>>(self, cx: &mut X) -> End {
        let done = match self {
            Stage::Feed(into) => feed(cx, &into),
            Stage::Double(from, into) => {
                each(
                    cx,
                    &from,
                    |cx, number| hand_on(cx, &into, number.saturating_mul(2)),
                )
            }
            Stage::Check(from, into) => each(cx, &from, |cx, number| {
                if number == POISON {
                    return Ok(());
                }
                hand_on(cx, &into, number)
            }),
        };
        match done {
            Ok(true) => Ok(Value::Num(1)),
            _ => Err(Fault(named(b"cut"))),
        }
    }
}

/// Sends the numbers up to a thousand.
fn feed<X: Acts<Stage>>(cx: &mut X, into: &Sender<u32>) -> Result<bool, Refusal> {
    for number in 1..=1_000u32 {
        hand_on(cx, into, number)?;
    }
    Ok(true)
}

/// Sends the number, once the next stage has room.
fn hand_on<X: Acts<Stage>>(cx: &mut X, into: &Sender<u32>, number: u32) -> Result<(), Refusal> {
    match send(cx, into, number)? {
        Sent::Done => Ok(()),
        _ => Err(Refusal::Unavailable),
    }
}

/// The pipeline, which answers how many numbers came through, and their sum.
#[derive(Clone, Copy)]
struct Pipeline;

impl ServiceAnswer for Pipeline {
    type Answer = (u32, u32);

    type Error = ServiceError;
}

impl Serves<Stage> for Pipeline {
    fn serve<X: Acts<Stage>>(self, cx: &mut X) -> Result<(u32, u32), ServiceError> {
        let alloc = cx.alloc();
        let (fed, feeding) = channel(alloc, 8)?;
        let (doubled, doubling) = channel(alloc, 8)?;
        let (checked, checking) = channel(alloc, 8)?;
        let options = cx.fail_after(60_000);
        let seen = scope(cx, Joiner::AwaitOk, options, |cx, scope| {
            cx.fork(scope, named(b"feed"), Stage::Feed(fed))?;
            cx.fork(scope, named(b"double"), Stage::Double(feeding, doubled))?;
            cx.fork(scope, named(b"check"), Stage::Check(doubling, checked))?;
            let (mut count, mut sum) = (0u32, 0u32);
            each(cx, &checking, |_cx, number| {
                count = count.saturating_add(1);
                sum = sum.saturating_add(number);
                Ok::<(), ServiceError>(())
            })?;
            cx.join(scope)?;
            Ok::<(u32, u32), ServiceError>((count, sum))
        })?;
        Ok(seen)
    }
}

/// Runs the pipeline, and prints what came through.
pub fn show<R: PoolRuntime + SystemTime>(rt: &R, io: HostRuntime) -> std::io::Result<()> {
    match serve::<Stage, (), Pipeline, R>(rt, io.alloc(), 4, Hooks::none(), Pipeline) {
        Ok((count, sum)) => println!(io; "pipeline: {count} numbers, {sum} in all"),
        Err(failed) => println!(io; "pipeline: {failed}"),
    }
}
