//! A supervisor of a periodic job: a beat that fails or hangs is begun anew, three times at most.

use balkreyn::act::*;
use balkreyn::*;
use std::rt::Clock as SystemTime;

/// The periodic job in one of its lives: the first fails at its third beat, the second hangs there, the third is well.
#[derive(Clone, Copy)]
struct Beat {
    life: u32,
}

impl Task for Beat {
    fn run<X: Acts<Beat>>(self, cx: &mut X) -> End {
        let beaten = every(cx, 10, 5, |cx, round| self.beat(cx, round));
        match beaten {
            Ok(None) => Ok(Value::Num(5)),
            Ok(Some(_)) => Err(Fault(named(b"cancelled"))),
            Err(_) => Err(Fault(named(b"no-beat"))),
        }
    }
}

impl Beat {
    /// One beat.
    fn beat<X: Acts<Beat>>(self, cx: &mut X, round: u64) -> Result<(), Refusal> {
        match (self.life, round) {
            (0, 2) => Err(Refusal::Unavailable),
            (1, 2) => cx.sleep(u64::MAX).map(|_| ()),
            _ => Ok(()),
        }
    }
}

/// The supervisor, which writes by this handle.
#[derive(Clone, Copy)]
struct Supervisor(HostRuntime);

impl ServiceAnswer for Supervisor {
    type Answer = ();

    type Error = ServiceError;
}

impl Serves<Beat> for Supervisor {
    fn serve<X: Acts<Beat>>(self, cx: &mut X) -> Result<(), ServiceError> {
        let backoff = Backoff {
            retries: 3,
            pause: 10,
        };
        retry(cx, backoff, |cx, life| self.watch(cx, life))
    }
}

impl Supervisor {
    /// Lets the job live once, and says how its life ended. It is not well if it fails, or takes a second.
    fn watch<X: Acts<Beat>>(self, cx: &mut X, life: u32) -> Result<(), ServiceError> {
        let options = cx.fail_after(1_000);
        let outcome = scope(cx, Joiner::AwaitOk, options, |cx, scope| {
            cx.fork(scope, named(b"beat"), Beat { life })?;
            Ok::<Outcome, Refusal>(cx.join(scope)?.outcome)
        })?;
        let _written = println!(self.0; "life {life}: {outcome}");
        match outcome {
            Outcome::Done => Ok(()),
            _ => Err(Refusal::Unavailable.into()),
        }
    }
}

/// Prints how each life ended.
pub fn show<R: PoolRuntime + SystemTime>(rt: &R, io: HostRuntime) -> std::io::Result<()> {
    match serve::<Beat, (), Supervisor, R>(rt, io.alloc(), 4, Hooks::none(), Supervisor(io)) {
        Ok(()) => println!(io; "well"),
        Err(failed) => println!(io; "{failed}"),
    }
}
