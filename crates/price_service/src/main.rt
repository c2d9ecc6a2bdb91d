//! The service of docs/TUTORIAL.md: three shops are asked for a price at once, and the first that answers wins, if
//! one does within two seconds.
#![tactic(auto)]

use balkreyn::act::*;
use balkreyn::*;

/// Asks a shop: its price is in this file, and it takes so many milliseconds to answer.
#[derive(Clone, Copy)]
struct Ask(HostRuntime, &'static str, u64);

impl Task for Ask {
    fn run<X: Acts<Ask>>(self, cx: &mut X) -> End {
        match (cx.sleep(self.2), price_in(&self.0, self.1)) {
            (Ok(None), Some(price)) => Ok(Value::Num(price)),
            _ => Err(Fault(named(b"no-price"))),
        }
    }
}

/// The price in the file.
fn price_in(io: &HostRuntime, file: &str) -> Option<i64> {
    let text = std::fs::read_to_string(io, file).ok()?;
    text.trim().parse().ok()
}

/// The request: who answers first.
#[derive(Clone, Copy)]
struct First(HostRuntime);

impl ServiceAnswer for First {
    type Answer = Outcome;

    type Error = ServiceError;
}

impl Serves<Ask> for First {
    fn serve<X: Acts<Ask>>(self, cx: &mut X) -> Result<Outcome, ServiceError> {
        let (shop, options) = (named(b"shop"), cx.fail_after(2_000));
        scope(cx, Joiner::Any, options, |cx, scope| {
            for (file, takes) in [("ash", 60_000), ("birch", 20), ("cedar", 30_000)] {
                cx.fork(scope, shop, Ask(self.0, file, takes))?;
            }
            Ok(cx.join(scope)?.outcome)
        })
    }
}

fn main(rt: HostRuntime) -> std::io::Result<()> {
    match serve::<Ask, (), First, _>(&rt, rt.alloc(), 4, Hooks::none(), First(rt)) {
        Ok(outcome) => println!(rt; "{outcome}"),
        Err(failed) => println!(rt; "{failed}"),
    }
}
