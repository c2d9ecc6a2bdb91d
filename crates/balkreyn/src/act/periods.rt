//! A body that is called again and again, with a pause behind each call.
ghost use Rattle.balkreyn.specs.{Repeats, Sleeps};

use crate::act::contexts::Acts;
use realm_lock::Mark;
use scope_rules::Refusal;

/// Calls the body so many times at most, with the number of its round from 0, and sleeps so many milliseconds behind each.
/// If a cancel ends a sleep, it calls no more, and returns the mark; None once all rounds are done. `u64::MAX` rounds end
/// by a cancel or an error alone.
///
/// # Errors
/// What the body failed with; or what `E` makes of the refusal of a sleep.
pub fn every<W, X: Acts<W>, E: From<Refusal> + Drop, F: FnMut(&mut X, u64) -> Result<(), E> + Drop>(
    cx: &mut X,
    millis: u64,
    rounds: u64,
    mut body: F,
) -> Result<Option<Mark>, E>
    requires { F.IsAlwaysCallable body }
    ensures { Repeats F.FnMut (λ old new slept. Sleeps X.reads X.reading X.time X.token X.seat millis old new slept) E.from_gives rounds body cx.old cx.new result }
{
    let mut number = 0u64;
    while number < rounds {
        match body(cx, number) {
            Ok(()) => {}
            Err(error) => return Err(error),
        }
        let slept = cx.sleep(millis)?;
        if slept.is_some() {
            return Ok(slept);
        }
        number += 1;
    }
    Ok(None)
}
