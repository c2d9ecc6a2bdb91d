//! A bounded map: 10,000 items, eight at a time; the first error ends it.

use balkreyn::act::*;
use balkreyn::*;
use std::rt::Clock as SystemTime;

/// Why there is no square.
#[derive(Clone, Copy)]
enum NoSquare {
    /// It is not less than the limit.
    TooLarge,
    /// The runtime refused a call.
    Refused(Refusal),
}

impl JobError for NoSquare {}

impl From<Refusal> for NoSquare {
    fn from(refusal: Refusal) -> NoSquare {
        NoSquare::Refused(refusal)
    }
}

/// An item, which answers its square if that is less than the limit, and fails if not.
#[derive(Clone, Copy)]
struct Square {
    of: u64,
    limit: u64,
}

impl Yields for Square {
    type Value = u64;

    type Error = NoSquare;

    ghost is_fact = { λ name value. Prim.hlevel };
}

impl TypedTask<Worker<Square>> for Square {
    fn run_typed<X: Acts<Worker<Square>>>(self, _cx: &mut X, _name: Name) -> Result<u64, NoSquare> {
        match self.of.saturating_mul(self.of) {
            square if square < self.limit => Ok(square),
            _ => Err(NoSquare::TooLarge),
        }
    }
}

/// The sum of the squares of 10,000 items under a limit.
#[derive(Clone, Copy)]
struct Sum {
    limit: u64,
}

impl ServiceAnswer for Sum {
    type Answer = Result<u64, NoSquare>;

    type Error = ServiceError;
}

impl Serves<Worker<Square>> for Sum {
    fn serve<X: Acts<Worker<Square>>>(
        self,
        cx: &mut X,
    ) -> Result<Result<u64, NoSquare>, ServiceError> {
        let mut items = Vec::new(cx.alloc());
        for of in 0..10_000u64 {
            let limit = self.limit;
            items.push(Square { of, limit }).map_err(Refusal::from)?;
        }
        let squares = map_at_most(cx, named(b"square"), Options::PLAIN, 8, items)?;
        let all = all_values(cx.alloc(), squares)?.into_result();
        Ok(all.map(|all| {
            all.iter()
                .fold(0u64, |sum, square| sum.saturating_add(*square))
        }))
    }
}

/// Prints the sum with no limit that counts, and what is said of one that an item breaks.
pub fn show<R: PoolRuntime + SystemTime>(rt: &R, io: HostRuntime) -> std::io::Result<()> {
    for limit in [u64::MAX, 64_000_000] {
        match serve::<Worker<Square>, (), Sum, R>(rt, io.alloc(), 8, Hooks::none(), Sum { limit }) {
            Ok(Ok(sum)) => println!(io; "squares: {sum}")?,
            Ok(Err(NoSquare::TooLarge)) => println!(io; "squares: one is too large")?,
            Ok(Err(NoSquare::Refused(refusal))) => println!(io; "squares: {refusal}")?,
            Err(failed) => println!(io; "squares: {failed}")?,
        }
    }
    Ok(())
}
