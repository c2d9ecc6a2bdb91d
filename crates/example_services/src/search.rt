//! A search over twenty shards of two replicas each: the second is asked if the first hasn't answered within 30
//! milliseconds. The answer comes within 150, by score, and says which shards are missing.

use balkreyn::act::*;
use balkreyn::*;
use std::rt::Clock as SystemTime;

/// The jobs of the service: a shard, or a replica, with the score of what it finds, and how many milliseconds it takes.
#[derive(Drop)]
enum Work {
    Shard(Typed<Shard>),
    Replica { score: i64, takes: u64 },
}

impl From<Typed<Shard>> for Work {
    fn from(typed: Typed<Shard>) -> Work {
        Work::Shard(typed)
    }
}

impl Task for Work {
    fn run<X: Acts<Work>>(self, cx: &mut X) -> End {
        match self {
            Work::Shard(typed) => typed.act(cx),
            Work::Replica { score, takes } => match cx.sleep(takes) {
                Ok(None) => Ok(Value::Num(score)),
                _ => Err(Fault(named(b"cut"))),
            },
        }
    }
}

/// A shard, by its number. Each fifth has a slow replica, and both replicas of the last hang.
#[derive(Clone, Copy)]
struct Shard(u32);

impl Yields for Shard {
    type Value = i64;

    type Error = Refusal;

    ghost is_fact = { λ name value. Prim.hlevel };
}

impl TypedTask<Work> for Shard {
    fn run_typed<X: Acts<Work>>(self, cx: &mut X, name: Name) -> Result<i64, Refusal> {
        let Shard(number) = self;
        let score = i64::from(number.saturating_mul(37) % 101);
        let first = if number % 5 == 4 { 60_000 } else { 1 };
        let second = if number == 19 { 60_000 } else { 1 };
        scope(cx, Joiner::Any, Options::PLAIN, |cx, scope| {
            for takes in [first, second] {
                cx.fork(scope, name, Work::Replica { score, takes })?;
                if cx.sleep(30)?.is_some() {
                    break;
                }
            }
            match cx.join(scope)?.outcome {
                Outcome::Any {
                    value: Value::Num(score),
                    ..
                } => Ok(score),
                _ => Err(Refusal::Unavailable),
            }
        })
    }
}

/// The search.
#[derive(Clone, Copy)]
struct Search(HostRuntime);

impl ServiceAnswer for Search {
    type Answer = ();

    type Error = ServiceError;
}

impl Serves<Work> for Search {
    fn serve<X: Acts<Work>>(self, cx: &mut X) -> Result<(), ServiceError> {
        let (io, mut shards) = (self.0, Vec::new(cx.alloc()));
        for number in 0..20u32 {
            shards.push(Shard(number))?;
        }
        let options = cx.move_on_after(150);
        let found = all_of(cx, named(b"shard"), options, shards)?;
        let (mut hits, mut missing) = (Vec::new(cx.alloc()), 0u32);
        for (number, came) in found.iter().enumerate() {
            match came {
                Came::Value(score) => hits.push((*score, number))?,
                _ => missing = missing.saturating_add(1),
            }
        }
        hits.sort_by(|one, other| other.0.cmp(&one.0))?;
        for (score, number) in hits.iter().take(3) {
            println!(io; "search: shard {number} scores {score}").map_err(|_| Refusal::Memory)?;
        }
        println!(io; "search: {missing} missing").map_err(|_| Refusal::Memory)?;
        Ok(())
    }
}

/// Searches, and prints the best three and how many shards are missing.
pub fn show<R: PoolRuntime + SystemTime>(rt: &R, io: HostRuntime) -> std::io::Result<()> {
    match serve::<Work, (), Search, R>(rt, io.alloc(), 64, Hooks::none(), Search(io)) {
        Ok(()) => Ok(()),
        Err(failed) => println!(io; "search: {failed}"),
    }
}
