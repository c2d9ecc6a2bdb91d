//! A fan-out: each request asks four backends at once, each of two replicas that race, with one retry; it answers what
//! there is within its time, and is audited behind a shield. Three requests run at a time.

use balkreyn::act::*;
use balkreyn::*;
use std::rt::Clock as SystemTime;

/// The jobs of the service.
#[derive(Drop)]
enum Work {
    Request(Worker<Request>),
    Backend(Typed<Backend>),
    Replica(Typed<Replica>),
}

impl From<Worker<Request>> for Work {
    fn from(worker: Worker<Request>) -> Work {
        Work::Request(worker)
    }
}

impl From<Typed<Backend>> for Work {
    fn from(typed: Typed<Backend>) -> Work {
        Work::Backend(typed)
    }
}

impl From<Typed<Replica>> for Work {
    fn from(typed: Typed<Replica>) -> Work {
        Work::Replica(typed)
    }
}

impl Task for Work {
    fn run<X: Acts<Work>>(self, cx: &mut X) -> End {
        match self {
            Work::Request(worker) => worker.act(cx),
            Work::Backend(typed) => typed.act(cx),
            Work::Replica(typed) => typed.act(cx),
        }
    }
}

/// One replica: its file, how long it takes, and whether it is down. It answers the number in its file times that of the
/// request.
#[derive(Clone, Copy)]
struct Replica {
    io: HostRuntime,
    file: &'static str,
    takes: u64,
    down: bool,
}

impl Yields for Replica {
    type Value = i64;

    type Error = Refusal;

    ghost is_fact = { λ name value. Prim.hlevel };
}

impl TypedTask<Work> for Replica {
    fn run_typed<X: Acts<Work>>(self, cx: &mut X, _name: Name) -> Result<i64, Refusal> {
        let slept = cx.sleep(self.takes)?;
        let request = cx.get(&named(b"request"))?;
        match (slept, request, number_in(&self.io, self.file)) {
            (None, Value::Num(request), Some(number)) if !self.down => {
                Ok(number.saturating_mul(request))
            }
            _ => Err(Refusal::Unavailable),
        }
    }
}

/// The number in the file.
fn number_in(io: &HostRuntime, file: &str) -> Option<i64> {
    let text = std::fs::read_to_string(io, file).ok()?;
    text.trim().parse().ok()
}

/// A backend: two replicas of one file, and how many tries find both down.
#[derive(Clone, Copy)]
struct Backend {
    io: HostRuntime,
    file: &'static str,
    takes: (u64, u64),
    fails: u32,
}

impl Yields for Backend {
    type Value = i64;

    type Error = Refusal;

    ghost is_fact = { λ name value. Prim.hlevel };
}

impl TypedTask<Work> for Backend {
    fn run_typed<X: Acts<Work>>(self, cx: &mut X, name: Name) -> Result<i64, Refusal> {
        let backoff = Backoff {
            retries: 1,
            pause: 5,
        };
        retry(cx, backoff, |cx, tried| self.raced(cx, name, tried))
    }
}

impl Backend {
    /// The answer of the replica that is first to succeed.
    fn raced<X: Acts<Work>>(self, cx: &mut X, name: Name, tried: u32) -> Result<i64, Refusal> {
        let mut replicas = Vec::new(cx.alloc());
        for takes in [self.takes.0, self.takes.1] {
            replicas.push(Replica {
                io: self.io,
                file: self.file,
                takes,
                down: tried < self.fails,
            })?;
        }
        race(cx, name, Options::PLAIN, replicas)?.into_result()
    }
}

/// A request, by its number.
#[derive(Clone, Copy)]
struct Request {
    io: HostRuntime,
    number: i64,
}

/// What a request comes to: the backends' answers in order, of which some may be missing, and whether it was audited.
#[derive(Clone, Copy)]
struct Answer {
    stock: Option<i64>,
    price: Option<i64>,
    rating: Option<i64>,
    delivery: Option<i64>,
    audited: bool,
}

impl Yields for Request {
    type Value = Answer;

    type Error = Refusal;

    ghost is_fact = { λ name value. Prim.hlevel };
}

impl TypedTask<Work> for Request {
    fn run_typed<X: Acts<Work>>(self, cx: &mut X, _name: Name) -> Result<Answer, Refusal> {
        let number = Value::Num(self.number);
        bound(cx, named(b"request"), number, |cx| self.answered(cx))
    }
}

impl Request {
    /// Asks the four, and writes the audit.
    fn answered<X: Acts<Work>>(self, cx: &mut X) -> Result<Answer, Refusal> {
        let mut backends = Vec::new(cx.alloc());
        for (file, takes, fails) in [
            ("stock", (20, 30), 0),
            ("price", (400, 10), 0),
            ("rating", (10, 20), 1),
            ("delivery", (60_000, 40_000), 0),
        ] {
            backends.push(Backend {
                io: self.io,
                file,
                takes,
                fails,
            })?;
        }
        let options = cx.move_on_after(1_500);
        let found = all_of(cx, named(b"backend"), options, backends)?;
        let audited = shielded(
            cx,
            |cx, _scope| Ok::<bool, Refusal>(cx.sleep(10)?.is_none()),
        )?;
        let mut values = found.into_iter().map(|came| came.value());
        Ok(Answer {
            stock: values.next().flatten(),
            price: values.next().flatten(),
            rating: values.next().flatten(),
            delivery: values.next().flatten(),
            audited,
        })
    }
}

/// The service: six requests.
#[derive(Clone, Copy)]
struct FanOut(HostRuntime);

impl ServiceAnswer for FanOut {
    type Answer = Vec<Answer>;

    type Error = ServiceError;
}

impl Serves<Work> for FanOut {
    fn serve<X: Acts<Work>>(self, cx: &mut X) -> Result<Vec<Answer>, ServiceError> {
        let mut requests = Vec::new(cx.alloc());
        for number in 1..=6i64 {
            let io = self.0;
            requests
                .push(Request { io, number })
                .map_err(Refusal::from)?;
        }
        let found = map_at_most(cx, named(b"request"), Options::PLAIN, 3, requests)?;
        Ok(all_values(cx.alloc(), found)?.into_result()?)
    }
}

/// Prints what each request comes to.
pub fn show<R: PoolRuntime + SystemTime>(rt: &R, io: HostRuntime) -> std::io::Result<()> {
    match serve::<Work, (), FanOut, R>(rt, io.alloc(), 8, Hooks::none(), FanOut(io)) {
        Ok(answers) => {
            for answer in answers {
                let Answer {
                    stock,
                    price,
                    rating,
                    delivery,
                    audited,
                } = answer;
                println!(io; "{stock:?} {price:?} {rating:?} {delivery:?} {audited}")?;
            }
            Ok(())
        }
        Err(failed) => println!(io; "{failed}"),
    }
}
