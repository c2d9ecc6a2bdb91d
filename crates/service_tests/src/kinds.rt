//! Two kinds of typed jobs in one pool, by the names of `balkreyn` alone: the code that docs/GUIDE.md shows.
ghost use Rattle.std.specs.Prelude.{◌≡◌};

use balkreyn::by_hand::{
    Answers, CanFork, Job, Service, Spawner, TaskCtx, TypedJob, fork_typed, serve_on_pool,
};
use balkreyn::realms::{RealmName, Seed};
use balkreyn::{
    AnyEnd, End, Fault, Handle, Joiner, Name, Options, PoolRuntime, Refusal, ScopeId,
    ServiceAnswer, Slot, Typed, Yields,
};
use std::alloc::Global;
use std::marker::Brand;
use std::process::Abort;
use std::rt::Clock as SystemTime;
use std::sync::Wait;
use std::test::Fail;

/// A job that answers so many lines.
#[derive(Drop)]
struct AskPage {
    alloc: Global,
    lines: u32,
}

impl Yields for AskPage {
    type Value = Vec<u32>;

    type Error = Fault;

    ghost may_yield = { λ name lines. Unit {0} };

    ghost is_fact = { λ name lines. Prim.hlevel };
}

impl<N: RealmName, S: Spawner<N>> TypedJob<S, N> for AskPage {
    fn run_typed<R: Wait>(
        self,
        _rt: &R,
        _ctx: &mut TaskCtx<AnyEnd, S, N>,
        name: Name,
    ) -> Result<Vec<u32>, Fault> {
        let mut lines = Vec::new(self.alloc);
        for line in 0..self.lines {
            if lines.push(line).is_err() {
                return Err(Fault(name));
            }
        }
        Ok(lines)
    }
}

/// How much there is of something.
#[derive(Clone, Copy)]
struct Stock {
    pieces: u32,
}

/// A job that answers what is in stock, and fails where nothing is.
#[derive(Drop)]
struct AskStock {
    pieces: u32,
}

impl Yields for AskStock {
    type Value = Stock;

    type Error = Fault;

    ghost may_yield = { λ name stock. Unit {0} };

    ghost is_fact = { λ name stock. Prim.hlevel };
}

impl<N: RealmName, S: Spawner<N>> TypedJob<S, N> for AskStock {
    fn run_typed<R: Wait>(
        self,
        _rt: &R,
        _ctx: &mut TaskCtx<AnyEnd, S, N>,
        name: Name,
    ) -> Result<Stock, Fault> {
        match self.pieces {
            0 => Err(Fault(name)),
            pieces => Ok(Stock { pieces }),
        }
    }
}

/// The works of one pool.
#[derive(Drop)]
enum Shop {
    Page(Typed<AskPage>),
    Stock(Typed<AskStock>),
}

impl From<Typed<AskPage>> for Shop {
    fn from(typed: Typed<AskPage>) -> Shop {
        Shop::Page(typed)
    }
}

impl From<Typed<AskStock>> for Shop {
    fn from(typed: Typed<AskStock>) -> Shop {
        Shop::Stock(typed)
    }
}

impl Answers for Shop {
    ghost may_end = { λ job end. Unit {0} };
}

impl<N: RealmName, S: Spawner<N>> Job<AnyEnd, S, N> for Shop {
    fn run<R: Wait>(self, rt: &R, ctx: &mut TaskCtx<AnyEnd, S, N>) -> End {
        match self {
            Shop::Page(typed) => typed.run(rt, ctx),
            Shop::Stock(typed) => typed.run(rt, ctx),
        }
    }
}

/// The slots of the jobs that were forked, all of one name: two that succeed, and one that fails.
#[derive(Drop)]
struct Asked {
    page: Slot<AskPage>,
    stock: Slot<AskStock>,
    nothing: Slot<AskStock>,
}

/// Forks the three.
fn ask<N: RealmName, S: CanFork<AnyEnd, N, Shop>, R: Wait>(
    rt: &R,
    alloc: Global,
    ctx: &mut TaskCtx<AnyEnd, S, N>,
    scope: ScopeId,
    name: Name,
) -> Result<Asked, Refusal> {
    let page = fork_typed(rt, alloc, ctx, scope, name, AskPage { alloc, lines: 4 })?;
    let stock = fork_typed(rt, alloc, ctx, scope, name, AskStock { pieces: 3 })?;
    let nothing = fork_typed(rt, alloc, ctx, scope, name, AskStock { pieces: 0 })?;
    Ok(Asked {
        page,
        stock,
        nothing,
    })
}

/// How many lines the page has.
fn lines_of<N: RealmName, S: Spawner<N>, R: Wait>(
    rt: &R,
    ctx: &mut TaskCtx<AnyEnd, S, N>,
    slot: &Slot<AskPage>,
) -> Result<usize, Refusal> {
    match slot.take(rt, ctx) {
        Ok(lines) => Ok(lines.len()),
        Err(refusal) => Err(refusal),
    }
}

/// How many pieces there are.
fn pieces_of<N: RealmName, S: Spawner<N>, R: Wait>(
    rt: &R,
    ctx: &mut TaskCtx<AnyEnd, S, N>,
    slot: &Slot<AskStock>,
) -> Result<u32, Refusal> {
    match slot.take(rt, ctx) {
        Ok(stock) => Ok(stock.pieces),
        Err(refusal) => Err(refusal),
    }
}

/// What was found: before the join and after it.
#[derive(Clone, Copy)]
struct Found {
    early: Result<usize, Refusal>,
    lines: Result<usize, Refusal>,
    again: Result<usize, Refusal>,
    pieces: Result<u32, Refusal>,
    nothing: Result<u32, Refusal>,
}

/// Opens a scope, forks, looks too early, joins, and looks.
fn look<N: RealmName, S: CanFork<AnyEnd, N, Shop>, R: Wait>(
    rt: &R,
    alloc: Global,
    ctx: &mut TaskCtx<AnyEnd, S, N>,
    name: Name,
) -> Result<Found, Refusal> {
    let scope = match ctx.open(rt, Joiner::AwaitAll, Options::PLAIN) {
        Ok(scope) => scope,
        Err((refusal, _joiner)) => return Err(refusal),
    };
    let asked = ask(rt, alloc, ctx, scope, name)?;
    let early = lines_of(rt, ctx, &asked.page);
    ctx.join(rt, scope)?;
    Ok(Found {
        early,
        lines: lines_of(rt, ctx, &asked.page),
        again: lines_of(rt, ctx, &asked.page),
        pieces: pieces_of(rt, ctx, &asked.stock),
        nothing: pieces_of(rt, ctx, &asked.nothing),
    })
}

/// Main's part: what is found for this name.
#[derive(Clone, Copy)]
struct Looks {
    alloc: Global,
    name: Name,
}

impl ServiceAnswer for Looks {
    type Answer = Found;

    type Error = Refusal;

    ghost may_answer = { λ looks found. Unit {0} };
}

impl<N: RealmName, S: CanFork<AnyEnd, N, Shop>, R: Handle> Service<S, N, R> for Looks {
    fn serve(self, rt: &R, ctx: &mut TaskCtx<AnyEnd, S, N>) -> Result<Found, Refusal> {
        look(rt, self.alloc, ctx, self.name)
    }
}

/// What is found, on a pool of its own.
fn looked<N: RealmName + Send + Sync + 'static, R: PoolRuntime + SystemTime>(
    rt: &R,
    seed: Seed,
    looks: Looks,
) -> Result<Found, Refusal>
    requires { seed ≡ N.table }
{
    serve_on_pool::<N, Shop, _, R>(rt, looks.alloc, seed, 4, looks)
}

#[test]
fn a_slot_gives_its_own_jobs_value_once_after_the_join(rt: HostRuntime) -> Result<(), Fail> {
    let name = Name::new(b"shop").ok_or("a name")?;
    let seed = Seed::new(rt.alloc())?;
    let looks = Looks {
        alloc: rt.alloc(),
        name,
    };
    let found = looked::<Brand, _>(&rt, seed, looks)?;
    assert!(rt; found.early == Err(Refusal::NotJoined));
    assert!(rt; found.lines == Ok(4));
    assert!(rt; found.again == Err(Refusal::Unavailable));
    assert!(rt; found.pieces == Ok(3));
    assert!(rt; found.nothing == Err(Refusal::NotSuccess));
    Ok(())
}
