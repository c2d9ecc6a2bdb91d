//! The threads of a plan's jobs, which there are only if the words say a quote.
ghost use Rattle.std.specs.Prelude.{◌≡◌};
ghost use Rattle.scopectl.specs.{Acts, IfOk, IsRead, IsSound, map, run, string_bytes};

use crate::act::{act, refuse_words};
use crate::looks::Looker;
use crate::streams::Streams;
use command_line::{CommandLine, LineFault};
use job_runner::JobWork;
use quote_gateway::LateJob;
use realm_lock::{RealmName, Seed};
use scope_rules::Due;
use std::alloc::{AllocError, Global};
use std::io::{ErrorKind, Read, Write};
use std::marker::Brand;
use std::rt::Clock as SystemTime;
use thread_pool::{Nobody, OsThreads, PoolRuntime, ThreadPool};

/// How many threads of a pool may rest.
const KEPT: usize = 4;

/// Does what the words say, and answers the exit status: `act` over threads if the words say a quote,
/// and over none else. Of words that memory is refused for, it says so and does nothing.
pub fn act_on<T: PoolRuntime + SystemTime, R: Read + Drop, W: Write + Drop, E: Write + Drop>(
    rt: &T,
    alloc: Global,
    looks: &mut Looker<'_>,
    words: &[&str],
    said: Result<CommandLine, LineFault>,
    streams: &mut Streams<'_, R, W, E>,
) -> u8
    requires read { IsRead (map (λ word. word.now) words.now) said }
    requires sound { IsSound streams.old }
    ensures { Acts (map (λ word. word.now) words.now) (run R.remaining W.contents E.contents streams.old streams.new) result }
{
    let Ok(seed) = Seed::new(alloc) else {
        return refuse_words(ErrorKind::OutOfMemory, streams.errors);
    };
    if needs_threads(&said) {
        act_with_pool::<Brand, T, R, W, E>(rt, alloc, seed, looks, words, said, streams)
    } else {
        act_alone::<Brand, T, R, W, E>(rt, alloc, seed, looks, words, said, streams)
    }
}

/// The words, borrowed. Refused if memory is.
pub fn borrowed<'a>(alloc: Global, owned: &'a [String]) -> Result<Vec<&'a str>, AllocError>
    ensures { IfOk result (λ words. map (λ word. word.now) words.items ≡ map string_bytes owned.now) }
{
    let mut words = Vec::new(alloc);
    for word in owned {
        words.push(word.as_str())?;
    }
    Ok(words)
}

/// Whether the words say a job that runs on threads.
fn needs_threads(said: &Result<CommandLine, LineFault>) -> bool {
    matches!(said, Ok(CommandLine::Quote { .. }))
}

/// Does what the words say over no threads: each job's thread is refused.
fn act_alone<
    N: RealmName + Send + Sync + 'static,
    T: PoolRuntime + SystemTime,
    R: Read + Drop,
    W: Write + Drop,
    E: Write + Drop,
>(
    rt: &T,
    alloc: Global,
    seed: Seed,
    looks: &mut Looker<'_>,
    words: &[&str],
    said: Result<CommandLine, LineFault>,
    streams: &mut Streams<'_, R, W, E>,
) -> u8
    requires named { seed ≡ N.table }
    requires read { IsRead (map (λ word. word.now) words.now) said }
    requires sound { IsSound streams.old }
    ensures { Acts (map (λ word. word.now) words.now) (run R.remaining W.contents E.contents streams.old streams.new) result }
{
    act::<N, Nobody, T, R, W, E>(rt, alloc, seed, Nobody, looks, words, said, streams)
}

/// Does what the words say with a pool of threads, which is closed then. Where the pool's own thread is
/// refused, so is each job's.
fn act_with_pool<
    N: RealmName + Send + Sync + 'static,
    T: PoolRuntime + SystemTime,
    R: Read + Drop,
    W: Write + Drop,
    E: Write + Drop,
>(
    rt: &T,
    alloc: Global,
    seed: Seed,
    looks: &mut Looker<'_>,
    words: &[&str],
    said: Result<CommandLine, LineFault>,
    streams: &mut Streams<'_, R, W, E>,
) -> u8
    requires named { seed ≡ N.table }
    requires read { IsRead (map (λ word. word.now) words.now) said }
    requires sound { IsSound streams.old }
    ensures { Acts (map (λ word. word.now) words.now) (run R.remaining W.contents E.contents streams.old streams.new) result }
{
    let Ok(pool) = ThreadPool::<N, JobWork<Due, N, LateJob<T>>>::open(rt, alloc, KEPT) else {
        return act_alone::<N, T, R, W, E>(rt, alloc, seed, looks, words, said, streams);
    };
    let status = act_over::<N, T, R, W, E>(rt, alloc, seed, &pool, looks, words, said, streams);
    pool.close(rt);
    status
}

/// Does what the words say over the pool's threads. Where there is no room for a spawner of them, each job's
/// thread is refused.
fn act_over<
    N: RealmName + Send + Sync + 'static,
    T: PoolRuntime + SystemTime,
    R: Read + Drop,
    W: Write + Drop,
    E: Write + Drop,
>(
    rt: &T,
    alloc: Global,
    seed: Seed,
    pool: &ThreadPool<N, JobWork<Due, N, LateJob<T>>>,
    looks: &mut Looker<'_>,
    words: &[&str],
    said: Result<CommandLine, LineFault>,
    streams: &mut Streams<'_, R, W, E>,
) -> u8
    requires named { seed ≡ N.table }
    requires read { IsRead (map (λ word. word.now) words.now) said }
    requires sound { IsSound streams.old }
    ensures { Acts (map (λ word. word.now) words.now) (run R.remaining W.contents E.contents streams.old streams.new) result }
{
    match pool.threads() {
        Ok(threads) => act::<N, OsThreads<N, JobWork<Due, N, LateJob<T>>>, T, R, W, E>(
            rt, alloc, seed, threads, looks, words, said, streams,
        ),
        Err(_) => act_alone::<N, T, R, W, E>(rt, alloc, seed, looks, words, said, streams),
    }
}
