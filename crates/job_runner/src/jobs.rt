use crate::contexts::TaskCtx;
use realm_lock::RealmName;
use scope_rules::{Catalog, End};
use share_ledger::Answers;
use std::sync::Wait;
use thread_pool::Spawner;

/// What a thread runs (JEP 505 has callables in its place). It acts by its context: it may open scopes,
/// fork jobs, wait, and look whether it was cancelled. A scope that it leaves open is closed after it, and
/// the task then ends with the fault `left-open`.
pub trait Job<C: Catalog, S: Spawner<N>, N: RealmName>: Answers {
    /// Does the job, and answers how it ends.
    fn run<R: Wait>(self, rt: &R, ctx: &mut TaskCtx<C, S, N>) -> End
        ensures { Self.may_end self result };
}
