ghost use Rattle.std.specs.Prelude.{◌≡◌, None, Some, codes};
ghost use Rattle.job_runner.specs.{Ended, LeavesNothing, MayFinish, NothingOpen, Returns, SeesMore, end_in, has_open, text_of};

use crate::contexts::TaskCtx;
use realm_lock::{ActorToken, Realm, RealmName, Ticket};
use scope_rules::{Actor, Catalog, End, Fault, Name, ScopeId, TaskId};
use share_ledger::OfRealm;
use std::sync::Wait;
use thread_pool::Spawner;

/// What happens at the end of a context. What is open then is asked of the realm itself, whose answer nobody
/// else can change. Nothing here takes memory.
impl<C: Catalog, S: Spawner<N>, N: RealmName> TaskCtx<C, S, N> {
    /// Leaves main's context: closes what is open, the latest first, and gives token and spawner. After it
    /// every scope of the realm is closed, and no task waits or runs.
    pub fn leave<R: Wait>(self, rt: &R) -> (ActorToken, S)
        ensures token { SeesMore self.token result.0 }
        ensures over { LeavesNothing result.0 }
    {
        let mut left = self;
        left.close_what_is_open(rt);
        let TaskCtx {
            alloc: _,
            realm: _,
            token,
            spawner,
            around: _,
            opened: _,
            team: _,
        } = left;
        (token.into_held(), spawner)
    }

    /// Ends the context's task, whose job has come to this end, and gives the ticket and the spawner. If the
    /// job left a scope open, the end is refused: then it closes what is open, the latest first, and records the
    /// fault `left-open`.
    pub(crate) fn end_task<R: Wait>(self, rt: &R, ticket: Ticket, end: End) -> (Ticket, S)
        requires { self.token.actor ≡ ticket.task → MayFinish N.table C.fitting ticket self.token end }
        ensures returns { Returns N.table ticket result.0 }
        ensures ended { Ended (has_open self.token) end result.0 }
    {
        let TaskCtx {
            alloc,
            realm,
            token,
            spawner,
            around,
            opened,
            team,
        } = self;
        let held = token.into_held();
        is_of_task(rt, held.actor(), ticket.task());
        match realm.lent().finish(rt, ticket, held, end) {
            Ok(ended) => (ended, spawner),
            Err((_, ticket, held)) => {
                let mut ctx = TaskCtx {
                    alloc,
                    realm,
                    token: OfRealm::new(held),
                    spawner,
                    around,
                    opened,
                    team,
                };
                ctx.close_what_is_open(rt);
                ctx.finish(rt, ticket, Err(left_open()))
            }
        }
    }

    /// Closes the scopes of the context's actor that are not closed, the latest first: each close begins,
    /// joins the scope's threads, and ends.
    fn close_what_is_open<R: Wait>(&mut self, rt: &R)
        ensures token { SeesMore self.old.token self.new.token }
        ensures closed { NothingOpen self.new.token }
    {
        for _ in rt.forever() {
            match self.innermost(rt) {
                Some(scope) => {
                    let _how = self.close_scope_bare(rt, scope);
                }
                None => return,
            }
        }
        unreachable!()
    }

    /// The scope that the context's actor opened last of those that it has not closed.
    fn innermost<R: Wait>(&mut self, rt: &R) -> Option<ScopeId>
        ensures token { SeesMore self.old.token self.new.token }
        ensures legal { result ≡ None → NothingOpen self.new.token }
    {
        let token = &mut self.token;
        self.realm.lent().innermost(rt, &mut token.held)
    }

    /// Records the end of the context's task, all scopes of which are closed.
    fn finish<R: Wait>(self, rt: &R, ticket: Ticket, end: End) -> (Ticket, S)
        requires closed { NothingOpen self.token }
        requires task { MayFinish N.table C.fitting ticket self.token end }
        ensures returns { Returns N.table ticket result.0 }
        ensures ended { end_in result.0.task result.0.seen ≡ Some end }
    {
        let TaskCtx {
            alloc: _,
            realm,
            token,
            spawner,
            around: _,
            opened: _,
            team: _,
        } = self;
        (record_end(rt, realm.lent(), ticket, token, end), spawner)
    }
}

/// Records the end of the ticket's task, whose actor has no scope that is not closed: so it is not refused.
fn record_end<C: Catalog, N: RealmName, R: Wait>(
    rt: &R,
    realm: &Realm<C, N>,
    ticket: Ticket,
    token: OfRealm<N, ActorToken>,
    end: End,
) -> Ticket
    requires closed { NothingOpen token }
    requires task { MayFinish N.table C.fitting ticket token end }
    ensures returns { Returns N.table ticket result }
    ensures ended { end_in result.task result.seen ≡ Some end }
{
    match realm.finish(rt, ticket, token.into_held(), end) {
        Ok(ended) => ended,
        Err(_) => unreachable!(),
    }
}

/// Returns if the actor is the task. A job that put another context in the place of its own would wait here
/// for ever: no function gives it one, so no run comes to that, and no job has to say so in a clause.
fn is_of_task<R: Wait>(rt: &R, actor: Actor, task: TaskId)
    ensures { actor ≡ task }
{
    for _ in rt.forever() {
        if actor == task {
            return;
        }
    }
    unreachable!()
}

/// The fault of a task whose job left a scope open.
fn left_open() -> Fault
    ensures { text_of result.0 ≡ codes "left-open" }
{
    match Name::new(b"left-open") {
        Some(name) => Fault(name),
        None => unreachable!(),
    }
}
