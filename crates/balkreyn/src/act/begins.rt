//! What the owner of a realm that serves requests does by its context, beside what all do by theirs.
ghost use Rattle.std.specs.Prelude.{◌≡◌};
ghost use Rattle.balkreyn.specs.{ForksUnder, SeesMore, Tries};

use crate::act::asking::Asking;
use crate::act::contexts::Cx;
use crate::act::hooks::{Happening, Observes};
use crate::act::requests::Lost;
use crate::act::tasks::{Part, Task, Timed};
use crate::aliases::{CanFork, Handle};
use crate::forks::fork;
use job_runner::{ForkRefusal, NamedJob};
use realm_lock::{BareOutcome, Never, RealmName};
use scope_rules::{AnyEnd, ForkReply, Label, Name, Refusal, ScopeId};
use thread_pool::Spawner;
use tree_dump::WaitCall;

/// The context of an owner, whose jobs are requests. These calls are of no trait, as `Acts` is: the check of a call that is
/// generic in such a trait meets its step limit.
impl<K: Handle, O: Observes, S: Spawner<N>, N: RealmName> Cx<'_, K, O, S, N> {
    /// Forks the request in the scope under the name. If the realm has no room for it, its job comes back, uncounted.
    pub(crate) fn begin<W: Task>(
        &mut self,
        scope: ScopeId,
        name: Name,
        asking: Asking<W>,
    ) -> Result<ForkReply, (Refusal, Option<W>)>
    where
        S: CanFork<AnyEnd, N, Timed<K, W, O>>,
        ensures sees { SeesMore self.old.ctx.now.token self.new.ctx.now.token }
        ensures tried { Tries self.old.ctx.now.token self.new.ctx.now.token scope name }
    {
        let (alloc, clock) = (self.alloc, self.clock);
        let (one, hooks) = match self.hooks.begin() {
            Ok(begun) => begun,
            Err(refusal) => return Err((self.not_begun(scope, name, refusal), None)),
        };
        let timed = Timed {
            alloc,
            clock,
            hooks,
            one,
            scope,
            deadline: None,
            name,
            job: Part::Request(asking),
        };
        let label = Label { name, due: None };
        match self
            .ctx
            .fork_job(&clock.runtime(), scope, NamedJob::new(label, timed))
        {
            Ok(reply) => {
                self.hooks.count(true);
                self.report(Happening::Forked { name, scope });
                Ok(reply)
            }
            Err(ForkRefusal::Before(Refusal::TooMany, back)) => {
                Err((Refusal::TooMany, job_of(back.into_job())))
            }
            Err(refused) => Err((self.not_begun(scope, name, refused.refusal()), None)),
        }
    }

    /// Forks a part that is none of the service's jobs at hand, such as a watch.
    pub(crate) fn fork_part<W: Task>(
        &mut self,
        scope: ScopeId,
        name: Name,
        part: Part<W>,
    ) -> Result<ForkReply, Refusal>
    where
        S: CanFork<AnyEnd, N, Timed<K, W, O>>,
        ensures sees { SeesMore self.old.ctx.now.token self.new.ctx.now.token }
        ensures answer { ForksUnder self.old.ctx.now.token self.new.ctx.now.token scope name result }
    {
        let (alloc, clock) = (self.alloc, self.clock);
        let hooks = match self.hooks.share() {
            Ok(hooks) => hooks,
            Err(_) => return Err(Refusal::Memory),
        };
        let timed = Timed {
            alloc,
            clock,
            hooks,
            one: None,
            scope,
            deadline: None,
            name,
            job: part,
        };
        fork(&clock.runtime(), self.ctx, scope, name, timed)
    }

    /// Joins the scope by the realm's clock, or without one if a tick is refused.
    pub(crate) fn await_all(&mut self, scope: ScopeId) -> Result<(), Refusal>
        ensures { SeesMore self.old.ctx.now.token self.new.ctx.now.token }
    {
        let mut clock = self.clock;
        let rt = clock.runtime();
        self.waits_in(WaitCall::Join);
        let found = match self
            .ctx
            .join_by::<BareOutcome, _, _>(&rt, scope, &mut clock)
        {
            Ok(_joined) => Ok(()),
            Err(_refusal) => self
                .ctx
                .join_by::<BareOutcome, _, _>(&rt, scope, &mut Never)
                .map(|_joined| ()),
        };
        self.goes_on();
        found
    }

    /// Tells the observer, and by it the source, of a request that wasn't answered.
    pub(crate) fn lose(&self, name: Name, why: Lost) {
        self.report(Happening::Lost { name, why });
    }

    /// Counts and reports a request whose fork was refused.
    fn not_begun(&self, scope: ScopeId, name: Name, refusal: Refusal) -> Refusal
        ensures { result ≡ refusal }
    {
        self.hooks.count(false);
        self.report(Happening::Refused {
            name,
            scope,
            refusal,
        });
        refusal
    }
}

/// The job of a request that came back.
fn job_of<K: Handle, W: Drop, O: Drop>(timed: Timed<K, W, O>) -> Option<W> {
    let Timed { job, .. } = timed;
    match job {
        Part::Request(asking) => Some(asking.into_job()),
        _ => None,
    }
}
