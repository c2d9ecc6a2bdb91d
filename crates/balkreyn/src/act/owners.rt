//! The owner of one of the two realms. Of a whole turn no clause says what was done: the source lies under a lock
//! between turns, and what happened goes with the retirement.
ghost use Rattle.balkreyn.specs.{SeesMore, Tries};

use crate::act::asking::Asking;
use crate::act::baton::{Baton, Side};
use crate::act::blocks::entered;
use crate::act::contexts::{Acts, Cx};
use crate::act::frames::Frames;
use crate::act::hooks::{Hooks, Observes, Shares, share_of};
use crate::act::intake::{Asked, Intake};
use crate::act::limits::{Limiter, Permit};
use crate::act::rates::Rate;
use crate::act::requests::{Flow, Lost, Source};
use crate::act::rooms::Room;
use crate::act::stops::StopWatch;
use crate::act::tasks::{Part, Task, Timed};
use crate::act::told::Told;
use crate::aliases::{CanFork, Handle};
use crate::errors::ServiceError;
use crate::literals::named;
use crate::services::{Service, ServiceAnswer, realm_clock};
use job_runner::TaskCtx;
use join_rules::Joiner;
use realm_lock::RealmName;
use scope_rules::{AnyEnd, ForkReply, Options, Refusal, ScopeId};
use std::alloc::Global;
use std::sync::Wait;

/// An owner: the side of its realm, its rate by the realm's time, and what it shares with the other.
#[derive(Drop)]
pub(crate) struct Owner<'a, W: Drop, O, Q> {
    pub(crate) alloc: Global,
    pub(crate) side: Side,
    pub(crate) flow: Flow,
    pub(crate) baton: &'a Baton<W>,
    pub(crate) limiter: &'a Limiter,
    pub(crate) rate: Rate,
    pub(crate) hooks: &'a Hooks<O>,
    pub(crate) source: &'a Q,
}

/// The scopes of a turn: the requests run in one, and main waits for the next request in another inside it, which a stop
/// cancels at once. The watches run around both.
#[derive(Clone, Copy)]
struct TurnScopes {
    watches: ScopeId,
    requests: ScopeId,
    intake: ScopeId,
}

/// Why an owner begins no more requests in a turn.
#[derive(Clone, Copy)]
enum Ended {
    /// There is no room for more.
    HandsOn,
    /// The source has no more, or a stop was asked for.
    Over,
}

impl<W: Drop, O, Q> ServiceAnswer for Owner<'_, W, O, Q> {
    type Answer = ();

    type Error = ServiceError;

    ghost may_answer = { λ owner answer. Unit {0} };
}

impl<
    K: Handle,
    N: RealmName,
    W: Task,
    O: Observes,
    Q: Source<W>,
    S: CanFork<AnyEnd, N, Timed<K, W, O>>,
> Service<S, N, K> for Owner<'_, W, O, Q> {
    fn serve(self, rt: &K, ctx: &mut TaskCtx<AnyEnd, S, N>) -> Result<(), ServiceError> {
        let clock = realm_clock(rt)?;
        let (load, observer) = (share_of(&self.hooks.load)?, share_of(&self.hooks.observer)?);
        let shares = Shares::new(self.alloc, self.flow.limits, load, observer)?;
        let told = Told::nothing(self.alloc, shares.is_observed(), None);
        let frames = Frames::within(self.alloc, None);
        let mut cx = Cx::new(self.alloc, clock, &shares, told, frames, ctx);
        self.take_turns(rt, &mut cx)?;
        Ok(())
    }
}

impl<W: Task, O: Observes, Q: Source<W>> Owner<'_, W, O, Q> {
    /// Takes its turns, until all is over, and lets all that happened go between two. Where memory is refused for that, it
    /// goes on with the room that is left, and tries again after the next turn.
    fn take_turns<K: Handle, N: RealmName, S: CanFork<AnyEnd, N, Timed<K, W, O>>>(
        &self,
        rt: &K,
        cx: &mut Cx<'_, K, O, S, N>,
    ) -> Result<(), Refusal> {
        let mut room = Room::of(self.flow.limits);
        for _ in rt.forever() {
            room.open_turn();
            if !self.take_turn(rt, cx, &mut room)? {
                return Ok(());
            }
            room = room.after_retire(self.flow.limits, cx.retire())?;
        }
        unreachable!()
    }

    /// Opens the scopes of a turn ahead, waits for the baton, begins requests while it has it, and hands it on; then it
    /// waits until they have ended. Answers whether more may come.
    fn take_turn<K: Handle, N: RealmName, S: CanFork<AnyEnd, N, Timed<K, W, O>>>(
        &self,
        rt: &K,
        cx: &mut Cx<'_, K, O, S, N>,
        room: &mut Room,
    ) -> Result<bool, Refusal> {
        let scopes = TurnScopes {
            watches: entered(cx, Joiner::AwaitAll, Options::PLAIN)?,
            requests: entered(cx, Joiner::AwaitAll, Options::PLAIN)?,
            intake: entered(cx, Joiner::AwaitAll, Options::PLAIN)?,
        };
        let watched = self.fork_watches(cx, scopes);
        let more = watched.is_ok() && self.begin_in_turn(rt, cx, scopes, room);
        Acts::<W>::close(cx, scopes.intake)?;
        cx.await_all(scopes.requests)?;
        Acts::<W>::close(cx, scopes.watches)?;
        watched?;
        Ok(more)
    }

    /// Forks the watches of a turn: for the stop, and for the files.
    fn fork_watches<K: Handle, N: RealmName, S: CanFork<AnyEnd, N, Timed<K, W, O>>>(
        &self,
        cx: &mut Cx<'_, K, O, S, N>,
        scopes: TurnScopes,
    ) -> Result<(), Refusal> {
        if let Some(stop) = share_of(&self.hooks.stop)? {
            let watch = StopWatch::cancelling(stop, scopes.intake).with_grace(
                scopes.requests,
                self.flow.grace,
            );
            cx.fork_part(scopes.watches, named(b"stop"), Part::Stop(watch))?;
        }
        if let Some(watch) = &self.hooks.watch {
            let watch = watch.for_turn(self.alloc, self.side)?;
            cx.fork_part(scopes.watches, named(b"watch"), Part::Watch(watch))?;
        }
        Ok(())
    }

    /// Waits for the baton, begins requests, and hands it on.
    fn begin_in_turn<K: Handle, N: RealmName, S: CanFork<AnyEnd, N, Timed<K, W, O>>>(
        &self,
        rt: &K,
        cx: &mut Cx<'_, K, O, S, N>,
        scopes: TurnScopes,
        room: &mut Room,
    ) -> bool {
        if !self.baton.take(rt, self.side) {
            return false;
        }
        match self.begin_requests(rt, cx, scopes.requests, room) {
            Ended::HandsOn => {
                self.baton.pass(rt, self.side);
                true
            }
            Ended::Over => {
                self.baton.end(rt);
                false
            }
        }
    }

    /// Begins requests in the scope, one after the other, as long as it may.
    fn begin_requests<K: Handle, N: RealmName, S: CanFork<AnyEnd, N, Timed<K, W, O>>>(
        &self,
        rt: &K,
        cx: &mut Cx<'_, K, O, S, N>,
        scope: ScopeId,
        room: &mut Room,
    ) -> Ended {
        let mut intake = self.baton.intake(rt);
        self.rate.begin_behind(Acts::<W>::now(cx));
        for _ in rt.forever() {
            let is_empty = room.is_empty();
            if self.baton.is_over(rt) || !room.admit(self.flow.request) {
                return Ended::HandsOn;
            }
            let permit = match self.permitted(cx) {
                Ok(Some(permit)) => permit,
                Ok(None) => return Ended::Over,
                Err(_refusal) => return Ended::HandsOn,
            };
            let Some((asked, job)) = self.next(cx, &mut intake) else {
                return Ended::Over;
            };
            let deadline = self.flow.deadline;
            let asking = Asking {
                job,
                deadline,
                permit,
            };
            let ended = self.begin(cx, scope, &mut intake, (asked, asking), is_empty);
            if let Some(ended) = ended {
                return ended;
            }
        }
        unreachable!()
    }

    /// Waits until one more request may begin. None if a stop comes first.
    fn permitted<K: Handle, N: RealmName, S: CanFork<AnyEnd, N, Timed<K, W, O>>>(
        &self,
        cx: &mut Cx<'_, K, O, S, N>,
    ) -> Result<Option<Permit>, Refusal> {
        let Some(permit) = self.limiter.permit(cx)? else {
            return Ok(None);
        };
        if !self.rate.pass(cx)? || Acts::<W>::checkpoint(cx).is_some() {
            return Ok(None);
        }
        Ok(Some(permit))
    }

    /// The next request: the one that was put back, or else what the source gives.
    fn next<K: Handle, N: RealmName, S: CanFork<AnyEnd, N, Timed<K, W, O>>>(
        &self,
        cx: &mut Cx<'_, K, O, S, N>,
        intake: &mut Intake<W>,
    ) -> Option<(Asked, W)> {
        match intake.take() {
            Some(back) => Some(back),
            None => {
                let (name, job) = self.source.next(cx)?;
                Some((Asked { name }, job))
            }
        }
    }

    /// Begins the request in the scope. One for which there is no room is put back, for the other realm; but for
    /// one that is too big for an empty realm. The source is told of one that can't be begun. Answers why the turn
    /// ends with that, if it does.
    fn begin<K: Handle, N: RealmName, S: CanFork<AnyEnd, N, Timed<K, W, O>>>(
        &self,
        cx: &mut Cx<'_, K, O, S, N>,
        scope: ScopeId,
        intake: &mut Intake<W>,
        request: (Asked, Asking<W>),
        is_empty: bool,
    ) -> Option<Ended>
        ensures sees { SeesMore cx.old.ctx.now.token cx.new.ctx.now.token }
        ensures tried { Tries cx.old.ctx.now.token cx.new.ctx.now.token scope request.0.name }
    {
        let (asked, asking) = request;
        match cx.begin(scope, asked.name, asking) {
            Ok(reply @ ForkReply::Thread(_)) => {
                asked.begun(reply);
                None
            }
            Ok(ForkReply::Never(_)) => {
                cx.lose(asked.lost(), Lost::Stopped);
                Some(Ended::Over)
            }
            Err((_refusal, Some(job))) if !is_empty => {
                if let Some(before) = intake.put_back(asked, job) {
                    cx.lose(before.lost(), Lost::Refused(Refusal::TooMany));
                }
                Some(Ended::HandsOn)
            }
            Err((refusal, _job)) => {
                cx.lose(asked.lost(), Lost::Refused(refusal));
                None
            }
        }
    }
}
