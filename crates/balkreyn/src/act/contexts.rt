//! One value to act by: a task's context with the realm's time.
ghost use Rattle.std.specs.Prelude.{◌≡◌};
ghost use Rattle.balkreyn.specs.{ForksUnder, SeesMore, Shows, left_in, seat_here};

use crate::act::frames::Frames;
use crate::act::hooks::{Happening, Observes, Shares};
use crate::act::tasks::{Part, Task, Timed};
use crate::act::told::Told;
use crate::aliases::{CanFork, Handle};
use crate::by_token::InspectByToken;
use crate::copies::{CopyOut, waiting_tree_at, waiting_tree_in};
use crate::forks::fork;
use crate::scoped::Scopes;
use crate::times::Times;
use cancel_marks::Bell;
use job_runner::{Clock, SystemClock, TaskCtx};
use join_rules::Joiner;
use realm_lock::{BellWait, Joined, Mark, RealmName};
use scope_rules::{
    Actor, AnyEnd, Base, Cancelling, CauseKind, Effective, ForkReply, Name, Options, Refusal,
    ScopeId, State, TaskId, Value, Verdict,
};
use std::alloc::Global;
use std::rt::Clock as SystemTime;
use std::sync::Wait;
use thread_pool::Spawner;
use tree_dump::WaitCall;

/// What a service and its jobs act by: the context of a task, which knows the realm's time. A helper has one bound,
/// `X: Acts<W>`, where `W` is the type of its jobs. Each wait is by the realm's clock, so it ends at a deadline.
///
/// It is a handle to wait by (`Wait`), and has no associated type: the check passes no closure over a context whose trait
/// has one.
///
/// Three shops are asked, and the first answer is taken:
///
/// ```rust
/// fn first_of<X: Acts<Shop>>(cx: &mut X) -> Result<Option<i64>, Refusal> {
///     let options = cx.fail_after(60_000);
///     scope(cx, Joiner::Any, options, |cx, scope| {
///         for (price, after) in [(1, 60_000), (2, 10), (3, 60_000)] {
///             cx.fork(scope, named(b"shop"), Shop::Answers { price, after })?;
///         }
///         price_at(cx, scope)
///     })
/// }
/// ```
pub trait Acts<W>: Scopes + Wait {
    ghost use Rattle.std.specs.Prelude.{◌≡◌, ℕ, Err, Option};
    ghost use Rattle.join_rules.specs.Joiners.{policy_of};
    ghost use Rattle.scope_rules.specs.declared.types.events.Event.TheVariants as event;
    ghost use Rattle.scope_rules.specs.declared.types.events.Expiry.TheVariants.{Fail, MoveOn};
    ghost use Rattle.scope_rules.specs.declared.types.refusals.Refusal.TheVariants.{NotReady};
    ghost use Rattle.scope_rules.specs.Checks.{task_check};
    ghost use Rattle.scope_rules.specs.Replies.{base_of, binding_reply, result_reply};
    ghost use Rattle.scope_rules.specs.Table.{answering};
    ghost use Rattle.scope_rules.specs.Tasks.{state};
    ghost use Rattle.share_ledger.specs.declared.steps.Ask.TheVariants.{Move};
    ghost use Rattle.share_ledger.specs.declared.steps.RealmStep.TheVariants.{Asked, Happened, Retirement};
    ghost use Rattle.cancel_marks.specs.Seats.{Seen};
    ghost use Rattle.realm_core.specs.Calls.{DoesOrMemory, Reads, RecordsOrMemory, SeesMore};
    ghost use Rattle.job_runner.specs.Marks.{Shows};
    ghost use Rattle.balkreyn.specs.Acting.{ClosesNow, IsNow, IsSoAfter, JoinsFrom, RemainsNow, SleepsFor, WaitsRung};
    ghost use Rattle.balkreyn.specs.Bodies.{Opens};
    ghost use Rattle.balkreyn.specs.Slots.{ForksUnder};
    ghost use Rattle.balkreyn.specs.Looks.{SaysWaits};
    ghost use Rattle.balkreyn.specs.Times.{NotesNow, SaysAgesNow, SaysWhenNow};
    ghost use Rattle.tree_dump.specs.Ages.{no_clock};

    /// The clock of the realm's time, as the prover sees it.
    ghost Time: { Type 0 };

    /// A reading of the first clock gives this, and leaves the second.
    ghost reads: { Time → Time → ℕ → Type 0 };

    /// What the clock's last reading was, if there was one.
    ghost reading: { Time → Option ℕ };

    /// The clock from which each wait begins to read.
    ghost time: { Self → Time };

    /// The seat from which a checkpoint looks.
    ghost seat: { Self → Option Seen };

    /// Where its memory comes from.
    fn alloc(&self) -> Global;

    /// The number of its task, or 0 for main (Trio, `current_task`).
    fn actor(&self) -> Actor
        ensures { result ≡ (Self.token self.now).actor };

    /// The realm's time, in milliseconds since the realm began (Trio, `current_time`).
    fn now(&self) -> u64
        ensures { IsNow Self.reads (Self.time self.now) result };

    /// Options with a deadline so many milliseconds from now; if it passes, the scope's outcome is a timeout
    /// (Trio, `fail_after`).
    fn fail_after(&self, millis: u64) -> Options
        ensures { IsSoAfter Self.reads (Self.time self.now) millis Fail result };

    /// The same, but the scope's outcome is what there is by then (Trio, `move_on_after`).
    fn move_on_after(&self, millis: u64) -> Options
        ensures { IsSoAfter Self.reads (Self.time self.now) millis MoveOn result };

    /// Opens a scope, as `TaskCtx::open` does; if it is refused, the joiner is dropped (JEP 505, `open`). `scope` opens and
    /// closes in one call.
    fn open(&mut self, joiner: Joiner, options: Options) -> Result<ScopeId, Refusal>
        ensures { Opens Self.token Self.left_by_open (policy_of joiner) options self.old self.new result };

    /// Cancels what still runs in the scope, waits for it by the realm's clock, and closes the scope (JEP 505, `close`).
    fn close(&mut self, scope: ScopeId) -> Result<Verdict, Refusal>
        ensures { ClosesNow Self.token Self.left_by_close Self.reads Self.time self.old self.new scope result };

    /// Forks the job under the name in the actor's scope, as `fork` does (JEP 505, `fork`).
    fn fork(&mut self, scope: ScopeId, name: Name, job: W) -> Result<ForkReply, Refusal>
        ensures sees { SeesMore (Self.token self.old) (Self.token self.new) }
        ensures answer { ForksUnder (Self.token self.old) (Self.token self.new) scope name result };

    /// Joins the actor's scope by the realm's clock, as `TaskCtx::join_by` does (JEP 505, `join`): a deadline of the
    /// scope, or of one around it, ends the wait.
    fn join(&mut self, scope: ScopeId) -> Result<Joined, Refusal>
        ensures sees { SeesMore (Self.token self.old) (Self.token self.new) }
        ensures answer { JoinsFrom Self.reads (Self.time self.old) (Self.token self.old) (Self.token self.new) scope result }
        ensures waited { result ≡ Err NotReady → ⊥ };

    /// The value of the task, which the owner of its scope has after the join (JEP 505, `Subtask.get`).
    fn result(&mut self, task: TaskId) -> Result<Value, Refusal>
        ensures { Reads (Self.token self.old) (Self.token self.new) (λ h. result ≡ result_reply h (Self.token self.new).actor task) };

    /// What can be read of the task, at any time (JEP 505, `Subtask.state`).
    fn state(&mut self, task: TaskId) -> Result<State, Refusal>
        ensures { Reads (Self.token self.old) (Self.token self.new) (λ h. result ≡ answering (task_check h task) (state h task)) };

    /// Sleeps so many milliseconds, or until a checkpoint would show a mark, which it then returns (Trio, `sleep`).
    fn sleep(&mut self, millis: u64) -> Result<Option<Mark>, Refusal>
        ensures sees { SeesMore (Self.token self.old) (Self.token self.new) }
        ensures answer { SleepsFor Self.reads Self.reading (Self.time self.old) (Self.token self.old) (Self.token self.new) (Self.seat self.old) (Self.seat self.new) millis result };

    /// Waits until the bell has rung more often than that, or until a checkpoint would show a mark, which it then returns
    /// (Trio, `ParkingLot.park`). Who reads how often it has rung, and then looks for what it waits for, misses no ring.
    /// A tree says that it waits in this call.
    fn wait_rung(
        &mut self,
        call: WaitCall,
        bell: &Bell,
        heard: u64,
    ) -> Result<Option<Mark>, Refusal>
        ensures sees { SeesMore (Self.token self.old) (Self.token self.new) }
        ensures answer { WaitsRung Self.reads Self.reading (Self.time self.old) (Self.token self.old) (Self.token self.new) (Self.seat self.old) (Self.seat self.new) result };

    /// The mark of the scope that this task is in, once that is seen to be cancelled (Trio, a checkpoint). Once the clock is
    /// past the earliest deadline that the task knows, it passes the time, so it shows that deadline's mark; without a
    /// deadline it reads no clock. Where a tick is refused, it looks without.
    fn checkpoint(&mut self) -> Option<Mark>
        ensures sees { SeesMore (Self.token self.old) (Self.token self.new) }
        ensures shows { Shows (Self.seat self.old) (Self.seat self.new) result };

    /// Whether tasks that it forked in the scope were neither joined nor taken by `next_done`.
    fn owes(&self, scope: ScopeId) -> bool;

    /// Counts one of the scope's tasks as taken, so that no join is owed for it.
    fn take_owed(&mut self, scope: ScopeId)
        ensures token { Self.token self.new ≡ Self.token self.old };

    /// How many milliseconds are left until the earliest deadline in effect for the scope: 0 once that is cancelled, and none
    /// without a deadline (Trio, `current_effective_deadline`). It is the timeout for a call that blocks.
    fn remaining(&mut self, scope: ScopeId) -> Result<Option<u64>, Refusal>
        ensures { Reads (Self.token self.old) (Self.token self.new) (RemainsNow Self.reads (Self.time self.old) scope result) };

    /// Sets the deadline of the scope anew, to this time of the realm in milliseconds, or takes it away (Trio: a cancel
    /// scope's `deadline` may be set).
    fn move_deadline(&mut self, scope: ScopeId, until: Option<u64>) -> Result<(), Refusal>
        ensures { DoesOrMemory (Self.token self.old) (Self.token self.new) (Asked (Self.token self.old).actor (Move scope until)) (λ _. tt) result };

    /// Cancels the scope and all that it reaches (Trio, `cancel`).
    fn cancel(&mut self, scope: ScopeId) -> Result<Cancelling, Refusal>
        ensures { RecordsOrMemory (Self.token self.old) (Self.token self.new) (event.Cancel scope) result };

    /// Binds the key above the actor's other bindings (JEP 506, `where`).
    fn bind(&mut self, key: Name, value: Value) -> Result<(), Refusal>
        ensures { DoesOrMemory (Self.token self.old) (Self.token self.new) (Happened (event.Bind (Self.token self.old).actor (record { key = key; value = value }))) (λ _. tt) result };

    /// Takes away the actor's last own binding.
    fn unbind(&mut self) -> Result<(), Refusal>
        ensures { DoesOrMemory (Self.token self.old) (Self.token self.new) (Happened (event.Unbind (Self.token self.old).actor)) (λ _. tt) result };

    /// What the actor sees the key bound to (JEP 506, `ScopedValue.get`).
    fn get(&mut self, key: &Name) -> Result<Value, Refusal>
        ensures { Reads (Self.token self.old) (Self.token self.new) (λ h. result ≡ binding_reply h (Self.token self.new).actor key.now) };

    /// Discards the history and frees its capacity, once main has no open scope; refused as `TaskCtx::retire` is.
    fn retire(&mut self) -> Result<Base, Refusal>
        ensures { DoesOrMemory (Self.token self.old) (Self.token self.new) Retirement base_of result };

    /// The tree of the realm's open scopes, as text for a terminal, with the calls in which its actors wait; `Memory` if there
    /// is none for it.
    fn tree(&mut self) -> Result<String, Refusal>
        ensures { Reads (Self.token self.old) (Self.token self.new) (λ h. SaysWaits no_clock h result) };

    /// Notes how far the realm's history has come by now; `Memory` if there is none for that.
    fn note(&mut self, times: &mut Times) -> Result<(), Refusal>
        ensures { Reads (Self.token self.old) (Self.token self.new) (NotesNow Self.reads (Self.time self.old) times.old times.new result) };

    /// The tree with ages by these times, as `InspectByToken::timed_tree`, and with the calls in which its actors wait;
    /// `Memory` if there is none for it.
    fn timed_tree(&mut self, times: &Times) -> Result<String, Refusal>
        ensures { Reads (Self.token self.old) (Self.token self.new) (SaysAgesNow Self.reads (Self.time self.old) times.now.found.items result) };

    /// The journal with these times, as `Inspect::timed_journal`; `Memory` if there is none for it.
    fn timed_journal(&mut self, times: &Times) -> Result<String, Refusal>
        ensures { Reads (Self.token self.old) (Self.token self.new) (SaysWhenNow Self.reads (Self.time self.old) times.now.found.items result) };
}

/// The context of a task, with the clock of its realm, the hooks of its service, and what it told the observer.
///
/// A helper that needs no clock and no runtime, since the context has both:
///
/// ```rust
/// fn hung<X: Acts<Shop>>(cx: &mut X) -> Result<bool, Refusal> {
///     let options = cx.fail_after(200);
///     scope(cx, Joiner::All, options, |cx, scope| {
///         cx.fork(scope, named(b"shop"), Shop::Hangs)?;
///         match &cx.join(scope)?.outcome {
///             Outcome::Timeout => Ok(true),
///             _ => Ok(false),
///         }
///     })
/// }
/// ```
#[derive(Drop)]
pub struct Cx<'a, K, O, S: Spawner<N>, N: RealmName> {
    pub(crate) alloc: Global,
    pub(crate) clock: SystemClock<K>,
    pub(crate) hooks: &'a Shares<O>,
    pub(crate) told: Told,
    pub(crate) frames: Frames,
    pub(crate) ctx: &'a mut TaskCtx<AnyEnd, S, N>,
}

impl<'a, K, O, S: Spawner<N>, N: RealmName> Cx<'a, K, O, S, N> {
    /// This context, with its realm's clock, its service's hooks, what its task told, and the scopes around it.
    pub(crate) fn new(
        alloc: Global,
        clock: SystemClock<K>,
        hooks: &'a Shares<O>,
        told: Told,
        frames: Frames,
        ctx: &'a mut TaskCtx<AnyEnd, S, N>,
    ) -> Cx<'a, K, O, S, N> {
        Cx {
            alloc,
            clock,
            hooks,
            told,
            frames,
            ctx,
        }
    }
}

impl<K: Handle, O: Observes, S: Spawner<N>, N: RealmName> Cx<'_, K, O, S, N> {
    /// Calls the observer about it.
    pub(crate) fn report(&self, what: Happening) {
        let mut clock = self.clock;
        self.hooks.saw(&clock.runtime(), clock.now(), what);
    }

    /// Notes for trees that it waits in this call from now on.
    pub(crate) fn waits_in(&self, call: WaitCall) {
        let mut clock = self.clock;
        let since = clock.now();
        self.hooks.waits.begin(self.ctx.actor(), call, since);
    }

    /// Notes that it waits no more.
    pub(crate) fn goes_on(&self) {
        self.hooks.waits.end(self.ctx.actor());
    }

    /// Calls the observer about the news, if there are any.
    fn report_news(&self, news: Option<Happening>) {
        if let Some(what) = news {
            self.report(what);
        }
    }

    /// The mark that is shown, if there is one; each deadline that has come is passed first, if one has that is known.
    fn looked(&mut self) -> Option<Mark>
        ensures sees { SeesMore self.old.ctx.now.token self.new.ctx.now.token }
        ensures shows { Shows (seat_here self.old.ctx.now.around self.old.ctx.now.opened.items) (seat_here self.new.ctx.now.around self.new.ctx.now.opened.items) result }
    {
        let mut clock = self.clock;
        let Some(now) = self.frames.come(&mut clock) else {
            return self.ctx.checkpoint();
        };
        match self
            .ctx
            .wait_by(&clock.runtime(), &mut clock, Some(now), None)
        {
            Ok(found) => {
                self.frames.passed(now);
                found
            }
            Err(_refusal) => self.ctx.checkpoint(),
        }
    }

    /// Forks the job, if there may be one more.
    fn fork_counted<W: Task>(
        &mut self,
        scope: ScopeId,
        name: Name,
        job: W,
    ) -> Result<ForkReply, Refusal>
    where
        S: CanFork<AnyEnd, N, Timed<K, W, O>>,
        ensures sees { SeesMore self.old.ctx.now.token self.new.ctx.now.token }
        ensures answer { ForksUnder self.old.ctx.now.token self.new.ctx.now.token scope name result }
    {
        let (alloc, clock) = (self.alloc, self.clock);
        match self.hooks.begin() {
            Ok((one, hooks)) => {
                let job = Part::Own(job);
                let timed = Timed {
                    alloc,
                    clock,
                    hooks,
                    one,
                    scope,
                    deadline: self.frames.next(),
                    name,
                    job,
                };
                fork(&clock.runtime(), self.ctx, scope, name, timed)
            }
            Err(refusal) => Err(refusal),
        }
    }
}

impl<K: Wait, O, S: Spawner<N>, N: RealmName> Wait for Cx<'_, K, O, S, N> {}

impl<K, O, S: Spawner<N>, N: RealmName> Scopes for Cx<'_, K, O, S, N> {
    ghost use Rattle.std.specs.Prelude.{◌≡◌, MatchResult};
    ghost use Rattle.thread_pool.specs.Teams.{AreGone};
    ghost use Rattle.job_runner.specs.Lists.{ListsBelow, ListsOne};

    ghost token = { λ cx. cx.ctx.now.token };

    ghost left_by_open = { λ old new result. MatchResult result (λ scope. ListsOne scope old.ctx.now.opened.items new.ctx.now.opened.items) (λ _. new.ctx.now.opened.items ≡ old.ctx.now.opened.items) };

    ghost left_by_close = { λ old new scope result. MatchResult result (λ _. AreGone scope new.ctx.now.team × ListsBelow scope old.ctx.now.opened.items new.ctx.now.opened.items) (λ _. (new.ctx.now.team ≡ old.ctx.now.team) × (new.ctx.now.opened ≡ old.ctx.now.opened)) };

    fn open_scope<R: Wait>(
        &mut self,
        rt: &R,
        joiner: Joiner,
        options: Options,
    ) -> Result<ScopeId, Refusal> {
        self.ctx.open_scope(rt, joiner, options)
    }

    fn close_opened<R: Wait>(&mut self, rt: &R, scope: ScopeId) -> Result<Verdict, Refusal> {
        self.ctx.close_opened(rt, scope)
    }

    fn close_opened_by<R: Wait + SystemTime, C: Clock>(
        &mut self,
        rt: &R,
        scope: ScopeId,
        clock: &mut C,
    ) -> Result<Verdict, Refusal> {
        self.ctx.close_opened_by(rt, scope, clock)
    }
}

impl<K: Handle, O: Observes, N: RealmName, W: Task, S: CanFork<AnyEnd, N, Timed<K, W, O>>> Acts<W>
    for Cx<'_, K, O, S, N> {
    ghost use Rattle.share_ledger.specs.declared.clocks.SystemClock.{SystemClock};
    ghost use Rattle.job_runner.specs.Marks.{seat_here};

    ghost Time = { SystemClock K };

    ghost reads = { λ old new now. ⟦<SystemClock<K> as Clock>⟧.reads old new now };

    ghost reading = { λ clock. ⟦<SystemClock<K> as Clock>⟧.reading clock };

    ghost seat = { λ cx. seat_here cx.ctx.now.around cx.ctx.now.opened.items };

    ghost time = { λ cx. cx.clock };

    fn alloc(&self) -> Global {
        self.alloc
    }

    fn actor(&self) -> Actor {
        self.ctx.actor()
    }

    fn now(&self) -> u64 {
        let mut clock = self.clock;
        clock.now()
    }

    fn fail_after(&self, millis: u64) -> Options {
        let mut clock = self.clock;
        Options::by(clock.now().saturating_add(millis))
    }

    fn move_on_after(&self, millis: u64) -> Options {
        let mut clock = self.clock;
        Options::by(clock.now().saturating_add(millis)).moving_on()
    }

    fn open(&mut self, joiner: Joiner, options: Options) -> Result<ScopeId, Refusal> {
        let (rt, deadline) = (self.clock.runtime(), options.deadline);
        let found = self.open_scope(&rt, joiner, options);
        self.frames.opened(&found, deadline);
        found
    }

    fn close(&mut self, scope: ScopeId) -> Result<Verdict, Refusal> {
        let mut clock = self.clock;
        self.waits_in(WaitCall::Close);
        let found = self.close_opened_by(&clock.runtime(), scope, &mut clock);
        self.goes_on();
        self.told.closed(scope, &found);
        self.frames.closed(scope, &found);
        found
    }

    fn fork(&mut self, scope: ScopeId, name: Name, job: W) -> Result<ForkReply, Refusal> {
        let found = self.fork_counted(scope, name, job);
        self.hooks.count(found.is_ok());
        self.frames.forked(scope, &found);
        match found {
            Ok(_reply) => self.report(Happening::Forked { name, scope }),
            Err(refusal) => self.report(Happening::Refused {
                name,
                scope,
                refusal,
            }),
        }
        found
    }

    fn join(&mut self, scope: ScopeId) -> Result<Joined, Refusal> {
        let mut clock = self.clock;
        self.waits_in(WaitCall::Join);
        let found = self.ctx.join_by(&clock.runtime(), scope, &mut clock);
        self.goes_on();
        self.frames.joined(scope, &found);
        let news = self.told.by_join(&found);
        self.report_news(news);
        found
    }

    fn result(&mut self, task: TaskId) -> Result<Value, Refusal> {
        self.ctx.result(&self.clock.runtime(), task)
    }

    fn state(&mut self, task: TaskId) -> Result<State, Refusal> {
        self.ctx.state(&self.clock.runtime(), task)
    }

    fn sleep(&mut self, millis: u64) -> Result<Option<Mark>, Refusal> {
        let mut clock = self.clock;
        let until = clock.now().saturating_add(millis);
        self.waits_in(WaitCall::Sleep);
        let found = self
            .ctx
            .wait_by(&clock.runtime(), &mut clock, Some(until), None);
        self.goes_on();
        let news = self.told.by_sleep(&found);
        self.report_news(news);
        found
    }

    fn wait_rung(
        &mut self,
        call: WaitCall,
        bell: &Bell,
        heard: u64,
    ) -> Result<Option<Mark>, Refusal> {
        let mut clock = self.clock;
        let bell = BellWait { bell, heard };
        self.waits_in(call);
        let found = self
            .ctx
            .wait_by(&clock.runtime(), &mut clock, None, Some(bell));
        self.goes_on();
        let news = self.told.by_sleep(&found);
        self.report_news(news);
        found
    }

    fn checkpoint(&mut self) -> Option<Mark> {
        let found = self.looked();
        let news = self.told.by_mark(&found);
        self.report_news(news);
        found
    }

    fn owes(&self, scope: ScopeId) -> bool {
        self.frames.owes(scope)
    }

    fn take_owed(&mut self, scope: ScopeId) {
        self.frames.took(scope);
    }

    fn remaining(&mut self, scope: ScopeId) -> Result<Option<u64>, Refusal> {
        let mut clock = self.clock;
        let now = clock.now();
        let found = self.ctx.effective_deadline(&clock.runtime(), scope);
        left_in(now, found)
    }

    fn move_deadline(&mut self, scope: ScopeId, until: Option<u64>) -> Result<(), Refusal> {
        let found = self.ctx.move_deadline(&self.clock.runtime(), scope, until);
        self.frames.moved(scope, until, &found);
        found
    }

    fn cancel(&mut self, scope: ScopeId) -> Result<Cancelling, Refusal> {
        let how = self.ctx.cancel(&self.clock.runtime(), scope);
        if let Ok(Cancelling::Recorded) = how {
            let kind = CauseKind::Call;
            self.report(Happening::Cancelled { scope, kind });
        }
        how
    }

    fn bind(&mut self, key: Name, value: Value) -> Result<(), Refusal> {
        self.ctx.bind(&self.clock.runtime(), key, value)
    }

    fn unbind(&mut self) -> Result<(), Refusal> {
        self.ctx.unbind(&self.clock.runtime())
    }

    fn get(&mut self, key: &Name) -> Result<Value, Refusal> {
        self.ctx.get(&self.clock.runtime(), key)
    }

    fn retire(&mut self) -> Result<Base, Refusal> {
        self.ctx.retire(&self.clock.runtime())
    }

    fn tree(&mut self) -> Result<String, Refusal> {
        let alloc = self.alloc;
        let copied = self.ctx.look(&self.clock.runtime(), CopyOut { alloc });
        waiting_tree_in(alloc, copied, &self.hooks.waits)
    }

    fn note(&mut self, times: &mut Times) -> Result<(), Refusal> {
        let mut clock = self.clock;
        let reached = self.ctx.reached(&clock.runtime());
        times.note(reached, clock.now())
    }

    fn timed_tree(&mut self, times: &Times) -> Result<String, Refusal> {
        let mut clock = self.clock;
        let (now, alloc) = (clock.now(), self.alloc);
        let copied = self.ctx.look(&clock.runtime(), CopyOut { alloc });
        waiting_tree_at(alloc, copied, &self.hooks.waits, times, now)
    }

    fn timed_journal(&mut self, times: &Times) -> Result<String, Refusal> {
        let mut clock = self.clock;
        let now = clock.now();
        let rt = clock.runtime();
        self.ctx.timed_journal(&rt, self.alloc, times, now)
    }
}

/// How many milliseconds are left then until the deadline that was found, if there is one.
fn left_in(now: u64, found: Result<Effective, Refusal>) -> Result<Option<u64>, Refusal>
    ensures { result ≡ left_in now found }
{
    match found? {
        Effective::Past => Ok(Some(0)),
        Effective::At(until) => Ok(Some(until.saturating_sub(now))),
        Effective::Never => Ok(None),
    }
}
