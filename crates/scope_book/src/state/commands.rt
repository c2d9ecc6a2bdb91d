ghost use Rattle.std.specs.Prelude.{◌≡◌, ◌<◌, OnOk, IfErr, Err, true, vec_len, vec_capacity};
ghost use Rattle.scope_rules.specs.Table.{check_of};
ghost use Rattle.scope_rules.specs.Verdicts.{verdict};
ghost use Rattle.scope_rules.specs.ClosingLaws.{IsWhole};
ghost use Rattle.scope_rules.specs.Replies.{next_scope, fork_reply};
ghost use Rattle.join_rules.specs.Joiners.{policy_of};
ghost use Rattle.scope_book.specs.Books.{realm_of, history_of, refusal_alone};
ghost use Rattle.scope_checks.specs.EventReplies.{Answered};
ghost use Rattle.scope_checks.specs.Entering.{Enters, EntersOrMemory, Notes, NotesOrMemory, Retires, Tells};
ghost use Rattle.realm_state.specs.Fits.{FitsTask, FitsEvent};

use crate::state::book::BookState;
use join_rules::{Joiner, StoredTest};
use realm_state::RealmState;
use scope_checks::{EventReply, Readings, table};
use scope_rules::{
    Actor, Base, Binding, Cancelling, Catalog, End, Event, ForkReply, Label, Name, Options,
    Refusal, ScopeId, TaskId, Value, Verdict,
};

/// The commands: one for each event, and `perform`, which takes any. Each tries its checks in their order,
/// and answers the first refusal; an accepted one adds exactly its event to the history and answers its
/// reply; a refused one changes nothing. Those that make room for an event may be refused it, by
/// `Memory`, once every check has passed.
impl<C: Catalog> BookState<C> {
    /// Opens a scope for the actor, inside what lies around it (JEP 505, `open`). Refused if the
    /// actor is no running task or main, if its innermost scope is closing (`Closed`), past level
    /// 16 (`TooDeep`), and where a limit is met (`TooMany`).
    pub fn open(
        &mut self,
        actor: Actor,
        joiner: Joiner,
        options: Options,
    ) -> Result<ScopeId, (Refusal, Joiner)>
        ensures entered { EntersOrMemory (realm_of self.old) (Event.Open actor (policy_of joiner) options) (next_scope (history_of self.old)) (refusal_alone result) (realm_of self.new) }
        ensures handed_back { IfErr result (λ e. e.1 ≡ joiner) }
    {
        let listed = joiner.asks_closure();
        let policy = joiner.policy();
        let event = Event::Open {
            actor,
            policy,
            options,
        };
        if let Err(refusal) = self.make_room(&event) {
            return Err((refusal, joiner));
        }
        match self.realm.perform(&event, listed, None) {
            Ok(EventReply::Scope(scope)) => {
                self.tests.push_reserved(if listed {
                    Some(joiner.into_test())
                } else {
                    None
                });
                Ok(scope)
            }
            Ok(_) => unreachable!(),
            Err(refusal) => Err((refusal, joiner)),
        }
    }

    /// Forks the next task in the actor's scope (JEP 505, `fork`). In a cancelled scope the task gets no
    /// thread. Refused if the actor is no running task or main, for a scope that is unknown
    /// (`NoScope`, `Retired`), another's (`NotOwner`), closing or closed (`Closed`) or joined
    /// (`AlreadyJoined`), while the actor's bindings are not those at the scope's opening (`Structure`;
    /// JEP 506), and where a limit is met (`TooMany`).
    pub fn fork(&mut self, actor: Actor, scope: ScopeId, label: Label) -> Result<ForkReply, Refusal>
        ensures { EntersOrMemory (realm_of self.old) (Event.Fork actor scope label) (fork_reply (history_of self.old) scope) result (realm_of self.new) }
    {
        let event = Event::Fork {
            actor,
            scope,
            label,
        };
        match self.perform(&event)? {
            EventReply::Task(reply) => Ok(reply),
            _ => unreachable!(),
        }
    }

    /// Records that no thread was available for a task. Refused if the task does not wait (`WrongStage`),
    /// or is unknown (`NoTask`, `Retired`).
    pub fn reject(&mut self, task: TaskId) -> Result<(), Refusal>
        ensures { Enters (realm_of self.old) (Event.Reject task) tt result (realm_of self.new) }
    {
        self.perform(&Event::Reject { task })?;
        Ok(())
    }

    /// Starts a task whose thread has come. Refused if the task does not wait (`WrongStage`), or is
    /// unknown (`NoTask`, `Retired`).
    pub fn start(&mut self, task: TaskId) -> Result<(), Refusal>
        ensures { Enters (realm_of self.old) (Event.Start task) tt result (realm_of self.new) }
    {
        self.perform(&Event::Start { task })?;
        Ok(())
    }

    /// Records the end of a running task. Refused if the task does not run (`WrongStage`), is
    /// unknown (`NoTask`, `Retired`), or has a scope that is not closed (`Structure`).
    pub fn finish(&mut self, task: TaskId, end: End) -> Result<(), Refusal>
        requires { FitsTask C.fitting (history_of self.old) task end }
        ensures { Enters (realm_of self.old) (Event.Finish task end) tt result (realm_of self.new) }
    {
        self.perform(&Event::Finish { task, end })?;
        Ok(())
    }

    /// Cancels the scope and all that it reaches (Trio, `cancel`). A scope that is cancelled already
    /// stays as it is. Refused for a scope that is unknown (`NoScope`, `Retired`), or closing or closed
    /// (`Closed`), and where the limit of load is met (`TooMany`).
    pub fn cancel(&mut self, scope: ScopeId) -> Result<Cancelling, Refusal>
        ensures { NotesOrMemory (realm_of self.old) (Event.Cancel scope) result (realm_of self.new) }
    {
        Ok(self.perform(&Event::Cancel { scope })?.noting())
    }

    /// Sets the deadline of the scope anew, in milliseconds, or takes it away (Trio: a cancel scope's
    /// deadline may be moved). Refused for a scope that is unknown (`NoScope`, `Retired`), closing or
    /// closed (`Closed`) or joined (`AlreadyJoined`), and where the limit of load is met (`TooMany`).
    pub fn move_deadline(&mut self, scope: ScopeId, deadline: Option<u64>) -> Result<(), Refusal>
        ensures { EntersOrMemory (realm_of self.old) (Event.Move scope deadline) tt result (realm_of self.new) }
    {
        self.perform(&Event::Move { scope, deadline })?;
        Ok(())
    }

    /// Sets the realm's time, in milliseconds. Refused for a moment before the present one (`ClockBack`), and
    /// where the limit of load is met (`TooMany`).
    pub fn tick(&mut self, now: u64) -> Result<(), Refusal>
        ensures { EntersOrMemory (realm_of self.old) (Event.Tick now) tt result (realm_of self.new) }
    {
        self.perform(&Event::Tick { now })?;
        Ok(())
    }

    /// Binds the key above the actor's other bindings (JEP 506, `where`). Refused if the actor is no
    /// running task or main, and where the limit of load is met (`TooMany`).
    pub fn bind(&mut self, actor: Actor, key: Name, value: Value) -> Result<(), Refusal>
        ensures { EntersOrMemory (realm_of self.old) (Event.Bind actor (record { key = key; value = value })) tt result (realm_of self.new) }
    {
        let binding = Binding { key, value };
        self.perform(&Event::Bind { actor, binding })?;
        Ok(())
    }

    /// Takes away the actor's last own binding. Refused if the actor is no running task or main, has
    /// no own binding (`NotBound`), or has a scope open or closing that was opened while the binding
    /// stood (`Structure`), and where the limit of load is met (`TooMany`).
    pub fn unbind(&mut self, actor: Actor) -> Result<(), Refusal>
        ensures { EntersOrMemory (realm_of self.old) (Event.Unbind actor) tt result (realm_of self.new) }
    {
        self.perform(&Event::Unbind { actor })?;
        Ok(())
    }

    /// Joins the actor's scope (JEP 505, `join`); what it answers is read by `outcome`. Refused if
    /// the actor is no running task or main, for a scope that is unknown (`NoScope`, `Retired`),
    /// another's (`NotOwner`), closing or closed (`Closed`) or joined (`AlreadyJoined`), and while it is
    /// neither cancelled nor all its tasks have ended (`NotReady`).
    pub fn join_now(&mut self, actor: Actor, scope: ScopeId) -> Result<(), Refusal>
        ensures { Enters (realm_of self.old) (Event.Join actor scope) tt result (realm_of self.new) }
    {
        self.perform(&Event::Join { actor, scope })?;
        Ok(())
    }

    /// Begins to close the actor's scope, and with it each scope that the actor opened later and has not
    /// closed (JEP 505, `close` cancels first). A scope that is closing or closed stays as it is.
    /// Refused if the actor is no running task or main, and for a scope that is unknown (`NoScope`,
    /// `Retired`) or another's (`NotOwner`).
    pub fn begin_close(&mut self, actor: Actor, scope: ScopeId) -> Result<Cancelling, Refusal>
        ensures { Notes (realm_of self.old) (Event.BeginClose actor scope) result (realm_of self.new) }
    {
        Ok(self.perform(&Event::BeginClose { actor, scope })?.noting())
    }

    /// Closes the actor's scope. Refused if the actor is no running task or main, for a scope that is
    /// unknown (`NoScope`, `Retired`), another's (`NotOwner`), not closing (`WrongStage`) or closed
    /// (`Closed`), while the actor has a later scope that is not closed (`Structure`), and while a task
    /// of the scope waits or runs (`NotReady`). A closed scope is whole: none of its tasks waits or runs,
    /// and each scope inside it, by parents at any depth, is closed.
    pub fn end_close(&mut self, actor: Actor, scope: ScopeId) -> Result<Verdict, Refusal>
        ensures entered { Enters (realm_of self.old) (Event.EndClose actor scope) (verdict (history_of self.old) scope) result (realm_of self.new) }
        ensures whole { OnOk result (IsWhole (history_of self.new) scope) }
    {
        let told = self.perform(&Event::EndClose { actor, scope })?;
        let _legal = self.limits();
        match told {
            EventReply::Closed(verdict) => Ok(verdict),
            _ => unreachable!(),
        }
    }

    /// Performs the command of the event, whichever it is: a scope that it opens has the joiner that its
    /// policy says, and no closure. It is refused as the event's own call is.
    #[inline(always)]
    pub fn perform(&mut self, event: &Event) -> Result<EventReply, Refusal>
        requires fits { FitsEvent C.fitting (history_of self.old) event.now }
        ensures { Tells (realm_of self.old) event.now result (realm_of self.new) }
    {
        match event {
            Event::Open { .. } => {
                self.make_room(event)?;
                let reply = self.realm.perform(event, false, None)?;
                self.tests.push_reserved(None);
                Ok(reply)
            }
            Event::Finish { task, .. } => {
                let test = test_of(&self.tests, self.realm.realm(), *task);
                self.realm.perform(event, false, test)
            }
            _ => self.realm.perform(event, false, None),
        }
    }

    /// Makes room for the closure of the scope that the event opens. Refused what the event is, or else
    /// `Memory`.
    fn make_room(&mut self, event: &Event) -> Result<(), Refusal>
        ensures kept { realm_of self.new ≡ realm_of self.old }
        ensures room { OnOk result (vec_len self.new.tests < vec_capacity self.new.tests) }
        ensures refused { IfErr result (λ refusal. Answered (check_of (realm_of self.old).limits (realm_of self.old).history event.now) (tt {0}) true (Err refusal)) }
    {
        if self.tests.reserve(1).is_ok() {
            return Ok(());
        }
        match table::accept(self.realm(), &self.limits(), event) {
            Ok(_) => Err(Refusal::Memory),
            Err(refusal) => Err(refusal),
        }
    }

    /// Takes the events out and leaves a base, once main's outermost scope is closed; what is left goes
    /// on, with numbers after the base's. It is no event. Refused if the actor is no running task or
    /// main, is not main (`NotOwner`), while main has a scope that is not closed (`Structure`), and if
    /// memory is refused (`Memory`).
    pub fn retire(&mut self, actor: Actor) -> Result<Base, Refusal>
        ensures { Retires (realm_of self.old) actor result (realm_of self.new) }
    {
        let base = self.realm.retire(actor)?;
        self.tests.clear();
        Ok(base)
    }
}

/// The closure that the joiner of the task's scope asks, if it has one.
fn test_of<'a>(
    tests: &'a [Option<StoredTest>],
    realm: &RealmState,
    task: TaskId,
) -> Option<&'a StoredTest> {
    let scope = realm.forked_in(task)?;
    let place = scope.checked_sub(realm.retired_scopes())?.checked_sub(1)?;
    tests.get(place as usize)?.as_ref()
}
