ghost use Rattle.scope_model.specs.{Enters, EntersOrMemory, IsWhole, Notes, NotesOrMemory, OnOk, Retires, fork_reply, next_scope, verdict};

use crate::plain::evaluator::Plain;
use scope_checks::table;
use scope_rules::types::answers::{Cancelling, ForkReply, Verdict};
use scope_rules::types::bases::Base;
use scope_rules::types::events::{Binding, Event, Options};
use scope_rules::types::joiners::Policy;
use scope_rules::types::names::Name;
use scope_rules::types::refusals::Refusal;
use scope_rules::types::values::{Actor, End, Label, ScopeId, TaskId, Value};

/// The commands. Each tries its checks in their order, and answers the first refusal; an accepted one
/// adds exactly its event to the history and answers its reply; a refused one changes nothing. Those
/// that make room for an event may be refused it, by `Memory`, once every check has passed.
impl Plain {
    /// Opens a scope for the actor, inside what lies around it (JEP 505, `open`). Refused if the
    /// actor is no running task or main, if its innermost scope is closing (`Closed`), past level
    /// 16 (`TooDeep`), and where a limit is met (`TooMany`).
    pub fn open(
        &mut self,
        actor: Actor,
        policy: Policy,
        options: Options,
    ) -> Result<ScopeId, Refusal>
        ensures { EntersOrMemory self.old (Event.Open actor policy options) (next_scope self.old.history) result self.new }
    {
        let view = self.view();
        table::open_row::<_, Refusal>(&view, &self.limits(), actor)?;
        let scope = view.scopes() + 1;
        self.try_append(Event::Open {
            actor,
            policy,
            options,
        })?;
        Ok(scope)
    }

    /// Forks the next task in the actor's scope (JEP 505, `fork`). In a cancelled scope the task gets no
    /// thread. Refused if the actor is no running task or main, for a scope that is unknown
    /// (`NoScope`, `Retired`), another's (`NotOwner`), closing or closed (`Closed`) or joined
    /// (`AlreadyJoined`), while the actor's bindings are not those at the scope's opening (`Structure`;
    /// JEP 506), and where a limit is met (`TooMany`).
    pub fn fork(&mut self, actor: Actor, scope: ScopeId, label: Label) -> Result<ForkReply, Refusal>
        ensures { EntersOrMemory self.old (Event.Fork actor scope label) (fork_reply self.old.history scope) result self.new }
    {
        let view = self.view();
        table::fork_row::<_, Refusal>(&view, &self.limits(), actor, scope)?;
        let task = view.tasks() + 1;
        let reply = if view.is_cancelled(scope) {
            ForkReply::Never(task)
        } else {
            ForkReply::Thread(task)
        };
        self.try_append(Event::Fork {
            actor,
            scope,
            label,
        })?;
        Ok(reply)
    }

    /// Records that no thread was available for a task. Refused if the task does not wait (`WrongStage`),
    /// or is unknown (`NoTask`, `Retired`).
    pub fn reject(&mut self, task: TaskId) -> Result<(), Refusal>
        ensures { Enters self.old (Event.Reject task) tt result self.new }
    {
        table::waiting_row::<_, Refusal>(&self.view(), task)?;
        self.record(Event::Reject { task });
        Ok(())
    }

    /// Starts a task whose thread has come. Refused if the task does not wait (`WrongStage`), or is
    /// unknown (`NoTask`, `Retired`).
    pub fn start(&mut self, task: TaskId) -> Result<(), Refusal>
        ensures { Enters self.old (Event.Start task) tt result self.new }
    {
        table::waiting_row::<_, Refusal>(&self.view(), task)?;
        self.record(Event::Start { task });
        Ok(())
    }

    /// Records the end of a running task. Refused if the task does not run (`WrongStage`), is
    /// unknown (`NoTask`, `Retired`), or has a scope that is not closed (`Structure`).
    pub fn finish(&mut self, task: TaskId, end: End) -> Result<(), Refusal>
        ensures { Enters self.old (Event.Finish task end) tt result self.new }
    {
        table::finish_row::<_, Refusal>(&self.view(), task)?;
        self.record(Event::Finish { task, end });
        Ok(())
    }

    /// Cancels the scope and all that it reaches (Trio, `cancel`). A scope that is cancelled already
    /// stays as it is. Refused for a scope that is unknown (`NoScope`, `Retired`), or closing or closed
    /// (`Closed`), and where the limit of load is met (`TooMany`).
    pub fn cancel(&mut self, scope: ScopeId) -> Result<Cancelling, Refusal>
        ensures { NotesOrMemory self.old (Event.Cancel scope) result self.new }
    {
        let view = self.view();
        table::cancel_row::<_, Refusal>(&view, &self.limits(), scope)?;
        if view.is_cancelled(scope) {
            return Ok(Cancelling::Already);
        }
        self.try_append(Event::Cancel { scope })?;
        Ok(Cancelling::Recorded)
    }

    /// Sets the deadline of the scope anew, in milliseconds, or takes it away (Trio: a cancel scope's
    /// deadline may be moved). Refused for a scope that is unknown (`NoScope`, `Retired`), closing or
    /// closed (`Closed`) or joined (`AlreadyJoined`), and where the limit of load is met (`TooMany`).
    pub fn move_deadline(&mut self, scope: ScopeId, deadline: Option<u64>) -> Result<(), Refusal>
        ensures { EntersOrMemory self.old (Event.Move scope deadline) tt result self.new }
    {
        table::move_row::<_, Refusal>(&self.view(), &self.limits(), scope)?;
        self.try_append(Event::Move { scope, deadline })
    }

    /// Sets the realm's time, in milliseconds. Refused for a moment before the present one (`ClockBack`), and
    /// where the limit of load is met (`TooMany`).
    pub fn tick(&mut self, now: u64) -> Result<(), Refusal>
        ensures { EntersOrMemory self.old (Event.Tick now) tt result self.new }
    {
        table::tick_row::<_, Refusal>(&self.view(), &self.limits(), now)?;
        self.try_append(Event::Tick { now })
    }

    /// Binds the key above the actor's other bindings (JEP 506, `where`). Refused if the actor is no
    /// running task or main, and where the limit of load is met (`TooMany`).
    pub fn bind(&mut self, actor: Actor, key: Name, value: Value) -> Result<(), Refusal>
        ensures { EntersOrMemory self.old (Event.Bind actor (record { key = key; value = value })) tt result self.new }
    {
        table::bind_row::<_, Refusal>(&self.view(), &self.limits(), actor)?;
        self.try_append(Event::Bind {
            actor,
            binding: Binding { key, value },
        })
    }

    /// Takes away the actor's last own binding. Refused if the actor is no running task or main, has
    /// no own binding (`NotBound`), or has a scope open or closing that was opened while the binding
    /// stood (`Structure`), and where the limit of load is met (`TooMany`).
    pub fn unbind(&mut self, actor: Actor) -> Result<(), Refusal>
        ensures { EntersOrMemory self.old (Event.Unbind actor) tt result self.new }
    {
        table::unbind_row::<_, Refusal>(&self.view(), &self.limits(), actor)?;
        self.try_append(Event::Unbind { actor })
    }

    /// Joins the actor's scope (JEP 505, `join`); what it answers is read by `outcome`. Refused if
    /// the actor is no running task or main, for a scope that is unknown (`NoScope`, `Retired`),
    /// another's (`NotOwner`), closing or closed (`Closed`) or joined (`AlreadyJoined`), and while it is
    /// neither cancelled nor all its tasks have ended (`NotReady`).
    pub fn join_now(&mut self, actor: Actor, scope: ScopeId) -> Result<(), Refusal>
        ensures { Enters self.old (Event.Join actor scope) tt result self.new }
    {
        table::join_row::<_, Refusal>(&self.view(), actor, scope)?;
        self.record(Event::Join { actor, scope });
        Ok(())
    }

    /// Begins to close the actor's scope, and with it each scope that the actor opened later and has not
    /// closed (JEP 505, `close` cancels first). A scope that is closing or closed stays as it is.
    /// Refused if the actor is no running task or main, and for a scope that is unknown (`NoScope`,
    /// `Retired`) or another's (`NotOwner`).
    pub fn begin_close(&mut self, actor: Actor, scope: ScopeId) -> Result<Cancelling, Refusal>
        ensures { Notes self.old (Event.BeginClose actor scope) result self.new }
    {
        let view = self.view();
        table::begin_close_row::<_, Refusal>(&view, actor, scope)?;
        if view.closing(scope) {
            return Ok(Cancelling::Already);
        }
        self.record(Event::BeginClose { actor, scope });
        Ok(Cancelling::Recorded)
    }

    /// Closes the actor's scope. Refused if the actor is no running task or main, for a scope that is
    /// unknown (`NoScope`, `Retired`), another's (`NotOwner`), not closing (`WrongStage`) or closed
    /// (`Closed`), while the actor has a later scope that is not closed (`Structure`), and while a task
    /// of the scope waits or runs (`NotReady`). A closed scope is whole: none of its tasks waits or runs,
    /// and each scope inside it, by parents at any depth, is closed.
    pub fn end_close(&mut self, actor: Actor, scope: ScopeId) -> Result<Verdict, Refusal>
        ensures entered { Enters self.old (Event.EndClose actor scope) (verdict self.old.history scope) result self.new }
        ensures whole { OnOk result (IsWhole self.new.history scope) }
    {
        let view = self.view();
        table::end_close_row::<_, Refusal>(&view, actor, scope)?;
        let verdict = view.verdict(scope);
        self.record(Event::EndClose { actor, scope });
        Ok(verdict)
    }

    /// Takes the events out and leaves a base, once main's outermost scope is closed; what is left goes
    /// on, with numbers after the base's. It is no event. Refused if the actor is no running task or
    /// main, is not main (`NotOwner`), while main has a scope that is not closed (`Structure`), and if
    /// memory is refused (`Memory`).
    pub fn retire(&mut self, actor: Actor) -> Result<Base, Refusal>
        ensures { Retires self.old actor result self.new }
    {
        let view = self.view();
        table::retire_check(&view, actor)?;
        let alloc = self.allocator();
        let (Ok(answered), Ok(kept)) = (view.base_after(alloc), view.base_after(alloc)) else {
            return Err(Refusal::Memory);
        };
        self.reset(kept);
        Ok(answered)
    }
}
