ghost use Rattle.realm_state.specs.{Retires, Tells};

use crate::realm::RealmState;
use join_rules::StoredTest;
use scope_checks::{Accepted, EventReply, table};
use scope_rules::types::bases::Base;
use scope_rules::types::events::Event;
use scope_rules::types::refusals::Refusal;
use scope_rules::types::values::Actor;

/// The commands. All come in by one call; a retirement, which is no event, has its own.
impl RealmState {
    /// Performs the command of the event: tries its row of the table of checks, and answers the first
    /// refusal; an accepted one adds exactly its event to the history and answers its reply; a refused one
    /// changes nothing, nor does one that finds that all is so already. If the event costs load, it may
    /// be refused room (`Memory`) once every check has passed. `listed` says of a scope that it opens
    /// whether a closure of the caller's is shown its completions; `test` is that closure, where it ends a
    /// task and its scope's joiner has one.
    pub fn perform(
        &mut self,
        event: &Event,
        listed: bool,
        test: Option<&StoredTest>,
    ) -> Result<EventReply, Refusal>
        ensures { Tells self.old event.now result self.new }
    {
        let Accepted { reply, load } = table::accept(self, &self.limits(), event)?;
        if matches!(reply, EventReply::Already) {
            return Ok(reply);
        }
        if load == 0 {
            self.record(event, test);
        } else {
            self.try_append(event, load, listed)?;
        }
        Ok(reply)
    }

    /// Takes the events out and leaves a base, once main's outermost scope is closed; what is left goes
    /// on, with numbers after the base's. It is no event. Refused if the actor is no running task or
    /// main, is not main (`NotOwner`), while main has a scope that is not closed (`Structure`), and if
    /// memory is refused (`Memory`).
    pub fn retire(&mut self, actor: Actor) -> Result<Base, Refusal>
        ensures { Retires self.old actor result self.new }
    {
        table::retire_check(self, actor)?;
        let (Ok(answered), Ok(base)) = (self.base_after(), self.base_after()) else {
            return Err(Refusal::Memory);
        };
        self.reset(base);
        Ok(answered)
    }
}
