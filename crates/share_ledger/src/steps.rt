ghost use Rattle.std.specs.Prelude.{◌≡◌};
ghost use Rattle.share_ledger.specs.{step_by};

use scope_rules::{Actor, Event, ScopeId, TaskId};

/// What may be asked for with any actor's token, whoever owns the scope.
#[derive(Clone, Copy)]
pub enum Ask {
    /// That the scope is cancelled.
    Cancel {
        scope: ScopeId,
    },
    /// That the scope's deadline is set anew, or taken away.
    Move {
        scope: ScopeId,
        deadline: Option<u64>,
    },
    /// That the moment is set, in milliseconds.
    Tick {
        now: u64,
    },
}

/// One step of a realm. The list of all its steps since it began is never shortened. Each step is
/// somebody's own: it says by whose token or ticket it was taken.
#[derive(Clone, Copy)]
pub enum RealmStep {
    /// The command was accepted, and recorded its event, which is its actor's or its task's. (No list has
    /// a cancel, a move or a tick so.)
    Happened(Event),
    /// What the actor asked for with its token was accepted, and its event recorded.
    Asked(Actor, Ask),
    /// Main retired the realm: its history begins anew, with the base that is left.
    Retirement,
}

impl RealmStep {
    /// The step by which the event is recorded with the actor's token.
    pub fn by(actor: Actor, event: &Event) -> RealmStep
        ensures { result ≡ step_by actor event.now }
    {
        match *event {
            Event::Cancel { scope } => RealmStep::Asked(actor, Ask::Cancel { scope }),
            Event::Move { scope, deadline } => {
                RealmStep::Asked(actor, Ask::Move { scope, deadline })
            }
            Event::Tick { now } => RealmStep::Asked(actor, Ask::Tick { now }),
            event => RealmStep::Happened(event),
        }
    }
}

/// Who has steps of its own.
#[derive(Clone, Copy, PartialEq, Eq)]
pub enum Holder {
    /// The token of the actor.
    TokenOf(Actor),
    /// The ticket of the task.
    TicketOf(TaskId),
}
