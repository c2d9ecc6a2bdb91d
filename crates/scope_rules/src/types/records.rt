use crate::types::answers::{Cause, CauseKind};
use crate::types::events::Options;
use crate::types::joiners::Policy;
use crate::types::values::{Actor, End, Label, ScopeId};

/// The opening of a scope: the event that gave its number, with the event's place in the history.
#[derive(Clone, Copy)]
pub struct Opening {
    pub place: usize,
    pub actor: Actor,
    pub policy: Policy,
    pub options: Options,
}

/// The forking of a task: the event that gave its number, with the event's place in the history.
#[derive(Clone, Copy)]
pub struct Forking {
    pub place: usize,
    pub actor: Actor,
    pub scope: ScopeId,
    pub label: Label,
}

/// The end of a task, with the place of its event in the history.
#[derive(Clone, Copy)]
pub struct Ending {
    pub place: usize,
    pub end: End,
}

/// A scope's own cancel: what made it, with the place of the event that did.
#[derive(Clone, Copy)]
pub struct OwnCancel {
    pub place: usize,
    pub kind: CauseKind,
}

/// Why a scope is cancelled, with the place of the event that did it.
#[derive(Clone, Copy)]
pub struct FirstCancel {
    pub place: usize,
    pub cause: Cause,
}
