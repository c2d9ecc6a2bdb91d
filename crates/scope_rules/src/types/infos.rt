use crate::types::answers::Cause;
use crate::types::events::Expiry;
use crate::types::joiners::Policy;
use crate::types::values::{Actor, ScopeId};

/// How far a scope has come.
#[derive(Clone, Copy, PartialEq, Eq)]
pub enum ScopeStage {
    Open,
    /// The beginning of a close covers it, its own or that of a scope that its owner opened before.
    Closing,
    Closed,
}

/// What there is to say of a scope by itself, without its tasks and what lies inside it.
#[derive(Clone, Copy, PartialEq, Eq)]
pub struct ScopeInfo {
    pub scope: ScopeId,
    /// Who opened it.
    pub owner: Actor,
    pub policy: Policy,
    /// Its own deadline, in milliseconds: that of its last move, or else of its opening. It stays after
    /// the join and after the close, though it counts no more.
    pub deadline: Option<u64>,
    pub expiry: Expiry,
    pub shield: bool,
    pub joined: bool,
    pub stage: ScopeStage,
    /// Why it is cancelled, if it is.
    pub cause: Option<Cause>,
}
