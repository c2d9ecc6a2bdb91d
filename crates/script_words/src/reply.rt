use scope_rules::{
    Cause, Counts, Effective, Fault, ForkReply, Outcome, Refusal, ScopeId, Stage, State, TaskId,
    Value, Verdict,
};

/// What a command is answered. Its text is the line of the reply, without the line feed.
#[derive(Drop)]
pub enum Reply {
    /// A scope was opened.
    Scope(ScopeId),
    /// A task was forked.
    Task(ForkReply),
    Rejected,
    Started,
    Finished,
    Cancelled,
    /// It was cancelled, closing or closed already.
    Already,
    Moved,
    /// The realm's time, in milliseconds.
    Moment(u64),
    Bound,
    Unbound,
    /// What the join gave.
    Outcome(Outcome),
    Closing,
    Closed(Verdict),
    /// How many scopes and tasks were numbered so far.
    Retired { scopes: ScopeId, tasks: TaskId },
    State(State),
    Stage(Stage),
    Value(Value),
    Fault(Fault),
    Cause(Option<Cause>),
    Until(Effective),
    Counts(Counts),
    Refused(Refusal),
}
