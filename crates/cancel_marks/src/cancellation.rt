use scope_rules::Cause;

/// What the cell of a cancelled scope holds: why the scope became cancelled, and where in the history.
#[derive(Clone, Copy, PartialEq, Eq)]
pub struct Cancellation {
    pub cause: Cause,
    /// The place in the history of the event by which the scope became cancelled.
    pub number: usize,
}
