/// A rule that a list of completions meets or not, asked after each completion.
#[derive(Clone, Copy, PartialEq, Eq)]
pub enum Rule {
    /// At least so many completions failed.
    FailuresAtLeast(u32),
    /// At least so many completions succeeded.
    SuccessesAtLeast(u32),
    /// The exact sum of the number values of successes is at least this; a text counts 0.
    SumAtLeast(i64),
}

/// A joiner as plain data: what a scope's join waits for, and what it answers (JEP 505, `Joiner`).
#[derive(Clone, Copy, PartialEq, Eq)]
pub enum Policy {
    /// `allSuccessfulOrThrow`: all values, or the first failure.
    All,
    /// `anySuccessfulResultOrThrow`: the first success, or else the first failure.
    Any,
    /// `awaitAll`: waits for all, and answers that they are done.
    AwaitAll,
    /// `awaitAllSuccessfulOrThrow`: that all are done, or the first failure.
    AwaitOk,
    /// `allUntil`: all tasks with their states, once the rule is met or all have ended.
    Until(Rule),
}
