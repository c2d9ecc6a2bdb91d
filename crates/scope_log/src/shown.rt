//! How a log is shown: a line for each entry, in the words of the script.

ghost use Rattle.std.specs.Prelude.{◌≡◌, Some};
ghost use Rattle.scope_log.specs.{end_line, entry_line, expiry_text, joiner_text, limit_text, lines_text, log_text, options_text, shield_text};

use crate::entries::LogEntry;
use crate::log::ScopeLog;
use scope_rules::{End, Expiry, Options, Policy, Rule, ScopeId, TaskId};
use std::fmt;

/// An entry of the log of this scope. It is shown as the line of its command in a script, with the
/// number that a fork gave; the mark as `cancelled P KIND`, with the scope P whose own cancel it was.
#[derive(Clone, Copy)]
pub struct ShownEntry {
    pub scope: ScopeId,
    pub entry: LogEntry,
}

impl fmt::Display for ShownEntry {
    ghost output = { λ e. Some (entry_line e.scope e.entry) };

    #[tactic(auto, unfolding(crate::specs::LogText::entry_line))]
    fn fmt<W: fmt::Write>(&self, f: &mut fmt::Formatter<W>) -> fmt::Result {
        let scope = self.scope;
        match self.entry {
            LogEntry::Open {
                actor,
                policy,
                options,
            } => write!(
                f,
                "open {actor} {}{}",
                ShownJoiner(policy),
                ShownOptions(options)
            ),
            LogEntry::Fork { task, actor, label } => {
                write!(f, "fork {actor} {scope} {} task {task}", label.name)
            }
            LogEntry::Reject { task } => write!(f, "reject {task}"),
            LogEntry::Start { task } => write!(f, "start {task}"),
            LogEntry::Finish { task, end } => write!(f, "{}", ShownEnd { task, end }),
            LogEntry::Cancel => write!(f, "cancel {scope}"),
            LogEntry::Move {
                deadline: Some(moment),
            } => write!(f, "move {scope} {moment}"),
            LogEntry::Move { deadline: None } => write!(f, "move {scope} never"),
            LogEntry::Join { actor } => write!(f, "join {actor} {scope}"),
            LogEntry::BeginClose { actor } => write!(f, "close {actor} {scope}"),
            LogEntry::EndClose { actor } => write!(f, "closed {actor} {scope}"),
            LogEntry::Cancelled(cause) => {
                write!(f, "cancelled {} {}", cause.scope, cause.kind.word())
            }
        }
    }
}

/// The entries of the log of this scope, a line each.
#[derive(Clone, Copy)]
struct ShownEntries<'a> {
    scope: ScopeId,
    entries: &'a [LogEntry],
}

impl fmt::Display for ShownEntries<'_> {
    ghost output = { λ e. Some (lines_text e.scope e.entries.now) };

    #[tactic(auto, unfolding(crate::specs::LogText::lines_text))]
    fn fmt<W: fmt::Write>(&self, f: &mut fmt::Formatter<W>) -> fmt::Result {
        for entry in self.entries {
            let shown = ShownEntry {
                scope: self.scope,
                entry: *entry,
            };
            write!(f, "{shown}\n")?;
        }
        Ok(())
    }
}

/// A line for each entry, ended by a line feed.
impl fmt::Display for ScopeLog {
    ghost output = { λ l. Some (log_text l) };

    fn fmt<W: fmt::Write>(&self, f: &mut fmt::Formatter<W>) -> fmt::Result {
        let shown = ShownEntries {
            scope: self.scope(),
            entries: self.entries(),
        };
        write!(f, "{shown}")
    }
}

/// A joiner: its word.
#[derive(Clone, Copy)]
pub struct ShownJoiner(pub Policy);

impl fmt::Display for ShownJoiner {
    ghost output = { λ p. Some (joiner_text p.0) };

    fn fmt<W: fmt::Write>(&self, f: &mut fmt::Formatter<W>) -> fmt::Result {
        match self.0 {
            Policy::All => f.write_str("all"),
            Policy::Any => f.write_str("any"),
            Policy::AwaitAll => f.write_str("await"),
            Policy::AwaitOk => f.write_str("await-ok"),
            Policy::Until(Rule::FailuresAtLeast(least)) => write!(f, "until:fail:{least}"),
            Policy::Until(Rule::SuccessesAtLeast(least)) => write!(f, "until:ok:{least}"),
            Policy::Until(Rule::SumAtLeast(least)) => write!(f, "until:sum:{least}"),
        }
    }
}

/// What a scope is opened with beside its joiner, each after a space.
#[derive(Clone, Copy)]
pub struct ShownOptions(pub Options);

impl fmt::Display for ShownOptions {
    ghost output = { λ o. Some (options_text o.0) };

    fn fmt<W: fmt::Write>(&self, f: &mut fmt::Formatter<W>) -> fmt::Result {
        let expiry = expiry_text(self.0.expiry);
        let shield = shield_text(self.0.shield);
        match self.0.deadline {
            Some(moment) => write!(f, " deadline={moment}{expiry}{shield}"),
            None => write!(f, "{expiry}{shield}"),
        }
    }
}

/// How the task ended: `ok K VALUE` or `fail K NAME`.
#[derive(Clone, Copy)]
pub struct ShownEnd {
    pub task: TaskId,
    pub end: End,
}

impl fmt::Display for ShownEnd {
    ghost output = { λ e. Some (end_line e.task e.end) };

    fn fmt<W: fmt::Write>(&self, f: &mut fmt::Formatter<W>) -> fmt::Result {
        let task = self.task;
        match &self.end {
            Ok(value) => write!(f, "ok {task} {value}"),
            Err(fault) => write!(f, "fail {task} {fault}"),
        }
    }
}

/// What the deadline means for the join, if that is not the usual.
fn expiry_text(expiry: Expiry) -> &'static str
    ensures { result.now ≡ expiry_text expiry }
{
    match expiry {
        Expiry::Fail => "",
        Expiry::MoveOn => " move-on",
    }
}

/// Whether cancels from around stop short of the scope.
fn shield_text(shield: bool) -> &'static str
    ensures { result.now ≡ shield_text shield }
{
    if shield { " shield" } else { "" }
}
