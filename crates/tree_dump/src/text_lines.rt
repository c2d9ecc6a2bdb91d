//! The lines of a tree, without their indents.
ghost use Rattle.std.specs.Prelude.{◌+◌, ◌<◌, ◌^◌, ◌≡◌, Some};
ghost use Rattle.tree_dump.specs.{aged_scope, awaits_text, cause_text, deadline_text, expiry_text, head_text, indent, kind_text, moment_line, now_text, owner_text, progress_text, scope_text, task_text, words_if};

use crate::ages::ShownSpan;
use crate::waits::{CurrentWait, ShownWait};
use crate::words::scope_stage_word;
use scope_log::ShownJoiner;
use scope_rules::types::infos::ScopeInfo;
use scope_rules::{Actor, Cause, CauseKind, Counts, Expiry, Name, Stage, State, TaskId};
use std::fmt;

/// Two spaces for each level.
#[derive(Clone, Copy)]
pub(crate) struct Indent(pub(crate) u32);

impl fmt::Display for Indent {
    ghost output = { λ i. Some (indent i.0) };

    fn fmt<W: fmt::Write>(&self, f: &mut fmt::Formatter<W>) -> fmt::Result {
        for _level in 0..self.0 {
            write!(f, "  ")?;
        }
        Ok(())
    }
}

/// `main` or `task K`.
#[derive(Clone, Copy)]
struct ShownOwner(Actor);

impl fmt::Display for ShownOwner {
    ghost output = { λ o. Some (owner_text o.0) };

    fn fmt<W: fmt::Write>(&self, f: &mut fmt::Formatter<W>) -> fmt::Result {
        match self.0 {
            0 => write!(f, "main"),
            task => write!(f, "task {task}"),
        }
    }
}

/// The last reading of the clock, if it was read.
#[derive(Clone, Copy)]
struct ShownNow(Option<u32>);

impl fmt::Display for ShownNow {
    ghost output = { λ n. Some (now_text n.0) };

    fn fmt<W: fmt::Write>(&self, f: &mut fmt::Formatter<W>) -> fmt::Result {
        match self.0 {
            None => Ok(()),
            Some(now) => write!(f, ", now {now}"),
        }
    }
}

/// The first line: the moment, the last reading of the clock, if it was read, and in which call main waits, if it does.
#[derive(Clone, Copy)]
pub(crate) struct ShownMoment {
    pub(crate) moment: u64,
    pub(crate) now: Option<u32>,
    pub(crate) main: Option<CurrentWait>,
}

impl fmt::Display for ShownMoment {
    ghost output = { λ m. Some (moment_line m.moment m.now m.main) };

    #[tactic(auto, unfolding(crate::specs::TextLines::moment_line))]
    fn fmt<W: fmt::Write>(&self, f: &mut fmt::Formatter<W>) -> fmt::Result {
        let now = ShownNow(self.now);
        let main = ShownWait {
            words: ", main ",
            now: self.now,
            wait: self.main,
        };
        write!(f, "moment {}{now}{main}\n", self.moment)
    }
}

/// The scope's own deadline, what the join does then, if that is not the usual, and in how long it comes.
#[derive(Clone, Copy)]
struct ShownDeadline {
    deadline: Option<u64>,
    expiry: Expiry,
    due: Option<u64>,
}

impl fmt::Display for ShownDeadline {
    ghost output = { λ d. Some (deadline_text d.deadline d.expiry d.due) };

    fn fmt<W: fmt::Write>(&self, f: &mut fmt::Formatter<W>) -> fmt::Result {
        let Some(moment) = self.deadline else {
            return Ok(());
        };
        let expiry = expiry_text(self.expiry);
        let due = ShownSpan(", in ", self.due);
        write!(f, ", deadline {moment}{expiry}{due}")
    }
}

/// What the join does by the deadline, if that is not the usual.
fn expiry_text(expiry: Expiry) -> &'static str
    ensures { result.now ≡ expiry_text expiry }
{
    match expiry {
        Expiry::Fail => "",
        Expiry::MoveOn => " to move on",
    }
}

/// Why the scope is cancelled, where it is.
#[derive(Clone, Copy)]
struct ShownCause(Option<Cause>);

impl fmt::Display for ShownCause {
    ghost output = { λ c. Some (cause_text c.0) };

    fn fmt<W: fmt::Write>(&self, f: &mut fmt::Formatter<W>) -> fmt::Result {
        match self.0 {
            None => Ok(()),
            Some(cause) => {
                let by = kind_text(cause.kind);
                write!(f, ", cancelled by {by} scope {}", cause.scope)
            }
        }
    }
}

/// How many of the scope's tasks wait or run, of how many.
#[derive(Clone, Copy)]
struct ShownCounts(Counts);

impl fmt::Display for ShownCounts {
    ghost output = { λ c. Some (awaits_text c.0) };

    fn fmt<W: fmt::Write>(&self, f: &mut fmt::Formatter<W>) -> fmt::Result {
        let counts = self.0;
        let awaited = added(counts.waiting, counts.running);
        let settled = added(counts.never, counts.finished);
        write!(f, ", awaits {awaited} of {}", awaited + settled)
    }
}

/// Which scope it is, how far it has come, whose it is, and how it is joined.
#[derive(Clone, Copy)]
struct ShownHead(ScopeInfo);

impl fmt::Display for ShownHead {
    ghost output = { λ h. Some (head_text h.0) };

    fn fmt<W: fmt::Write>(&self, f: &mut fmt::Formatter<W>) -> fmt::Result {
        let stage = scope_stage_word(self.0.stage);
        let owner = ShownOwner(self.0.owner);
        let joiner = ShownJoiner(self.0.policy);
        write!(
            f,
            "scope {} {stage}, of {owner}, joins {joiner}",
            self.0.scope
        )
    }
}

/// The line of a scope.
#[derive(Clone, Copy)]
struct ShownScope {
    info: ScopeInfo,
    counts: Counts,
    due: Option<u64>,
}

impl fmt::Display for ShownScope {
    ghost output = { λ s. Some (scope_text s.info s.counts s.due) };

    fn fmt<W: fmt::Write>(&self, f: &mut fmt::Formatter<W>) -> fmt::Result {
        let head = ShownHead(self.info);
        let joined = words_if(self.info.joined, ", joined");
        let deadline = ShownDeadline {
            deadline: self.info.deadline,
            expiry: self.info.expiry,
            due: self.due,
        };
        let shield = words_if(self.info.shield, ", shielded");
        let cause = ShownCause(self.info.cause);
        let counts = ShownCounts(self.counts);
        write!(f, "{head}{joined}{deadline}{shield}{cause}{counts}")
    }
}

/// The line of a scope, with in how long its deadline comes, how long it is open and how late it is, in milliseconds, if
/// that is known.
#[derive(Clone, Copy)]
pub(crate) struct AgedScope {
    pub(crate) info: ScopeInfo,
    pub(crate) counts: Counts,
    pub(crate) due: Option<u64>,
    pub(crate) age: Option<u64>,
    pub(crate) late: Option<u64>,
}

impl fmt::Display for AgedScope {
    ghost output = { λ s. Some (aged_scope s.info s.counts s.due s.age s.late) };

    #[tactic(auto, unfolding(crate::specs::TextTree::aged_scope))]
    fn fmt<W: fmt::Write>(&self, f: &mut fmt::Formatter<W>) -> fmt::Result {
        let scope = ShownScope {
            info: self.info,
            counts: self.counts,
            due: self.due,
        };
        let open = ShownSpan(", open for ", self.age);
        let late = ShownSpan(", late by ", self.late);
        write!(f, "{scope}{open}{late}")
    }
}

/// How far the task has come, and what can be read of it once no more comes of it.
#[derive(Clone, Copy)]
struct ShownProgress {
    stage: Stage,
    state: State,
}

impl fmt::Display for ShownProgress {
    ghost output = { λ p. Some (progress_text p.stage p.state) };

    fn fmt<W: fmt::Write>(&self, f: &mut fmt::Formatter<W>) -> fmt::Result {
        match self.stage {
            Stage::Waiting => write!(f, "waiting"),
            Stage::Running => write!(f, "running"),
            Stage::Never => write!(f, "never started, {}", self.state.word()),
            Stage::Finished => write!(f, "finished, {}", self.state.word()),
        }
    }
}

/// The line of a task.
#[derive(Clone, Copy)]
pub(crate) struct ShownTask {
    pub(crate) task: TaskId,
    pub(crate) name: Name,
    pub(crate) stage: Stage,
    pub(crate) state: State,
}

impl fmt::Display for ShownTask {
    ghost output = { λ t. Some (task_text t.task t.name t.stage t.state) };

    fn fmt<W: fmt::Write>(&self, f: &mut fmt::Formatter<W>) -> fmt::Result {
        let progress = ShownProgress {
            stage: self.stage,
            state: self.state,
        };
        write!(f, "task {} {}: {progress}", self.task, self.name)
    }
}

/// So many tasks together.
fn added(some: u32, others: u32) -> u64
    ensures sum { result ≡ some + others }
    ensures small { result < 2 ^ 33 }
{
    u64::from(some) + u64::from(others)
}

/// These words, if it is so.
fn words_if(is_so: bool, words: &'static str) -> &'static str
    ensures { result.now ≡ words_if is_so words.now }
{
    if is_so { words } else { "" }
}

/// What made the cancel.
fn kind_text(kind: CauseKind) -> &'static str
    ensures { result.now ≡ kind_text kind }
{
    match kind {
        CauseKind::Call => "a call on",
        CauseKind::Close => "the close of",
        CauseKind::Joiner => "the joiner of",
        CauseKind::Deadline => "the deadline of",
    }
}
