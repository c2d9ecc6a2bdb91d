//! The command of an event.
ghost use Rattle.script_journal.specs.{Some, event_line, pair_text};

use scope_log::{ShownEnd, ShownJoiner, ShownOptions};
use scope_rules::{Actor, Base, Binding, Event, ScopeId};
use std::fmt;

/// `K VALUE`.
#[derive(Clone, Copy)]
pub(crate) struct ShownPair(pub(crate) Binding);

impl fmt::Display for ShownPair {
    ghost output = { λ p. Some (pair_text p.0) };

    fn fmt<W: fmt::Write>(&self, f: &mut fmt::Formatter<W>) -> fmt::Result {
        write!(f, "{} {}", self.0.key, self.0.value)
    }
}

/// An event of a history that began with the base, as the line of its command in a script, without the line
/// feed. Scopes and tasks are counted from the base on. What end a label expects, a script doesn't say.
#[derive(Clone, Copy)]
pub struct ShownEvent<'a> {
    pub base: &'a Base,
    pub event: Event,
}

impl ShownEvent<'_> {
    ghost use Rattle.std.specs.Prelude.{◌≡◌};
    ghost use Rattle.script_journal.specs.Script.{scope_since, task_since};

    /// The scope's number, counted from the base on.
    fn scope(&self, scope: ScopeId) -> ScopeId
        ensures { result ≡ scope_since self.now.base.now scope }
    {
        scope.saturating_sub(self.base.scopes())
    }

    /// The task's number, counted from the base on; 0 for main.
    fn task(&self, task: Actor) -> Actor
        ensures { result ≡ task_since self.now.base.now task }
    {
        task.saturating_sub(self.base.tasks())
    }
}

impl fmt::Display for ShownEvent<'_> {
    ghost output = { λ e. Some (event_line e.base.now e.event) };

    #[tactic(auto, using(crate::proofs::Words::open_said, crate::proofs::Words::fork_said, crate::proofs::Words::end_said, crate::proofs::Words::pair_said, crate::proofs::Words::two_said), unfolding(crate::specs::Script::event_line, script_words::specs::Spelling::words_of))]
    fn fmt<W: fmt::Write>(&self, f: &mut fmt::Formatter<W>) -> fmt::Result {
        match self.event {
            Event::Open {
                actor,
                policy,
                options,
            } => {
                let shown = ShownOptions(options);
                write!(
                    f,
                    "open {} {}{shown}",
                    self.task(actor),
                    ShownJoiner(policy)
                )
            }
            Event::Fork {
                actor,
                scope: inside,
                label,
            } => write!(
                f,
                "fork {} {} {}",
                self.task(actor),
                self.scope(inside),
                label.name
            ),
            Event::Reject { task: rejected } => write!(f, "reject {}", self.task(rejected)),
            Event::Start { task: started } => write!(f, "start {}", self.task(started)),
            Event::Finish { task: ended, end } => {
                let shown = ShownEnd {
                    task: self.task(ended),
                    end,
                };
                write!(f, "{shown}")
            }
            Event::Cancel { scope: cancelled } => write!(f, "cancel {}", self.scope(cancelled)),
            Event::Move {
                scope: moved,
                deadline: Some(moment),
            } => write!(f, "move {} {moment}", self.scope(moved)),
            Event::Move {
                scope: moved,
                deadline: None,
            } => write!(f, "move {} never", self.scope(moved)),
            Event::Tick { now } => write!(f, "tick {now}"),
            Event::Bind { actor, binding } => {
                write!(f, "bind {} {}", self.task(actor), ShownPair(binding))
            }
            Event::Unbind { actor } => write!(f, "unbind {}", self.task(actor)),
            Event::Join {
                actor,
                scope: joined,
            } => write!(f, "join {} {}", self.task(actor), self.scope(joined)),
            Event::BeginClose {
                actor,
                scope: closing,
            } => write!(f, "close {} {}", self.task(actor), self.scope(closing)),
            Event::EndClose {
                actor,
                scope: closed,
            } => write!(f, "closed {} {}", self.task(actor), self.scope(closed)),
        }
    }
}
