//! How names, values, ends and outcomes are shown: in the words of a script.
ghost use Rattle.scope_rules.specs.{Some, end_text, fault_text, label_text, outcome_text, states_text, task_state_text, task_value_text, text_of, value_text, values_text};

use crate::types::answers::State;
use crate::types::names::Name;
use crate::types::outcomes::{Outcome, TaskState, TaskStates, TaskValue, TaskValues};
use crate::types::values::{Fault, Label, Value};
use std::fmt;

/// The name's text.
impl fmt::Display for Name {
    ghost output = { λ n. Some (text_of n) };

    fn fmt<W: fmt::Write>(&self, f: &mut fmt::Formatter<W>) -> fmt::Result {
        f.write_str(self.as_str())
    }
}

/// A number in decimal, a text as it is.
impl fmt::Display for Value {
    ghost output = { λ v. Some (value_text v) };

    fn fmt<W: fmt::Write>(&self, f: &mut fmt::Formatter<W>) -> fmt::Result {
        match self {
            Value::Num(number) => write!(f, "{number}"),
            Value::Text(name) => f.write_str(name.as_str()),
        }
    }
}

/// The fault's name.
impl fmt::Display for Fault {
    ghost output = { λ v. Some (fault_text v) };

    fn fmt<W: fmt::Write>(&self, f: &mut fmt::Formatter<W>) -> fmt::Result {
        f.write_str(self.0.as_str())
    }
}

/// How a task ended: `ok:V`, `fail:F`, or `none` if nothing can be read of it. An end is shown by its
/// state, which `State::by_end` gives.
impl fmt::Display for State {
    ghost output = { λ s. Some (end_text s) };

    fn fmt<W: fmt::Write>(&self, f: &mut fmt::Formatter<W>) -> fmt::Result {
        match self {
            State::Unavailable => f.write_str("none"),
            State::Success(value) => write!(f, "ok:{value}"),
            State::Failed(fault) => write!(f, "fail:{fault}"),
        }
    }
}

/// The label's name, and behind it the end that is expected, if one is: `NAME`, `NAME=ok:V` or
/// `NAME=fail:F`.
impl fmt::Display for Label {
    ghost output = { λ l. Some (label_text l) };

    fn fmt<W: fmt::Write>(&self, f: &mut fmt::Formatter<W>) -> fmt::Result {
        match &self.due {
            None => f.write_str(self.name.as_str()),
            Some(end) => write!(f, "{}={}", self.name, State::by_end(end)),
        }
    }
}

/// `K=V`.
impl fmt::Display for TaskValue {
    ghost output = { λ t. Some (task_value_text t) };

    fn fmt<W: fmt::Write>(&self, f: &mut fmt::Formatter<W>) -> fmt::Result {
        write!(f, "{}={}", self.task, self.value)
    }
}

/// `K=ok:V`, `K=fail:F` or `K=none`.
impl fmt::Display for TaskState {
    ghost output = { λ t. Some (task_state_text t) };

    fn fmt<W: fmt::Write>(&self, f: &mut fmt::Formatter<W>) -> fmt::Result {
        write!(f, "{}={}", self.task, self.state)
    }
}

/// The tasks with their values, each after a space.
impl fmt::Display for TaskValues {
    ghost output = { λ v. Some (values_text v) };

    #[tactic(auto, unfolding(crate::specs::Texts::values_text))]
    fn fmt<W: fmt::Write>(&self, f: &mut fmt::Formatter<W>) -> fmt::Result {
        for task in self.as_slice() {
            write!(f, " {task}")?;
        }
        Ok(())
    }
}

/// The tasks with how they ended, each after a space.
impl fmt::Display for TaskStates {
    ghost output = { λ s. Some (states_text s) };

    #[tactic(auto, unfolding(crate::specs::Texts::states_text))]
    fn fmt<W: fmt::Write>(&self, f: &mut fmt::Formatter<W>) -> fmt::Result {
        for task in self.as_slice() {
            write!(f, " {task}")?;
        }
        Ok(())
    }
}

/// What a join gave: its word, and then its tasks.
impl fmt::Display for Outcome {
    ghost output = { λ o. Some (outcome_text o) };

    #[tactic(auto, unfolding(crate::specs::Texts::outcome_text))]
    fn fmt<W: fmt::Write>(&self, f: &mut fmt::Formatter<W>) -> fmt::Result {
        match self {
            Outcome::All(values) => write!(f, "all{values}"),
            Outcome::Any { task, value } => write!(f, "any {task}={value}"),
            Outcome::Empty => f.write_str("empty"),
            Outcome::Done => f.write_str("done"),
            Outcome::Failed { task, fault } => write!(f, "failed {task} {fault}"),
            Outcome::List(states) => write!(f, "list{states}"),
            Outcome::Timeout => f.write_str("timeout"),
            Outcome::Partial(states) => write!(f, "partial{states}"),
            Outcome::Cancelled(scope) => write!(f, "cancelled {scope}"),
        }
    }
}
