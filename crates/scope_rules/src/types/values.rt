ghost use Rattle.std.specs.Prelude.{◌↔◌, ◌≡◌, IsTrue, Some};
ghost use Rattle.scope_rules.specs.{same_value};

use crate::types::names::Name;

/// The number of a scope, counted from 1 over the whole realm in order of opening.
pub type ScopeId = u32;

/// The number of a task, counted from 1 over the whole realm in order of forking.
pub type TaskId = u32;

/// Who acts: 0 is main, and k is task k.
pub type Actor = u32;

/// The actor that is no task.
pub const MAIN: Actor = 0;

/// What a task can give, and what a key can be bound to.
#[derive(Clone, Copy, PartialEq, Eq)]
pub enum Value {
    Num(i64),
    Text(Name),
}

impl Value {
    /// Whether the two values are one.
    pub fn is_same(&self, other: &Value) -> bool
        ensures tested { result ≡ same_value self.now other.now }
        ensures same { IsTrue result ↔ (self.now ≡ other.now) }
    {
        match (self, other) {
            (Value::Num(number), Value::Num(other)) => number == other,
            (Value::Text(text), Value::Text(other)) => text.is_same(other),
            _ => false,
        }
    }
}

/// Why a task failed.
#[derive(Clone, Copy, PartialEq, Eq)]
pub struct Fault(pub Name);

/// How a task ended: with a value, or with a fault.
pub type End = Result<Value, Fault>;

/// What a forked job is called, and the end that is expected of it, if the caller knows one.
#[derive(Clone, Copy, PartialEq, Eq)]
pub struct Label {
    pub name: Name,
    pub due: Option<End>,
}

impl Label {
    /// Whether the end is the one that is expected.
    pub fn expects(&self, end: &End) -> bool
        ensures { IsTrue result ↔ (self.now.due ≡ Some end.now) }
    {
        match self.due {
            Some(due) => is_same_end(&due, end),
            None => false,
        }
    }
}

/// Whether the two ends are one.
fn is_same_end(left: &End, right: &End) -> bool
    ensures { IsTrue result ↔ (left.now ≡ right.now) }
{
    match (left, right) {
        (Ok(value), Ok(other)) => value.is_same(other),
        (Err(fault), Err(other)) => fault.0.is_same(&other.0),
        _ => false,
    }
}

/// A completion: a task, and how it ended.
#[derive(Clone, Copy)]
pub struct Completion {
    pub task: TaskId,
    pub end: End,
}
