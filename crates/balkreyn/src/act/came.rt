//! What became of what was asked for.
ghost use Rattle.std.specs.Prelude.{◌≡◌, MatchResult};
ghost use Rattle.balkreyn.specs.{AllCame, IsCame, IsResultOf, Memory, came_value};

use realm_lock::Mark;
use scope_rules::Refusal;
use std::alloc::Global;

/// What came of a job, or of a body that waited: its value, its own error, or why there is neither.
///
/// What each job came to, one by one:
///
/// ```rust
/// fn pieces_of(came: &Came<Stock, NoStock>) -> Option<u32> {
///     match came {
///         Came::Value(stock) => Some(stock.pieces),
///         Came::Failed(_) | Came::Cut(_) => None,
///     }
/// }
/// ```
#[derive(Drop)]
pub enum Came<V, E> {
    /// It succeeded with this value.
    Value(V),
    /// It failed with this error. If its task failed without one, since it left a scope open, this is what the error's
    /// type makes of the refusal `NotSuccess`.
    Failed(E),
    /// A cancel or a deadline came first; the mark says of which scope, and why.
    Cut(Mark),
}

impl<V: Drop, E: Drop> Came<V, E> {
    /// The value, if it came.
    pub fn value(self) -> Option<V>
        ensures { result ≡ came_value self }
    {
        match self {
            Came::Value(value) => Some(value),
            Came::Failed(_) | Came::Cut(_) => None,
        }
    }
}

impl<V: Drop, E: From<Refusal> + Drop> Came<V, E> {
    /// The same as a result, for `?`: if it was cut, the error is what its type makes of `Unavailable`.
    pub fn into_result(self) -> Result<V, E>
        ensures { IsResultOf E.from_gives self result }
    {
        match self {
            Came::Value(value) => Ok(value),
            Came::Failed(error) => Err(error),
            Came::Cut(_mark) => Err(E::from(Refusal::Unavailable)),
        }
    }
}

/// What a slot's answer comes to, if a look behind the join showed this mark: a task that never came to an end was cut.
pub(crate) fn came_of<V: Drop, E: From<Refusal> + Drop>(
    answer: Result<Result<V, E>, Refusal>,
    shown: &mut Option<Mark>,
) -> Came<V, E>
    ensures same { shown.new ≡ shown.old }
    ensures came { IsCame E.from_gives shown.old answer result }
{
    match answer {
        Ok(Ok(value)) => Came::Value(value),
        Ok(Err(error)) => Came::Failed(error),
        Err(Refusal::Unavailable) => match shown {
            Some(mark) => Came::Cut(mark.again()),
            None => Came::Failed(E::from(Refusal::Unavailable)),
        },
        Err(refusal) => Came::Failed(E::from(refusal)),
    }
}

/// All values in order, or else the first error, or else the first mark.
///
/// # Errors
/// `Memory`, if there is none for the values.
pub fn all_values<V: Drop, E: Drop>(
    alloc: Global,
    found: Vec<Came<V, E>>,
) -> Result<Came<Vec<V>, E>, Refusal>
    ensures { MatchResult result (λ one. AllCame (λ values. values.items) found.items one) (λ refusal. refusal ≡ Memory) }
{
    let mut values = Vec::new(alloc);
    let mut cut = None;
    for came in found {
        match came {
            Came::Value(value) => values.push(value)?,
            Came::Failed(error) => return Ok(Came::Failed(error)),
            Came::Cut(mark) => {
                cut = match cut {
                    Some(first) => Some(first),
                    None => Some(mark),
                };
            }
        }
    }
    match cut {
        Some(mark) => Ok(Came::Cut(mark)),
        None => Ok(Came::Value(values)),
    }
}
