//! What the numbers of an open say.

ghost use Rattle.std.specs.Prelude.{◌≡◌};
ghost use Rattle.balkreyn_c.specs.{opening_of, options_of, policy_of, small};

use scope_rules::{Actor, Event, Expiry, Options, Policy, Rule};

/// A number of 32 bits.
fn small(number: i64) -> Option<u32>
    ensures { result ≡ small number }
{
    if 0 <= number && number < 4294967296 {
        Some(number as u32)
    } else {
        None
    }
}

/// The joiner of the number.
fn policy_of(joiner: u32, bound: i64) -> Option<Policy>
    ensures { result ≡ policy_of joiner bound }
{
    match joiner {
        0 => Some(Policy::AwaitOk),
        1 => Some(Policy::All),
        2 => Some(Policy::Any),
        3 => Some(Policy::AwaitAll),
        4 => Some(Policy::Until(Rule::FailuresAtLeast(small(bound)?))),
        5 => Some(Policy::Until(Rule::SuccessesAtLeast(small(bound)?))),
        6 => Some(Policy::Until(Rule::SumAtLeast(bound))),
        _ => None,
    }
}

/// What the flags say.
fn options_of(flags: u32, deadline: u64) -> Option<Options>
    ensures { result ≡ options_of flags deadline }
{
    if 8 <= flags {
        return None;
    }
    Some(Options {
        deadline: if flags % 2 == 1 { Some(deadline) } else { None },
        shield: flags / 4 % 2 == 1,
        expiry: if flags / 2 % 2 == 1 {
            Expiry::MoveOn
        } else {
            Expiry::Fail
        },
    })
}

/// The event of the open.
pub fn opening_of(actor: Actor, joiner: u32, bound: i64, flags: u32, deadline: u64) -> Option<Event>
    ensures { result ≡ opening_of actor joiner bound flags deadline }
{
    let policy = policy_of(joiner, bound)?;
    let options = options_of(flags, deadline)?;
    Some(Event::Open {
        actor,
        policy,
        options,
    })
}
