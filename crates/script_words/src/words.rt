ghost use Rattle.std.specs.Prelude.{◌≡◌};
ghost use Rattle.script_words.specs.{name_said, value_said};

use crate::numbers::integer;
use scope_rules::{Name, Value};

/// The name that the word is.
#[tactic(auto, using(crate::proofs::NameWords::name_said_some, crate::proofs::NameWords::name_said_none))]
pub fn name(word: &[u8]) -> Option<Name>
    ensures { result ≡ name_said word.now }
{
    Name::new(word)
}

/// The value that the word is: a number, or else a name.
#[tactic(auto, unfolding(crate::specs::Words::value_said))]
pub fn value(word: &[u8]) -> Option<Value>
    ensures { result ≡ value_said word.now }
{
    match integer(word) {
        Some(number) => Some(Value::Num(number)),
        None => Some(Value::Text(name(word)?)),
    }
}
