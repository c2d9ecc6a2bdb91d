//! Names that are written in the source.
ghost use Rattle.std.specs.Prelude.{◌≡◌, IsTrue};
ghost use Rattle.balkreyn.specs.{is_written, text_of};

use scope_rules::Name;

/// The name with this text, as `Name::literal` gives it: 1 to 24 bytes, the first a letter from `a` to `z`, the others
/// such letters, digits, `-`, `_` and `.`. The check refuses any other text.
#[tactic(auto, unfolding(scope_rules::specs::NameText::is_name))]
pub fn named(text: &[u8]) -> Name
    requires { IsTrue (is_written text.now) }
    ensures { text_of result ≡ text.now }
{
    Name::literal(text)
}
