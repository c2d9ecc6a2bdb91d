ghost use Rattle.std.specs.Prelude.{◌<◌, ◌↔◌, ◌≡◌, ◌≤◌, IfSome, IsSome, IsTrue, Some, length};
ghost use Rattle.std.specs.List.{list_all};
ghost use Rattle.scope_rules.specs.NameText.{begins_with_letter, is_inner, is_letter, is_name, is_stored};

use std::str;

/// How many bytes a name has at the most.
pub const NAME_LIMIT: usize = 24;

/// A name of 1 to 24 bytes: the first in `a`..`z`, the others in `a`..`z`, `0`..`9`, `-`, `_`, `.`.
/// It is kept inline, and the bytes after its text are 0, so that equal texts are equal names.
#[derive(Clone, Copy, PartialEq, Eq, Hash)]
pub struct Name {
    len: u8,
    bytes: [u8; NAME_LIMIT],
    ghost stored: { ∥ IsTrue (is_stored len bytes) ∥₁ },
}

impl Name {
    ghost use Rattle.scope_rules.specs.Names.{text_of, same_name};

    /// The name with this text, if it may be one.
    pub fn new(text: &[u8]) -> Option<Name>
        ensures named { IsSome result ↔ IsTrue (is_name text.now) }
        ensures text { IfSome result (λ name. text_of name ≡ text.now) }
    {
        if !is_name(text) {
            return None;
        }
        let mut bytes = [0; NAME_LIMIT];
        for i in 0..text.len() {
            bytes[i] = text[i];
        }
        Some(Name {
            len: text.len() as u8,
            bytes,
        })
    }

    /// The name with this text, which is one: it is written in the source, say. A text that is none, the
    /// prover refuses. If it computes the text of a literal, the function says
    /// `#[tactic(auto, unfolding(scope_rules::specs::NameText::is_name))]`.
    pub fn literal(text: &[u8]) -> Name
        requires { IsTrue (is_name text.now) }
        ensures { text_of result ≡ text.now }
    {
        match Name::new(text) {
            Some(name) => name,
            None => unreachable!(),
        }
    }

    /// The text, of ASCII bytes.
    pub fn as_bytes(&self) -> &[u8]
        ensures { result.now ≡ text_of self.now }
    {
        let len = usize::from(self.len).min(NAME_LIMIT);
        &self.bytes[..len]
    }

    /// The text.
    pub fn as_str(&self) -> &str
        ensures { result.now ≡ text_of self.now }
    {
        let Ok(text) = str::from_utf8(self.as_bytes()) else {
            unreachable!();
        };
        text
    }

    /// Whether the two names are one.
    pub fn is_same(&self, other: &Name) -> bool
        ensures tested { result ≡ same_name self.now other.now }
        ensures same { IsTrue result ↔ (self.now ≡ other.now) }
    {
        self.as_bytes() == other.as_bytes()
    }
}

/// Whether the text may be a name.
#[tactic(auto, unfolding(crate::specs::NameText::is_name))]
pub fn is_name(text: &[u8]) -> bool
    ensures tested { result ≡ is_name text.now }
    ensures fits { IsTrue result → length text.now ≤ NAME_LIMIT }
{
    text.len() <= NAME_LIMIT && begins_with_letter(text) && has_inner_alone(text)
}

/// Whether the text begins with a letter of `a`..`z`.
fn begins_with_letter(text: &[u8]) -> bool
    ensures { result ≡ begins_with_letter text.now }
{
    match text.first() {
        Some(first) => is_letter(*first),
        None => false,
    }
}

/// Whether the text has only bytes that may be in a name.
fn has_inner_alone(text: &[u8]) -> bool
    ensures { result ≡ list_all is_inner text.now }
{
    text.iter().all(|byte| is_inner(*byte))
}

/// Whether the byte may be in a name after its first.
fn is_inner(byte: u8) -> bool
    ensures { result ≡ is_inner byte }
{
    is_letter(byte)
        || (byte >= b'0' && byte <= b'9')
        || byte == b'-'
        || byte == b'_'
        || byte == b'.'
}

/// Whether the byte is in `a`..`z`.
fn is_letter(byte: u8) -> bool
    ensures { result ≡ is_letter byte }
{
    byte >= b'a' && byte <= b'z'
}
