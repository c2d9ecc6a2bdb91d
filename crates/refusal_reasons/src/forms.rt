//! Whether a word is what a field of a form is to be.
ghost use Rattle.std.specs.Prelude.{◌≡◌};
ghost use Rattle.refusal_reasons.specs.{is_kind, is_open_word};

use script_words::{
    FieldKind, OpenWord, deadline, moment, name, new_deadline, policy, small, value,
};

/// Whether the word is what a field of this kind is to be.
pub(crate) fn is_kind(kind: FieldKind, word: &[u8]) -> bool
    ensures { result ≡ is_kind kind word.now }
{
    match kind {
        FieldKind::Actor | FieldKind::Scope | FieldKind::Task => small(word).is_some(),
        FieldKind::Moment => moment(word).is_some(),
        FieldKind::Deadline => new_deadline(word).is_some(),
        FieldKind::Name => name(word).is_some(),
        FieldKind::Value => value(word).is_some(),
    }
}

/// Whether the word is this one of an open.
#[tactic(auto, using(crate::proofs::FieldsFit::due_is, crate::proofs::FieldsFit::flag_is))]
pub(crate) fn is_open_word(of_open: OpenWord, word: &[u8]) -> bool
    ensures { result ≡ is_open_word of_open word.now }
{
    match of_open {
        OpenWord::Joiner => policy(word).is_some(),
        OpenWord::Deadline => deadline(word).is_some(),
        OpenWord::MoveOn => word == b"move-on".as_slice(),
        OpenWord::Shield => word == b"shield".as_slice(),
    }
}
