//! The fields of each form behind its first word.
ghost use Rattle.std.specs.Prelude.{◌≡◌};
ghost use Rattle.script_words.specs.{slots};

use crate::keywords::Keyword;

/// What a field is to be.
#[derive(Clone, Copy)]
pub enum FieldKind {
    /// A number of 32 bits: main is 0, and a task its number.
    Actor,
    /// A number of 32 bits.
    Scope,
    /// A number of 32 bits.
    Task,
    /// A number of 64 bits.
    Moment,
    /// A number of 64 bits, or `never`.
    Deadline,
    /// A name.
    Name,
    /// A number of an `i64`, or a name.
    Value,
}

/// A word of an open.
#[derive(Clone, Copy)]
pub enum OpenWord {
    Joiner,
    Deadline,
    MoveOn,
    Shield,
}

/// A field of a form.
#[derive(Clone, Copy)]
pub enum Slot {
    /// It must be there.
    Must(FieldKind),
    /// It may be there.
    May(OpenWord),
}

const ACTOR: Slot = Slot::Must(FieldKind::Actor);

const SCOPE: Slot = Slot::Must(FieldKind::Scope);

const TASK: Slot = Slot::Must(FieldKind::Task);

const NAME: Slot = Slot::Must(FieldKind::Name);

const VALUE: Slot = Slot::Must(FieldKind::Value);

/// The fields of the form behind its first word.
pub fn slots(form: Keyword) -> &'static [Slot]
    ensures { result.now ≡ slots form }
{
    match form {
        Keyword::Open => &[
            ACTOR,
            Slot::May(OpenWord::Joiner),
            Slot::May(OpenWord::Deadline),
            Slot::May(OpenWord::MoveOn),
            Slot::May(OpenWord::Shield),
        ],
        Keyword::Fork => &[ACTOR, SCOPE, NAME],
        Keyword::Bind => &[ACTOR, NAME, VALUE],
        Keyword::Succeed => &[TASK, VALUE],
        Keyword::Fail => &[TASK, NAME],
        Keyword::Move => &[SCOPE, Slot::Must(FieldKind::Deadline)],
        Keyword::Tick => &[Slot::Must(FieldKind::Moment)],
        Keyword::Get => &[ACTOR, NAME],
        Keyword::Join | Keyword::Close | Keyword::Closed => &[ACTOR, SCOPE],
        Keyword::ResultOf | Keyword::FaultOf => &[ACTOR, TASK],
        Keyword::Unbind | Keyword::Retire => &[ACTOR],
        Keyword::Cancel | Keyword::Cause | Keyword::Until | Keyword::Counts => &[SCOPE],
        Keyword::Reject | Keyword::Start | Keyword::State | Keyword::Stage => &[TASK],
    }
}
