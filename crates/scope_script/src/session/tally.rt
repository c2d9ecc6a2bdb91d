ghost use Rattle.std.specs.Prelude.{◌≡◌};
ghost use Rattle.scope_script.specs.{is_refused, no_refusals, one_more, with_bad_word, with_reply};

use script_words::Reply;

/// How many lines of a script were refused.
#[derive(Clone, Copy, Debug, PartialEq, Eq)]
pub struct Tally {
    /// All that were refused; the count stops at `u64::MAX`.
    pub refused: u64,
    /// Those of them that say no command, and so are answered `refused 18 bad-word`.
    pub bad_words: u64,
}

impl Tally {
    /// Of a script that begins.
    pub(crate) const NONE: Tally = Tally {
        refused: 0,
        bad_words: 0,
    };

    /// One line more says no command.
    pub(crate) fn with_bad_word(self) -> Tally
        ensures { result ≡ with_bad_word self }
    {
        Tally {
            refused: one_more(self.refused),
            bad_words: one_more(self.bad_words),
        }
    }

    /// One command more was answered this.
    pub(crate) fn with_reply(self, reply: &Reply) -> Tally
        ensures { result ≡ with_reply self reply.now }
    {
        if is_refused(reply) {
            Tally {
                refused: one_more(self.refused),
                bad_words: self.bad_words,
            }
        } else {
            self
        }
    }
}

fn is_refused(reply: &Reply) -> bool
    ensures { result ≡ is_refused reply.now }
{
    matches!(reply, Reply::Refused(_))
}

fn one_more(count: u64) -> u64
    ensures { result ≡ one_more count }
{
    if count == u64::MAX { count } else { count + 1 }
}
