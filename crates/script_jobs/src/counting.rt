//! How much of a script was understood.
ghost use Rattle.std.specs.Prelude.{◌≡◌};
ghost use Rattle.script_jobs.specs.{count_in, history_of, is_refused, is_untouched, no_refusals, one_more, with_bad_word, with_reply};

use realm_state::RealmState;
use scope_script::{Ran, Reply, Tally};

/// How many lines of a script were refused, and whether it looks like another kind of text.
#[derive(Clone, Copy, Debug, PartialEq, Eq)]
pub struct Count {
    /// How many lines were refused, and how many of them are no commands.
    pub tally: Tally,
    /// Lines were refused, all of them are no commands, and no other line recorded anything.
    pub is_foreign: bool,
}

/// Whether nothing was ever recorded in the realm.
fn is_untouched(realm: &RealmState) -> bool
    ensures { result ≡ is_untouched realm.now.history }
{
    let base = realm.base();
    realm.event_count() == 0
        && base.moment() == 0
        && base.scopes() == 0
        && base.tasks() == 0
        && base.binds().is_empty()
}

/// What there is to count of a script that left this realm, and of which so many lines were refused.
pub(crate) fn count_in(tally: Tally, realm: &RealmState) -> Count
    ensures { result ≡ count_in tally realm.now.history }
{
    let is_foreign = tally.refused > 0 && tally.refused == tally.bad_words && is_untouched(realm);
    Count { tally, is_foreign }
}

/// What there is to count of a run.
pub(crate) fn count_of(ran: &Ran) -> Count
    ensures { result ≡ count_in ran.now.tally (history_of ran.now.book) }
{
    count_in(ran.tally, ran.book.realm())
}

// ---- line by line

/// No line was refused.
pub(crate) fn no_refusals() -> Tally
    ensures { result ≡ no_refusals }
{
    Tally {
        refused: 0,
        bad_words: 0,
    }
}

/// One line more is no command.
pub(crate) fn with_bad_word(tally: Tally) -> Tally
    ensures { result ≡ with_bad_word tally }
{
    Tally {
        refused: one_more(tally.refused),
        bad_words: one_more(tally.bad_words),
    }
}

/// One command more was answered this.
pub(crate) fn with_reply(tally: Tally, reply: &Reply) -> Tally
    ensures { result ≡ with_reply tally reply.now }
{
    if is_refused(reply) {
        Tally {
            refused: one_more(tally.refused),
            bad_words: tally.bad_words,
        }
    } else {
        tally
    }
}

fn is_refused(reply: &Reply) -> bool
    ensures { result ≡ is_refused reply.now }
{
    matches!(reply, Reply::Refused(_))
}

/// A count that stops at 2^64 - 1.
pub(crate) fn one_more(count: u64) -> u64
    ensures { result ≡ one_more count }
{
    if count == u64::MAX { count } else { count + 1 }
}
