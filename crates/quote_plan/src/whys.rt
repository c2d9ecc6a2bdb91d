//! Why a line of a plan is a bad one.

ghost use Rattle.std.specs.Prelude.{◌≡◌, ◌≤◌};
ghost use Rattle.quote_plan.specs.{fields, is_none, is_some, length, offer_said, why_of_bytes, why_of_end, why_of_fault, why_of_fields, why_of_offer, why_of_price, words_of};

use crate::lines::{is_made_by_runtime, price};
use scope_rules::Fault;
use script_words::{LINE_LIMIT, just_one, just_two, name, next_field};
use std::fmt;

/// Why a line may not stand where it stands in a plan. The causes after `ModeWanted` come only if a mode
/// was said before.
#[derive(Clone, Copy, Debug, PartialEq, Eq)]
pub enum PlanWhy {
    /// It has a carriage return.
    CarriageReturn,
    /// It has a tab, and no carriage return.
    Tab,
    /// It has more than `LINE_LIMIT` bytes, and neither of those.
    TooLong,
    /// There is no such line: the plan ended, and no line said a mode.
    NoMode,
    /// It is the last one, and no line feed ends it, whatever it holds.
    NoLineFeed,
    /// No mode was said before, and it is not `mode best`, `mode all` or `mode first`.
    ModeWanted,
    /// Its first field is `mode`.
    ModeSaidBefore,
    /// It is an offer in a good form, and `OFFER_LIMIT` offers are above.
    TooManyOffers,
    /// It is an offer in a good form, and one of less than `OFFER_LIMIT` above has its name.
    NamedBefore,
    /// Its first field is `offer`, and the second is no name.
    BadName,
    /// It is `offer NAME WORD`, and the word is no price.
    BadPrice,
    /// It is `offer NAME fail WORD`, and the word is no name.
    BadFault,
    /// It is `offer NAME fail WORD`, and the word is a fault that the runtime itself makes.
    RuntimeFault,
    /// It is in no form for any other cause.
    NoForm,
}

impl PlanWhy {
    /// The cause in words: ASCII, without a line's end.
    pub fn words(self) -> &'static str
        ensures words { result.now ≡ words_of self }
        ensures short { length result.now ≤ 90 }
    {
        match self {
            PlanWhy::CarriageReturn => "a carriage return: a line ends in a line feed alone",
            PlanWhy::Tab => "a tab: fields stand between spaces",
            PlanWhy::TooLong => "more than 200 bytes",
            PlanWhy::NoMode => "no line says a mode",
            PlanWhy::NoLineFeed => "no line feed at its end",
            PlanWhy::ModeWanted => {
                "the first line says the mode: mode best, mode all or mode first"
            }
            PlanWhy::ModeSaidBefore => "the mode was said before",
            PlanWhy::TooManyOffers => "more than 64 offers",
            PlanWhy::NamedBefore => "an offer above has that name",
            PlanWhy::BadName => {
                "a name is 1 to 24 of a..z, 0..9, -, _ and ., and begins with a..z"
            }
            PlanWhy::BadPrice => "a price is a whole number from 0 to 999999999999",
            PlanWhy::BadFault => "a fault is a name",
            PlanWhy::RuntimeFault => "that fault is made by the runtime alone",
            PlanWhy::NoForm => "neither mode MODE, offer NAME PRICE nor offer NAME fail FAULT",
        }
    }
}

/// The cause in words.
impl fmt::Display for PlanWhy {
    ghost use Rattle.std.specs.Prelude.{Some};
    ghost use Rattle.quote_plan.specs.PlanWhys.{words_of};

    ghost output = { λ w. Some (words_of w) };

    fn fmt<W: fmt::Write>(&self, f: &mut fmt::Formatter<W>) -> fmt::Result {
        write!(f, "{}", self.words())
    }
}

/// What is wrong with the line's bytes, whatever they say; `None` if nothing is.
#[tactic(auto, unfolding(crate::specs::PlanWhys::why_of_bytes))]
pub(crate) fn why_of_bytes(line: &[u8]) -> Option<PlanWhy>
    ensures { result ≡ why_of_bytes line.now }
{
    if line.contains(&b'\r') {
        return Some(PlanWhy::CarriageReturn);
    }
    if line.contains(&b'\t') {
        return Some(PlanWhy::Tab);
    }
    if line.len() > LINE_LIMIT {
        return Some(PlanWhy::TooLong);
    }
    None
}

/// What is wrong with the fields of a bad line after the mode was said; `None` if they are an offer in a
/// good form.
#[tactic(auto, unfolding(crate::specs::PlanWhys::why_of_fields))]
pub(crate) fn why_of_fields(text: &[u8]) -> Option<PlanWhy>
    ensures { result ≡ why_of_fields (fields text.now) }
{
    let Some((word, args)) = next_field(text) else {
        return Some(PlanWhy::NoForm);
    };
    if word == b"mode".as_slice() {
        return Some(PlanWhy::ModeSaidBefore);
    }
    if word == b"offer".as_slice() {
        return why_of_offer(args);
    }
    Some(PlanWhy::NoForm)
}

/// What is wrong with what comes after `offer`; `None` if it is in a good form.
#[tactic(auto, unfolding(crate::specs::PlanWhys::why_of_offer))]
fn why_of_offer(args: &[u8]) -> Option<PlanWhy>
    ensures why { result ≡ why_of_offer (fields args.now) }
    ensures good { is_none result ≡ is_some (offer_said (fields args.now)) }
{
    let Some((word, end)) = next_field(args) else {
        return Some(PlanWhy::NoForm);
    };
    if name(word).is_none() {
        return Some(PlanWhy::BadName);
    }
    why_of_end(end)
}

/// What is wrong with what comes after an offer's name.
#[tactic(auto, using(crate::proofs::OfferEnds::end_by_counts))]
fn why_of_end(end: &[u8]) -> Option<PlanWhy>
    ensures { result ≡ why_of_end (fields end.now) }
{
    if let Some(word) = just_one(end) {
        return why_of_price(word);
    }
    match just_two(end) {
        Some((word, fault)) if word == b"fail".as_slice() => why_of_fault(fault),
        _ => Some(PlanWhy::NoForm),
    }
}

/// What is wrong with the word for a price.
#[tactic(auto, unfolding(crate::specs::PlanWhys::why_of_price))]
fn why_of_price(word: &[u8]) -> Option<PlanWhy>
    ensures { result ≡ why_of_price word.now }
{
    match price(word) {
        Some(_) => None,
        None => Some(PlanWhy::BadPrice),
    }
}

/// What is wrong with the word for a fault.
#[tactic(auto, unfolding(crate::specs::PlanWhys::why_of_fault))]
fn why_of_fault(word: &[u8]) -> Option<PlanWhy>
    ensures { result ≡ why_of_fault word.now }
{
    match name(word) {
        Some(name) if is_made_by_runtime(&Fault(name)) => Some(PlanWhy::RuntimeFault),
        Some(_) => None,
        None => Some(PlanWhy::BadFault),
    }
}
