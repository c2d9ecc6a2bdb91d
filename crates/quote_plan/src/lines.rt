//! What one line of a plan says.

ghost use Rattle.std.specs.Prelude.{◌≡◌};
ghost use Rattle.quote_plan.specs.{failing_said, fault_said, fields, fields_said, is_runtime_text, line_said, mode_line_said, mode_said, offer_said, price_said, priced_said, words_said};

use crate::plans::{Mode, Offer};
use scope_rules::{Fault, Name, is_runtime_fault};
use script_words::{LINE_LIMIT, just_one, just_three, just_two, moment, name, next_field};

/// How many offers a plan has at the most.
pub const OFFER_LIMIT: usize = 64;

/// The greatest price.
pub const PRICE_LIMIT: u64 = 999999999999;

/// What one line of a plan says by itself.
#[derive(Clone, Copy)]
pub enum PlanLine {
    /// No field, or a comment.
    Silent,
    /// `mode MODE`
    Mode(Mode),
    /// `offer NAME PRICE`, or `offer NAME fail FAULT`
    Offer { name: Name, offer: Offer },
    /// It is in no form.
    BadWord,
}

/// What the line says; it comes without its line feed. One of more than 200 bytes is in no form.
#[tactic(auto, unfolding(crate::specs::PlanLines::line_said))]
pub fn plan_line(line: &[u8]) -> PlanLine
    ensures { result ≡ line_said line.now }
{
    if line.len() > LINE_LIMIT {
        return PlanLine::BadWord;
    }
    read_fields(line)
}

/// What the fields of the text say.
#[tactic(auto, unfolding(crate::specs::PlanLines::fields_said))]
fn read_fields(text: &[u8]) -> PlanLine
    ensures { result ≡ fields_said (fields text.now) }
{
    let Some((word, args)) = next_field(text) else {
        return PlanLine::Silent;
    };
    if let [b'#', ..] = word {
        return PlanLine::Silent;
    }
    match read_words(word, args) {
        Some(line) => line,
        None => PlanLine::BadWord,
    }
}

/// The mode or the offer with this first word and these arguments.
#[tactic(auto, unfolding(crate::specs::PlanLines::words_said))]
fn read_words(word: &[u8], args: &[u8]) -> Option<PlanLine>
    ensures { result ≡ words_said word.now (fields args.now) }
{
    if word == b"mode".as_slice() {
        return mode_line(args);
    }
    if word == b"offer".as_slice() {
        return offer_line(args);
    }
    None
}

/// `mode MODE`
#[tactic(auto, unfolding(crate::specs::PlanLines::mode_line_said))]
fn mode_line(args: &[u8]) -> Option<PlanLine>
    ensures { result ≡ mode_line_said (fields args.now) }
{
    Some(PlanLine::Mode(mode(just_one(args)?)?))
}

/// The mode that the word is.
#[tactic(auto, unfolding(crate::specs::PlanLines::mode_said))]
fn mode(word: &[u8]) -> Option<Mode>
    ensures { result ≡ mode_said word.now }
{
    match word {
        b"best" => Some(Mode::Best),
        b"all" => Some(Mode::All),
        b"first" => Some(Mode::First),
        _ => None,
    }
}

/// `offer NAME PRICE`, or `offer NAME fail FAULT`
#[tactic(auto, unfolding(crate::specs::PlanLines::offer_said))]
fn offer_line(args: &[u8]) -> Option<PlanLine>
    ensures { result ≡ offer_said (fields args.now) }
{
    priced_offer(args).or(failing_offer(args))
}

/// `offer NAME PRICE`
#[tactic(auto, unfolding(crate::specs::PlanLines::priced_said))]
fn priced_offer(args: &[u8]) -> Option<PlanLine>
    ensures { result ≡ priced_said (fields args.now) }
{
    let (name_word, word) = just_two(args)?;
    Some(PlanLine::Offer {
        name: name(name_word)?,
        offer: Offer::Price(price(word)?),
    })
}

/// The price that the word is.
#[tactic(auto, unfolding(crate::specs::PlanLines::price_said))]
pub(crate) fn price(word: &[u8]) -> Option<i64>
    ensures { result ≡ price_said word.now }
{
    let number = moment(word)?;
    if number > PRICE_LIMIT {
        return None;
    }
    Some(number as i64)
}

/// `offer NAME fail FAULT`
#[tactic(auto, unfolding(crate::specs::PlanLines::failing_said))]
fn failing_offer(args: &[u8]) -> Option<PlanLine>
    ensures { result ≡ failing_said (fields args.now) }
{
    let (name_word, word, fault_word) = just_three(args)?;
    if word != b"fail".as_slice() {
        return None;
    }
    Some(PlanLine::Offer {
        name: name(name_word)?,
        offer: Offer::Fails(fault(fault_word)?),
    })
}

/// The fault that the word is: none that the runtime itself makes.
#[tactic(auto, unfolding(crate::specs::PlanLines::fault_said))]
fn fault(word: &[u8]) -> Option<Fault>
    ensures { result ≡ fault_said word.now }
{
    match Fault(name(word)?) {
        fault if is_made_by_runtime(&fault) => None,
        fault => Some(fault),
    }
}

/// Whether the runtime itself makes the fault.
pub(crate) fn is_made_by_runtime(fault: &Fault) -> bool
    ensures { result ≡ is_runtime_text fault.now }
{
    is_runtime_fault(fault)
}
