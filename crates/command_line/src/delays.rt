//! The delays of a quote: `--after NAME=MS`, as often as it stands.
ghost use Rattle.std.specs.Prelude.{◌≡◌, ◌⊎◌};
ghost use Rattle.command_line.specs.{IfErr, IfOk, IsUsageOrMemory, None, Some, are_apart, delay_of, delays_said, each_said, found_of, is_delayed, map, rows_of, text_of, texts_in};

use crate::faults::LineFault;
use crate::settings::{Delay, Setting, delay_said, refused_value, refused_words};
use clap::ArgMatches;
use scope_rules::Name;
use std::alloc::{AllocError, Global};

/// What is said if two delays are of one offer.
const OFFER_TWICE: &str =
    "error: two of '--after <NAME=MS>' name the same offer\n\nFor more information, try '--help'.\n";

/// The delays that the options of a job say, in order.
///
/// # Errors
/// `Usage` if a text says no name and number, or two name the same offer, `Memory` if memory was refused.
pub fn delays(alloc: Global, matches: &ArgMatches<'_>) -> Result<Vec<Delay>, LineFault>
    ensures said { IfOk result (λ delays.
        delays_said (texts_in (rows_of (found_of matches.now)) Setting.After) ≡ Some (map delay_of delays.items)) }
    ensures refused { IfErr result (λ fault. (fault ≡ LineFault.Memory)
        ⊎ (delays_said (texts_in (rows_of (found_of matches.now)) Setting.After) ≡ None)) }
    ensures told { IfErr result IsUsageOrMemory }
{
    let delays = delays_in(alloc, matches)?;
    if !are_apart(&delays) {
        return Err(refused_words(alloc, OFFER_TWICE));
    }
    Ok(delays)
}

// The delays that the parse has the texts of, in order.
fn delays_in(alloc: Global, matches: &ArgMatches<'_>) -> Result<Vec<Delay>, LineFault>
    ensures said { IfOk result (λ delays.
        each_said (texts_in (rows_of (found_of matches.now)) Setting.After) ≡ Some (map delay_of delays.items)) }
    ensures refused { IfErr result (λ fault. (fault ≡ LineFault.Memory)
        ⊎ (each_said (texts_in (rows_of (found_of matches.now)) Setting.After) ≡ None)) }
    ensures told { IfErr result IsUsageOrMemory }
{
    match matches.get_strs(Setting::After.name()) {
        Some(texts) => each_delay(alloc, texts),
        None => Ok(Vec::new(alloc)),
    }
}

// The delays that the texts say, in order.
fn each_delay(alloc: Global, texts: &[&str]) -> Result<Vec<Delay>, LineFault>
    ensures said { IfOk result (λ delays. each_said (map (λ text. text.now) texts.now) ≡ Some (map delay_of delays.items)) }
    ensures refused { IfErr result (λ fault. (fault ≡ LineFault.Memory) ⊎ (each_said (map (λ text. text.now) texts.now) ≡ None)) }
    ensures told { IfErr result IsUsageOrMemory }
{
    let mut delays = Vec::new(alloc);
    for text in texts {
        match delay_said(text) {
            Some(delay) => match delays.push(delay) {
                Ok(()) => {}
                Err(error) => return Err(AllocError::from(error).into()),
            },
            None => return Err(refused_value(alloc, Setting::After, text)),
        }
    }
    Ok(delays)
}

// Whether no two are of one offer.
#[tactic(auto, unfolding(crate::specs::Delays::are_apart))]
fn are_apart(delays: &[Delay]) -> bool
    ensures { result ≡ are_apart (map delay_of delays.now) }
{
    match delays {
        [] => true,
        [delay, others @ ..] => !is_delayed(others, &delay.name) && are_apart(others),
    }
}

// Whether one of the delays is of the offer.
fn is_delayed(delays: &[Delay], offer: &Name) -> bool
    ensures { result ≡ is_delayed (map delay_of delays.now) (text_of offer.now) }
{
    match delays {
        [] => false,
        [delay, others @ ..] => {
            delay.name.as_str() == offer.as_str() || is_delayed(others, offer)
        }
    }
}
