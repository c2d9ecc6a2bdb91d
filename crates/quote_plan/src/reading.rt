//! How a plan is read.

ghost use Rattle.std.specs.Prelude.{◌++◌, ◌∷◌, ◌≡◌};
ghost use Rattle.quote_plan.specs.{[], CauseIn, FaultIn, IfErr, IfOk, IsSome, IsTrue, MatchOption, MatchResult, Ok, OnErr, OnOk, PlanLine, SayPlan, false, is_named, lines_of};
ghost use Rattle.quote_plan.specs.{may_come, offer_in, true, why_of, with_line};

use crate::cutting::first_line;
use crate::lines::{OFFER_LIMIT, PlanLine, plan_line};
use crate::plans::{Mode, Offer, Plan};
use crate::whys::{PlanWhy, why_of_bytes, why_of_fields};
use indexmap::IndexMap;
use scope_rules::Name;
use std::alloc::{AllocError, Global};
use std::marker::Model;
use thiserror::Error;

/// Why a plan was not read.
#[derive(Clone, Copy, Debug, PartialEq, Eq, Error)]
pub enum PlanFault {
    /// This line is the first bad one, counted from 1, for this cause; if no line says a mode and none
    /// is bad, it is the line after the last.
    #[error("plan line {line}: {why}")]
    Word { line: usize, why: PlanWhy },
    /// Memory was refused.
    #[error("memory was refused")]
    Memory,
}

/// The plan that the bytes are.
pub fn read_plan(alloc: Global, bytes: &[u8]) -> Result<Plan, PlanFault>
    ensures read { MatchResult result (λ plan. SayPlan (lines_of bytes.now) plan) (λ fault. FaultIn (lines_of bytes.now) fault) }
    ensures why { IfErr result (CauseIn bytes.now) }
{
    let mut reading = Reading::new(alloc);
    let mut line = 0;
    let mut rest = bytes;
    while let Some((text, others)) = first_line(rest) {
        line += 1;
        match reading.take(plan_line(text)) {
            Ok(true) => rest = others,
            Ok(false) => {
                let why = reading.why(text);
                return Err(PlanFault::Word { line, why });
            }
            Err(_) => return Err(PlanFault::Memory),
        }
    }
    if !rest.is_empty() {
        return Err(PlanFault::Word {
            line: line + 1,
            why: PlanWhy::NoLineFeed,
        });
    }
    match reading.plan() {
        Some(plan) => Ok(plan),
        None => Err(PlanFault::Word {
            line: line + 1,
            why: PlanWhy::NoMode,
        }),
    }
}

/// Whether one of the offers has the name.
fn is_named(offers: &IndexMap<Name, Offer>, name: &Name) -> bool
    ensures { result ≡ is_named name.now offers.now.entries }
{
    offers.contains_key(name)
}

/// Puts an offer of a new name behind the others. Refused for want of memory alone.
fn put(offers: &mut IndexMap<Name, Offer>, name: Name, offer: Offer) -> Result<(), AllocError>
    requires { is_named name offers.old.entries ≡ false }
    ensures { OnOk result (offers.new.entries ≡ offers.old.entries ++ (name, offer) ∷ []) }
{
    offers.insert(name, offer)?;
    Ok(())
}

/// What was read so far of a plan.
#[derive(Drop)]
pub(crate) struct Reading {
    mode: Option<Mode>,
    offers: IndexMap<Name, Offer>,
}

impl Model for Reading {
    ghost use Rattle.std.specs.Option.{option_to_list};
    ghost use Rattle.quote_plan.specs.ReadSoFar.{ReadingValue};

    ghost Value = { ReadingValue };

    ghost view = { λ r. record { modes = option_to_list r.mode; offers = r.offers.entries } };
}

impl Reading {
    /// Nothing read yet.
    pub(crate) fn new(alloc: Global) -> Reading
        ensures modes { result.modes ≡ [] }
        ensures offers { result.offers ≡ [] }
    {
        Reading {
            mode: None,
            offers: IndexMap::new(alloc),
        }
    }

    /// Whether the line may come next; if so, it is taken. Refused for want of memory alone.
    pub(crate) fn take(&mut self, line: PlanLine) -> Result<bool, AllocError>
        ensures tested { IfOk result (λ good. good ≡ may_come self.old line) }
        ensures taken { result ≡ Ok true → self.new ≡ with_line self.old line }
        ensures left { result ≡ Ok false → self.new ≡ self.old }
        ensures refused { OnErr result (IsTrue (may_come self.old line) × IsSome (offer_in line)) }
    {
        match line {
            PlanLine::Silent => Ok(true),
            PlanLine::Mode(mode) => Ok(self.take_mode(mode)),
            PlanLine::Offer { name, offer } => self.take_offer(name, offer),
            PlanLine::BadWord => Ok(false),
        }
    }

    /// Whether no mode was said yet; if so, it is this one.
    fn take_mode(&mut self, mode: Mode) -> bool
        ensures tested { result ≡ may_come self.old (PlanLine.Mode mode) }
        ensures taken { IsTrue result → self.new ≡ with_line self.old (PlanLine.Mode mode) }
        ensures left { result ≡ false → self.new ≡ self.old }
    {
        if self.mode.is_some() {
            return false;
        }
        self.mode = Some(mode);
        true
    }

    /// Whether this offer may come next; if so, it is taken.
    fn take_offer(&mut self, name: Name, offer: Offer) -> Result<bool, AllocError>
        ensures tested { IfOk result (λ good. good ≡ may_come self.old (PlanLine.Offer name offer)) }
        ensures taken { result ≡ Ok true → self.new ≡ with_line self.old (PlanLine.Offer name offer) }
        ensures left { result ≡ Ok false → self.new ≡ self.old }
        ensures refused { OnErr result (IsTrue (may_come self.old (PlanLine.Offer name offer))) }
    {
        if self.mode.is_none()
            || self.offers.len() >= OFFER_LIMIT
            || is_named(&self.offers, &name)
        {
            return Ok(false);
        }
        put(&mut self.offers, name, offer)?;
        Ok(true)
    }

    /// Why a bad line of this text may not come next; it comes without its line feed.
    #[tactic(auto, unfolding(crate::specs::PlanWhys::why_of))]
    pub(crate) fn why(&self, text: &[u8]) -> PlanWhy
        ensures { result ≡ why_of self.now.modes self.now.offers text.now }
    {
        if let Some(why) = why_of_bytes(text) {
            return why;
        }
        if self.mode.is_none() {
            return PlanWhy::ModeWanted;
        }
        match why_of_fields(text) {
            Some(why) => why,
            None if self.offers.len() >= OFFER_LIMIT => PlanWhy::TooManyOffers,
            None => PlanWhy::NamedBefore,
        }
    }

    /// The plan that was read; `None` if no line said a mode.
    pub(crate) fn plan(self) -> Option<Plan>
        ensures { MatchOption result (self.modes ≡ []) (λ plan. (self.modes ≡ plan.mode ∷ []) × (self.offers ≡ plan.offers)) }
    {
        let mode = self.mode?;
        Some(Plan::new(mode, self.offers))
    }
}
