//! What a plan is.

ghost use Rattle.std.specs.Prelude.{◌↔◌, ◌≡◌};
ghost use Rattle.quote_plan.specs.{IsTrue, Some, end_of, label_of, labels_of, length, policy_of, slice_get};

use indexmap::IndexMap;
use scope_rules::{End, Fault, Label, Name, Policy, Value};
use std::marker::Model;

/// What a plan asks of its offers.
#[derive(Clone, Copy, Debug, PartialEq, Eq)]
pub enum Mode {
    /// The least price, once all offers have ended.
    Best,
    /// All prices, or an offer that fails.
    All,
    /// A price, or else an offer that fails.
    First,
}

impl Mode {
    /// The joiner of the scope in which the offers' jobs run.
    pub fn policy(self) -> Policy
        ensures { result ≡ policy_of self }
    {
        match self {
            Mode::Best => Policy::AwaitAll,
            Mode::All => Policy::All,
            Mode::First => Policy::Any,
        }
    }
}

/// How the job of an offer is to end.
#[derive(Clone, Copy, PartialEq, Eq)]
pub enum Offer {
    /// With this price.
    Price(i64),
    /// With this fault.
    Fails(Fault),
}

impl Offer {
    /// The end that the offer's job is to have.
    pub fn end(self) -> End
        ensures { result ≡ end_of self }
    {
        match self {
            Offer::Price(price) => Ok(Value::Num(price)),
            Offer::Fails(fault) => Err(fault),
        }
    }
}

/// A mode, and offers by their names, in the order of their lines.
#[derive(Drop)]
pub struct Plan {
    mode: Mode,
    offers: IndexMap<Name, Offer>,
}

impl Model for Plan {
    ghost use Rattle.quote_plan.specs.Plans.{PlanValue};

    ghost Value = { PlanValue };

    ghost view = { λ p. record { mode = p.mode; offers = p.offers.entries } };
}

impl Plan {
    /// The plan of this mode and these offers.
    pub(crate) fn new(mode: Mode, offers: IndexMap<Name, Offer>) -> Plan
        ensures { result ≡ record { mode = mode; offers = offers.entries } }
    {
        Plan { mode, offers }
    }

    /// What the plan asks of its offers.
    pub fn mode(&self) -> Mode
        ensures { result ≡ self.now.mode }
    {
        self.mode
    }

    /// How many offers there are.
    pub fn len(&self) -> usize
        ensures { result ≡ length self.now.offers }
    {
        self.offers.len()
    }

    /// Whether there are no offers.
    pub fn is_empty(&self) -> bool
        ensures { IsTrue result ↔ (length self.now.offers ≡ 0) }
    {
        self.offers.is_empty()
    }

    /// The offer at this place, with its name; places are counted from 0.
    pub fn named_at(&self, index: usize) -> Option<(Name, Offer)>
        ensures { result ≡ slice_get self.now.offers index }
    {
        let (name, offer) = self.offers.get_index(index)?;
        Some((*name, *offer))
    }

    /// The label of the job of the offer at this place: the offer's name, and its end as the one that is
    /// expected.
    pub fn label_at(&self, index: usize) -> Option<Label>
        ensures { result ≡ slice_get (labels_of self.now) index }
    {
        let (name, offer) = self.named_at(index)?;
        Some(Label {
            name,
            due: Some(offer.end()),
        })
    }

    /// Whether this is the label of the job of the offer at this place.
    pub fn is_label_at(&self, index: usize, label: &Label) -> bool
        ensures { IsTrue result ↔ (slice_get (labels_of self.now) index ≡ Some label.now) }
    {
        match self.named_at(index) {
            Some((name, offer)) => name.is_same(&label.name) && label.expects(&offer.end()),
            None => false,
        }
    }
}
