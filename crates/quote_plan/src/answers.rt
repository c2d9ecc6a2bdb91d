//! What the gateway answers, and the line that says it.

ghost use Rattle.std.specs.Prelude.{◌≡◌};
ghost use Rattle.quote_plan.specs.{IfOk, Some, answer_text, quotes_text, string_bytes};

use scope_rules::{Fault, Name};
use std::alloc::{AllocError, Global};
use std::fmt;
use std::marker::Model;

/// An offer's name, and its price.
#[derive(Clone, Copy)]
pub struct Quote {
    pub name: Name,
    pub price: i64,
}

/// Offers with their prices, in the plan's order.
#[derive(Drop)]
pub struct Quotes {
    items: Vec<Quote>,
}

impl Model for Quotes {
    ghost use Rattle.std.specs.Prelude.{List};
    ghost use Rattle.quote_plan.specs.declared.answers.Quote.{Quote};

    ghost Value = { List Quote };

    ghost view = { λ q. q.items.items };
}

impl Quotes {
    pub fn new(items: Vec<Quote>) -> Quotes
        ensures { result ≡ items.items }
    {
        Quotes { items }
    }

    pub fn as_slice(&self) -> &[Quote]
        ensures { result.now ≡ self.now }
    {
        &self.items
    }
}

/// What the gateway answers.
#[derive(Drop)]
pub enum Answer {
    /// In mode `best`: the least price, the first listed of equals.
    Best(Quote),
    /// In mode `best`: no offer has a price.
    NoPrice,
    /// In mode `all`: the prices of all offers.
    All(Quotes),
    /// In mode `first`: an offer with a price.
    First(Quote),
    /// In the modes `all` and `first`: an offer that fails, with its fault.
    Failed { name: Name, fault: Fault },
    /// In mode `first`: there are no offers.
    Empty,
    /// After the deadline: the prices that were there by then.
    Partial(Quotes),
}

impl Answer {
    /// The answer's line, without the line feed; refused for want of memory alone.
    pub fn text(&self, alloc: Global) -> Result<String, AllocError>
        ensures { IfOk result (λ text. string_bytes text ≡ answer_text self.now) }
    {
        format!(in alloc; "{self}")
    }
}

/// The answer's line, without the line feed.
impl fmt::Display for Answer {
    ghost output = { λ a. Some (answer_text a) };

    #[tactic(auto, unfolding(crate::specs::AnswerText::answer_text))]
    fn fmt<W: fmt::Write>(&self, f: &mut fmt::Formatter<W>) -> fmt::Result {
        match self {
            Answer::Best(quote) => write!(f, "best {} {}", quote.name, quote.price),
            Answer::NoPrice => f.write_str("none"),
            Answer::All(quotes) => write!(f, "all{quotes}"),
            Answer::First(quote) => write!(f, "first {} {}", quote.name, quote.price),
            Answer::Failed { name, fault } => write!(f, "failed {name} {fault}"),
            Answer::Empty => f.write_str("empty"),
            Answer::Partial(quotes) => write!(f, "partial{quotes}"),
        }
    }
}

/// The offers with their prices, each after a space: `NAME=PRICE`.
impl fmt::Display for Quotes {
    ghost output = { λ q. Some (quotes_text q) };

    #[tactic(auto, unfolding(crate::specs::AnswerText::quotes_text))]
    fn fmt<W: fmt::Write>(&self, f: &mut fmt::Formatter<W>) -> fmt::Result {
        for quote in self.as_slice() {
            write!(f, " {}={}", quote.name, quote.price)?;
        }
        Ok(())
    }
}
