//! A plan that comes piece by piece.

ghost use Rattle.std.specs.Prelude.{◌++◌, ◌∷◌, ◌≡◌};
ghost use Rattle.quote_plan.specs.{[], ℕ, HasNoFeed, HasTaken, IfErr, List, MatchResult, NamesLine, OnOk, Passed, SayPlan, StandsFor, lines_of};

use crate::begun::go_on;
use crate::cutting::first_line;
use crate::lines::plan_line;
use crate::plans::Plan;
use crate::reading::{PlanFault, Reading};
use crate::whys::PlanWhy;
use std::alloc::Global;
use std::marker::Model;

/// A plan under way: what its lines said so far, and what is kept of the line that is begun. It takes memory for the
/// offers and for at most 203 bytes of that line, and names the first bad line as soon as it has ended, whatever comes
/// after it.
#[derive(Drop)]
pub struct PlanReader {
    reading: Reading,
    number: usize,
    begun: Vec<u8>,
}

impl Model for PlanReader {
    ghost use Rattle.quote_plan.specs.Passing.{PlanSoFar};

    ghost Value = { PlanSoFar };

    ghost view = { λ r. record { number = r.number; reading = r.reading; begun = r.begun.items } };
}

impl PlanReader {
    /// A plan of which nothing was read yet.
    pub fn new(alloc: Global) -> PlanReader
        ensures { HasTaken result [] }
    {
        PlanReader {
            reading: Reading::new(alloc),
            number: 1,
            begun: Vec::new(alloc),
        }
    }

    /// The plan goes on by the bytes.
    ///
    /// # Errors
    /// `Word` if a line has ended that is the first bad one, whatever comes after these bytes; `Memory` if
    /// memory was refused, or more lines came than can be counted.
    pub fn take(&mut self, piece: &[u8]) -> Result<(), PlanFault>
        ensures taken { (bytes : List ℕ) → HasTaken self.old bytes → OnOk result (HasTaken self.new (bytes ++ piece.now)) }
        ensures bad { (bytes : List ℕ) → HasTaken self.old bytes → (more : List ℕ) → IfErr result (NamesLine (bytes ++ piece.now ++ more)) }
    {
        let mut rest = piece;
        while let Some((text, others)) = first_line(rest) {
            match self.take_line(text) {
                Ok(()) => rest = others,
                Err(fault) => return Err(fault),
            }
        }
        let Ok(()) = go_on(&mut self.begun, rest) else {
            return Err(PlanFault::Memory);
        };
        Ok(())
    }

    /// The begun line ends with the text.
    fn take_line(&mut self, text: &[u8]) -> Result<(), PlanFault>
        requires { HasNoFeed text.now }
        ensures taken { (bytes : List ℕ) → HasTaken self.old bytes → OnOk result (HasTaken self.new (bytes ++ text.now ++ 10 ∷ [])) }
        ensures bad { (bytes : List ℕ) → HasTaken self.old bytes → (more : List ℕ) → IfErr result (NamesLine (bytes ++ text.now ++ 10 ∷ more)) }
    {
        if self.begun.as_slice().is_empty() {
            return pass(&mut self.reading, &mut self.number, text);
        }
        match go_on(&mut self.begun, text) {
            Ok(()) => {}
            Err(_) => return Err(PlanFault::Memory),
        }
        let passed = pass(&mut self.reading, &mut self.number, &self.begun);
        self.begun.clear();
        passed
    }

    /// The plan, at its end.
    ///
    /// # Errors
    /// `Word` if a line is begun, or no line said a mode.
    pub fn finish(self) -> Result<Plan, PlanFault>
        ensures { (bytes : List ℕ) → HasTaken self bytes → MatchResult result (SayPlan (lines_of bytes)) (NamesLine bytes) }
    {
        let line = self.number;
        if !self.begun.as_slice().is_empty() {
            return Err(PlanFault::Word {
                line,
                why: PlanWhy::NoLineFeed,
            });
        }
        match self.reading.plan() {
            Some(plan) => Ok(plan),
            None => Err(PlanFault::Word {
                line,
                why: PlanWhy::NoMode,
            }),
        }
    }
}

/// Passes the line of this number, for which the text stands, if it may come next.
fn pass(reading: &mut Reading, number: &mut usize, text: &[u8]) -> Result<(), PlanFault>
    ensures passed { (front line : List ℕ) → Passed front number.old reading.old → StandsFor text.now line → HasNoFeed line → OnOk result (Passed (front ++ line ++ 10 ∷ []) number.new reading.new) }
    ensures bad { (front line : List ℕ) → Passed front number.old reading.old → StandsFor text.now line → HasNoFeed line → (more : List ℕ) → IfErr result (NamesLine (front ++ line ++ 10 ∷ more)) }
{
    match reading.take(plan_line(text)) {
        Ok(true) => {}
        Ok(false) => {
            let why = reading.why(text);
            return Err(PlanFault::Word { line: *number, why });
        }
        Err(_) => return Err(PlanFault::Memory),
    }
    match number.checked_add(1) {
        Some(next) => {
            *number = next;
            Ok(())
        }
        None => Err(PlanFault::Memory),
    }
}
