//! That the faults are those of the bad words, that each names the first field that is wrong, and that the fields stand
//! where they are shown. The functions do nothing: their contracts are the laws.

ghost use Rattle.refusal_reasons.specs.{FaultsFit, FaultsNameFirst, PlacesFit};

/// A line has a fault just where it is a bad word.
#[tactic(auto, using(crate::proofs::FieldsFit::faults_fit))]
pub fn faults_fit()
    ensures { FaultsFit }
{}

/// A fault names the first field that is wrong: what stands before it is of its kind, and it is not; or a field is
/// missing behind good ones, or one is too many.
#[tactic(auto, using(crate::proofs::FirstWrong::faults_name_first))]
pub fn faults_name_the_first()
    ensures { FaultsNameFirst }
{}

/// A field of a line is the bytes at its place.
#[tactic(auto, using(crate::proofs::PlacesFit::places_fit))]
pub fn fields_are_placed()
    ensures { PlacesFit }
{}
