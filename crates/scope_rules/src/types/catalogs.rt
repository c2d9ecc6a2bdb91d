ghost use Rattle.std.specs.Prelude.{◌↔◌, ◌≡◌, Err, IsTrue};
ghost use Rattle.scope_rules.specs.{EndValue, FaultValue, IsRuntimeEnd, IsRuntimeFault, LabelValue};

use crate::types::values::{End, Fault, Label};

/// Which ends fit which jobs. The faults `cancelled`, `left-open` and `memory`, which the runtime
/// itself makes, fit every job.
pub trait Catalog {
    ghost fitting: { LabelValue → EndValue → Type 0 };

    /// Whether the end fits the label.
    fn fits(label: &Label, end: &End) -> bool
        ensures { IsTrue result ↔ fitting label.now end.now };

    ghost runtime_faults_fit: { (label : LabelValue) (fault : FaultValue) → IsRuntimeFault fault → fitting label (Err fault) };
}

/// The catalog in which every end fits every label.
#[derive(Clone, Copy)]
pub struct AnyEnd;

impl Catalog for AnyEnd {
    ghost fitting = { λ _ _. Unit {0} };

    ghost runtime_faults_fit = { λ _ _ _. tt };

    fn fits(_label: &Label, _end: &End) -> bool {
        true
    }
}

/// The catalog in which an end fits if it is the one that its label expects, or a fault that the
/// runtime makes.
#[derive(Clone, Copy)]
pub struct Due;

impl Catalog for Due {
    ghost use Rattle.std.specs.Prelude.{Err};
    ghost use Rattle.std.proofs.Common.{inr};
    ghost use Rattle.scope_rules.specs.Fitting.{IsDue};

    ghost fitting = { IsDue };

    ghost runtime_faults_fit = { λ _ _ h. inr h };

    fn fits(label: &Label, end: &End) -> bool {
        label.expects(end) || is_runtime_end(end)
    }
}

/// Whether the end is a fault that the runtime itself makes.
fn is_runtime_end(end: &End) -> bool
    ensures { IsTrue result ↔ IsRuntimeEnd end.now }
{
    match end {
        Ok(_) => false,
        Err(fault) => is_runtime_fault(fault),
    }
}

/// Whether the runtime itself makes the fault: `cancelled`, `left-open` or `memory`.
pub fn is_runtime_fault(fault: &Fault) -> bool
    ensures { IsTrue result ↔ IsRuntimeFault fault.now }
{
    let text = fault.0.as_bytes();
    text == b"cancelled".as_slice()
        || text == b"left-open".as_slice()
        || text == b"memory".as_slice()
}
