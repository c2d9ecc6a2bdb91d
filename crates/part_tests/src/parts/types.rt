//! Which ends fit a label. What scripts can say of names, refusals and limits, `crates/scopectl/rows` does.

use super::name;
use scope_rules::{AnyEnd, Catalog, Due, End, Fault, Label, Name, Value};
use std::test::Fail;

/// The fault with this name.
fn fault(text: &[u8]) -> Result<End, Fail> {
    Ok(Err(Fault(name(text)?)))
}

/// Whether the end fits a task whose label expects the other, as wanted; without a catalog of such it does.
fn is_fit(name: Name, due: Option<End>, end: End, wanted: bool) -> bool {
    let label = Label { name, due };
    Due::fits(&label, &end) == wanted && AnyEnd::fits(&label, &end)
}

#[test]
fn ends_that_fit(rt: HostRuntime) -> Result<(), Fail> {
    let (seven, eight): (End, End) = (Ok(Value::Num(7)), Ok(Value::Num(8)));
    let (job, memory) = (fault(b"job")?, fault(b"memory")?);
    let (cancelled, left_open) = (fault(b"cancelled")?, fault(b"left-open")?);
    let named = name(b"job")?;
    for (expected, end, fits) in [
        (Some(seven), seven, true),
        (Some(seven), eight, false),
        (Some(seven), job, false),
        (Some(seven), memory, true),
        (Some(seven), cancelled, true),
        (Some(job), job, true),
        (None, seven, false),
        (None, left_open, true),
    ] {
        assert!(rt; is_fit(named, expected, end, fits));
    }
    Ok(())
}
