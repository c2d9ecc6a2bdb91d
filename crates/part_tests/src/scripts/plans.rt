//! How plans are written in the tests.

use quote_plan::{Plan, read_plan};
use std::test::Fail;

/// The lines that ` / ` parts, each ended by a line feed.
fn lines(rt: &impl AllocGlobal, text: &str) -> Result<String, Fail> {
    let mut whole = String::new(rt.alloc());
    for line in text.split(" / ") {
        whole.push_str(line)?;
        whole.push('\n')?;
    }
    Ok(whole)
}

/// The plan of these lines, which is one.
pub fn plan(rt: &impl AllocGlobal, text: &str) -> Result<Plan, Fail> {
    let whole = lines(rt, text)?;
    match read_plan(rt.alloc(), whole.as_bytes()) {
        Ok(plan) => Ok(plan),
        Err(_) => Err(Fail::from("it is a plan")),
    }
}
