//! Plans, as the tests write them.

use quote_gateway::{Plan, PlanFault, read_plan};
use std::alloc::Global;
use std::test::Fail;

/// The plan of the lines that ` / ` parts.
pub fn plan_of(alloc: Global, text: &str) -> Result<Plan, Fail> {
    let mut whole = String::new(alloc);
    for line in text.split(" / ") {
        whole.push_str(line)?;
        whole.push('\n')?;
    }
    match read_plan(alloc, whole.as_bytes()) {
        Ok(plan) => Ok(plan),
        Err(PlanFault::Word { .. }) => Err(Fail::from("it is a plan")),
        Err(PlanFault::Memory) => Err(Fail::from("there is memory")),
    }
}
