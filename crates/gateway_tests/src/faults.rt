//! What a gateway's error says of itself.

use quote_gateway::GatewayFault;
use std::alloc::{AllocError, Global};
use std::error::Error;
use std::process::Abort;
use std::test::Fail;

/// Whether the error shows this text.
fn says<E: Error>(alloc: Global, error: &E, text: &str) -> Result<bool, AllocError> {
    let shown = format!(in alloc; "{error}")?;
    Ok(shown.as_str() == text)
}

#[test]
fn an_error_of_the_gateway_says_its_cause(rt: HostRuntime) -> Result<(), Fail> {
    let alloc = rt.alloc();
    assert!(rt;
        says(
            alloc,
            &GatewayFault::Strange,
            "the jobs are not those of the plan"
        )?
    );
    assert!(rt; says(alloc, &GatewayFault::Memory, "memory was refused")?);
    assert!(rt;
        says(
            alloc,
            &GatewayFault::Rejected,
            "a thread or a call was refused"
        )?
    );
    assert!(rt; says(alloc, &GatewayFault::Cancelled, "the request was cancelled")?);
    assert!(rt; says(alloc, &GatewayFault::Lost, "an end is not the offer's")?);
    Ok(())
}
