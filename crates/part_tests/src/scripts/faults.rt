//! What the errors of the library say of themselves.

use quote_plan::{PlanFault, PlanWhy};
use scope_rules::Refusal;
use scope_script::{ScriptFault, StreamFailed};
use std::alloc::{AllocError, Global};
use std::error::Error;
use std::process::Abort;
use std::test::Fail;

/// Whether the error shows this text.
fn says<E: Error>(alloc: Global, error: &E, text: &str) -> Result<bool, AllocError> {
    let shown = format!(in alloc; "{error}")?;
    Ok(shown.as_str() == text)
}

/// Passes want of memory on as a refusal.
fn asks(refused: bool) -> Result<(), Refusal> {
    let memory = if refused { Err(AllocError) } else { Ok(()) };
    memory?;
    Ok(())
}

#[test]
fn errors_say_what_they_are(rt: HostRuntime) -> Result<(), Fail> {
    let alloc = rt.alloc();
    let bad = PlanFault::Word {
        line: 3,
        why: PlanWhy::TooLong,
    };
    assert!(rt; says(alloc, &bad, "plan line 3: more than 200 bytes")?);
    assert!(rt; says(alloc, &PlanFault::Memory, "memory was refused")?);
    assert!(rt; says(alloc, &ScriptFault::Read, "the reader failed")?);
    assert!(rt; says(alloc, &ScriptFault::Write, "the writer failed")?);
    assert!(rt; says(alloc, &ScriptFault::Memory, "memory was refused")?);
    assert!(rt; says(alloc, &StreamFailed, "the stream failed")?);
    assert!(rt; says(alloc, &Refusal::TooMany, "refused 10 too-many")?);
    assert!(rt; asks(true).err() == Some(Refusal::Memory) && asks(false).is_ok());
    Ok(())
}
