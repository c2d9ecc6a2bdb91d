//! The words of a dump that no reply has.
ghost use Rattle.std.specs.Prelude.{◌≡◌, IfOk, string_bytes};
ghost use Rattle.tree_dump.specs.{expiry_word, joiner_text, scope_stage_word};

use scope_log::ShownJoiner;
use scope_rules::types::infos::ScopeStage;
use scope_rules::{Expiry, Policy};
use std::alloc::{AllocError, Global};

/// The word of a joiner, as a script has it.
pub fn joiner_word(alloc: Global, policy: Policy) -> Result<String, AllocError>
    ensures { IfOk result (λ word. string_bytes word ≡ joiner_text policy) }
{
    let shown = ShownJoiner(policy);
    format!(in alloc; "{shown}")
}

/// What happens at a scope's deadline.
pub fn expiry_word(expiry: Expiry) -> &'static str
    ensures { result.now ≡ expiry_word expiry }
{
    match expiry {
        Expiry::Fail => "fail",
        Expiry::MoveOn => "move-on",
    }
}

/// How far a scope has come.
pub fn scope_stage_word(stage: ScopeStage) -> &'static str
    ensures { result.now ≡ scope_stage_word stage }
{
    match stage {
        ScopeStage::Open => "open",
        ScopeStage::Closing => "closing",
        ScopeStage::Closed => "closed",
    }
}
