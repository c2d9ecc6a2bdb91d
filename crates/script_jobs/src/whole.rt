//! A script that is read whole.
ghost use Rattle.std.specs.Prelude.{◌≡◌, ◌⊎◌};
ghost use Rattle.script_jobs.specs.{Consumes, IfOk, IsAtEnd, IsErrOf, OnErr, ReadSome, false, true};

use scope_script::session::run::PIECE;
use scope_script::{ScriptFault, Watched};
use std::alloc::Global;
use std::io::Read;

/// All that is left to read.
///
/// # Errors
/// `Read` if the reader failed or was given up, `Memory` if memory was refused.
pub(crate) fn read_whole<R: Read + Drop>(
    alloc: Global,
    reader: &mut Watched<R>,
) -> Result<Vec<u8>, ScriptFault>
    requires reader { reader.old.failed ≡ false }
    ensures ok { IfOk result (λ script. Consumes (R.remaining reader.old.inner) (R.remaining reader.new.inner) script.items × IsAtEnd (R.remaining reader.new.inner)) }
    ensures part { OnErr result (ReadSome (R.remaining reader.old.inner) (R.remaining reader.new.inner)) }
    ensures read { IsErrOf result ScriptFault.Read → (reader.new.failed ≡ true) ⊎ (reader.new.reads ≡ u64.MAX) }
    ensures read_failed { reader.new.failed ≡ true → IsErrOf result ScriptFault.Read }
    ensures write { IsErrOf result ScriptFault.Write → ⊥ }
{
    let mut script = Vec::new(alloc);
    let mut piece = [0; PIECE];
    'reading: while !reader.has_given_up() {
        let Ok(count) = reader.read_piece(&mut piece) else {
            return Err(ScriptFault::Read);
        };
        if count == 0 {
            return Ok(script);
        }
        if script.extend_from_slice(&piece[..count]).is_err() {
            return Err(ScriptFault::Memory);
        }
    }
    Err(ScriptFault::Read)
}
