//! The replies to a script.
ghost use Rattle.std.specs.Prelude.{◌≡◌, ◌⊎◌};
ghost use Rattle.script_jobs.specs.{IfOk, IsErrOf, OnErr, Replayed, RunsPartly, false, true};

use crate::counting::{Count, count_of};
use scope_rules::Limits;
use scope_script::{Mode, ScriptFault, Watched, run_tallied};
use std::alloc::Global;
use std::io::{Read, Write};

/// Writes the replies to the script that is read, in a realm of these limits, and answers how many lines were
/// refused, and whether it looks like a script.
///
/// # Errors
/// `Read` if the reader failed or was given up, `Write` if the writer failed, `Memory` if memory
/// was refused. What was written is then a beginning of the replies to what was read.
pub fn replayed<R: Read + Drop, W: Write + Drop>(
    alloc: Global,
    limits: Limits,
    reader: &mut Watched<R>,
    writer: &mut Watched<W>,
) -> Result<Count, ScriptFault>
    requires reader { reader.old.failed ≡ false }
    requires writer { writer.old.failed ≡ false }
    ensures ok { IfOk result (Replayed (R.remaining reader.old.inner) (R.remaining reader.new.inner) (W.contents writer.old.inner) (W.contents writer.new.inner) limits) }
    ensures fault { OnErr result (RunsPartly (R.remaining reader.old.inner) (R.remaining reader.new.inner) (W.contents writer.old.inner) (W.contents writer.new.inner) Mode.Replies limits) }
    ensures read { IsErrOf result ScriptFault.Read → (reader.new.failed ≡ true) ⊎ (reader.new.reads ≡ u64.MAX) }
    ensures read_failed { reader.new.failed ≡ true → IsErrOf result ScriptFault.Read }
    ensures write { IsErrOf result ScriptFault.Write → writer.new.failed ≡ true }
    ensures write_failed { writer.new.failed ≡ true → IsErrOf result ScriptFault.Write }
{
    let fault = match run_tallied(alloc, reader, writer, limits, Mode::Replies) {
        Ok(ran) => return Ok(count_of(&ran)),
        Err(fault) => fault,
    };
    Err(fault)
}
