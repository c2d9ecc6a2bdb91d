//! What a script leaves, as it is shown, with notes on its lines.
ghost use Rattle.std.specs.Prelude.{◌≡◌, ◌⊎◌};
ghost use Rattle.script_jobs.specs.{[], Appends, IfOk, IsErrOf, OnErr, OnOk, ReadSome, Showed, false, string_bytes, true};

use crate::Notes;
use crate::noting::{NOTED_PIECE, NotedFault};
use crate::session::NotedScript;
use crate::showing::{Rendering, View, shown_of_script};
use crate::whole::read_whole;
use scope_rules::Limits;
use scope_script::{ScriptFault, Watched};
use std::alloc::Global;
use std::io::{Read, Write};

/// What `shown` does, with notes on the script's lines, which go to `errors` before anything is shown. The script is
/// read whole, also for a dump.
///
/// # Errors
/// `Run` as `shown` has it, and `Notes` if the writer of notes failed. What was noted is then a beginning of the notes
/// on what was read.
pub fn shown_noted<R: Read + Drop, W: Write + Drop, E: Write + Drop>(
    alloc: Global,
    limits: Limits,
    view: View,
    wanted: Notes,
    reader: &mut Watched<R>,
    writer: &mut Watched<W>,
    errors: &mut Watched<E>,
) -> Result<Rendering, NotedFault>
    requires reader { reader.old.failed ≡ false }
    requires writer { writer.old.failed ≡ false }
    ensures ok { IfOk result (λ s. Showed (R.remaining reader.old.inner) (R.remaining reader.new.inner) limits view (string_bytes s.text) s.count) }
    ensures part { OnErr result (ReadSome (R.remaining reader.old.inner) (R.remaining reader.new.inner)) }
    ensures unwritten { Appends (W.contents writer.old.inner) (W.contents writer.new.inner) [] }
    ensures read { IsErrOf result (NotedFault.Run ScriptFault.Read) → (reader.new.failed ≡ true) ⊎ (reader.new.reads ≡ u64.MAX) }
    ensures read_failed { reader.new.failed ≡ true → IsErrOf result (NotedFault.Run ScriptFault.Read) }
    ensures write { IsErrOf result (NotedFault.Run ScriptFault.Write) → writer.new.failed ≡ true }
    ensures write_failed { writer.new.failed ≡ true → IsErrOf result (NotedFault.Run ScriptFault.Write) }
    ensures notes { IsErrOf result NotedFault.Notes → errors.new.failed ≡ true }
    ensures notes_failed { errors.old.failed ≡ false → errors.new.failed ≡ true → (IsErrOf result NotedFault.Notes) }
{
    let script = match read_whole(alloc, reader) {
        Ok(script) => script,
        Err(fault) => return Err(NotedFault::Run(fault)),
    };
    match write_notes(alloc, limits, wanted, &script, errors) {
        Ok(()) => {}
        Err(fault) => return Err(fault),
    }
    match shown_of_script(alloc, limits, view, &script, writer) {
        Ok(shown) => Ok(shown),
        Err(fault) => Err(NotedFault::Run(fault)),
    }
}

/// Writes the notes on the lines of the script, those of a piece at a time: it takes no memory for the others.
///
/// # Errors
/// `Notes` if the writer failed, `Run` if memory was refused. A beginning of the notes was written then.
fn write_notes<E: Write + Drop>(
    alloc: Global,
    limits: Limits,
    wanted: Notes,
    script: &[u8],
    errors: &mut Watched<E>,
) -> Result<(), NotedFault>
    ensures sound { OnOk result (errors.new.failed ≡ errors.old.failed) }
    ensures notes { IsErrOf result NotedFault.Notes → errors.new.failed ≡ true }
    ensures notes_failed { errors.old.failed ≡ false → errors.new.failed ≡ true → (IsErrOf result NotedFault.Notes) }
    ensures others { (IsErrOf result (NotedFault.Run ScriptFault.Read) → ⊥) × (IsErrOf result (NotedFault.Run ScriptFault.Write) → ⊥) }
{
    let mut noted = NotedScript::new(alloc, limits);
    let mut rest = script;
    while !rest.is_empty() {
        let (piece, others) = rest.split_at(rest.len().min(NOTED_PIECE));
        match write_piece(alloc, &mut noted, wanted, piece, errors) {
            Ok(()) => rest = others,
            Err(fault) => return Err(fault),
        }
    }
    write_end(alloc, &mut noted, wanted, errors)
}

/// Takes a piece of the script, and writes the notes on it.
fn write_piece<E: Write + Drop>(
    alloc: Global,
    noted: &mut NotedScript,
    wanted: Notes,
    piece: &[u8],
    errors: &mut Watched<E>,
) -> Result<(), NotedFault>
    ensures sound { OnOk result (errors.new.failed ≡ errors.old.failed) }
    ensures notes { IsErrOf result NotedFault.Notes → errors.new.failed ≡ true }
    ensures notes_failed { errors.old.failed ≡ false → errors.new.failed ≡ true → (IsErrOf result NotedFault.Notes) }
    ensures others { (IsErrOf result (NotedFault.Run ScriptFault.Read) → ⊥) × (IsErrOf result (NotedFault.Run ScriptFault.Write) → ⊥) }
{
    let mut replies = Vec::new(alloc);
    let mut notes = Vec::new(alloc);
    match noted.take(wanted, piece, &mut replies, &mut notes) {
        Ok(()) => written(&notes, errors),
        Err(_) => Err(NotedFault::Run(ScriptFault::Memory)),
    }
}

/// Ends the script, and writes the note on that.
fn write_end<E: Write + Drop>(
    alloc: Global,
    noted: &mut NotedScript,
    wanted: Notes,
    errors: &mut Watched<E>,
) -> Result<(), NotedFault>
    ensures sound { OnOk result (errors.new.failed ≡ errors.old.failed) }
    ensures notes { IsErrOf result NotedFault.Notes → errors.new.failed ≡ true }
    ensures notes_failed { errors.old.failed ≡ false → errors.new.failed ≡ true → (IsErrOf result NotedFault.Notes) }
    ensures others { (IsErrOf result (NotedFault.Run ScriptFault.Read) → ⊥) × (IsErrOf result (NotedFault.Run ScriptFault.Write) → ⊥) }
{
    let mut replies = Vec::new(alloc);
    let mut notes = Vec::new(alloc);
    match noted.end(wanted, &mut replies, &mut notes) {
        Ok(()) => written(&notes, errors),
        Err(_) => Err(NotedFault::Run(ScriptFault::Memory)),
    }
}

/// Writes the notes.
fn written<E: Write + Drop>(notes: &[u8], errors: &mut Watched<E>) -> Result<(), NotedFault>
    ensures sound { OnOk result (errors.new.failed ≡ errors.old.failed) }
    ensures fault { (fault : NotedFault) → IsErrOf result fault → fault ≡ NotedFault.Notes }
    ensures failed { IsErrOf result NotedFault.Notes → errors.new.failed ≡ true }
{
    match errors.write_bytes(notes) {
        Ok(()) => Ok(()),
        Err(_) => Err(NotedFault::Notes),
    }
}
