//! The replies to a script, with notes on its lines, line by line.
ghost use Rattle.std.specs.Prelude.{◌<◌, ◌≡◌, ◌⊎◌};
ghost use Rattle.script_jobs.specs.{[], Appends, AppendsPart, IfOk, IsErrOf, OnErr, OnOk, Replayed, Replies, ReplaysFrom, RunsPartly, StopsFrom, after_bytes, bytes_reply, end_reply};
ghost use Rattle.script_jobs.specs.{end_tally, false, length, plain_of, true};

use crate::Notes;
use crate::counting::Count;
use crate::session::NotedScript;
use scope_rules::Limits;
use scope_script::{ScriptFault, Watched};
use std::alloc::Global;
use std::io::{Read, Write};
use thiserror::Error;

/// How many bytes are read at a time.
pub const NOTED_PIECE: usize = 4_096;

/// Why a replay with notes ended before its script did.
#[derive(Clone, Copy, Debug, PartialEq, Eq, Error)]
pub enum NotedFault {
    /// The reader or the writer of replies failed, or memory was refused.
    #[error("{0}")]
    Run(ScriptFault),
    /// The writer of notes failed.
    #[error("the writer of notes failed")]
    Notes,
}

/// What `replayed` does, with notes on the script's lines, which go to `errors`. The replies to what was read, and the
/// notes on it, are written before more is read. It takes no memory for the script but for its realm, for a list of the
/// lines that recorded events, and for the replies and notes to a piece.
///
/// # Errors
/// `Run` as `replayed` has it, and `Notes` if the writer of notes failed. What was written is then a beginning of the
/// replies to what was read.
pub fn replayed_noted<R: Read + Drop, W: Write + Drop, E: Write + Drop>(
    alloc: Global,
    limits: Limits,
    wanted: Notes,
    reader: &mut Watched<R>,
    writer: &mut Watched<W>,
    errors: &mut Watched<E>,
) -> Result<Count, NotedFault>
    requires reader { reader.old.failed ≡ false }
    requires writer { writer.old.failed ≡ false }
    ensures ok { IfOk result (Replayed (R.remaining reader.old.inner) (R.remaining reader.new.inner) (W.contents writer.old.inner) (W.contents writer.new.inner) limits) }
    ensures fault { OnErr result (RunsPartly (R.remaining reader.old.inner) (R.remaining reader.new.inner) (W.contents writer.old.inner) (W.contents writer.new.inner) Replies limits) }
    ensures read { IsErrOf result (NotedFault.Run ScriptFault.Read) → (reader.new.failed ≡ true) ⊎ (reader.new.reads ≡ u64.MAX) }
    ensures read_failed { reader.new.failed ≡ true → IsErrOf result (NotedFault.Run ScriptFault.Read) }
    ensures write { IsErrOf result (NotedFault.Run ScriptFault.Write) → writer.new.failed ≡ true }
    ensures write_failed { writer.new.failed ≡ true → IsErrOf result (NotedFault.Run ScriptFault.Write) }
    ensures notes { IsErrOf result NotedFault.Notes → errors.new.failed ≡ true }
    ensures notes_failed { errors.old.failed ≡ false → errors.new.failed ≡ true → (IsErrOf result NotedFault.Notes) }
{
    let mut script = NotedScript::new(alloc, limits);
    let mut replies = Vec::new(alloc);
    let mut notes = Vec::new(alloc);
    let mut piece = [0; NOTED_PIECE];
    read_pieces(
        &mut script,
        wanted,
        reader,
        writer,
        errors,
        &mut piece,
        &mut replies,
        &mut notes,
    )
}

/// Takes the pieces of a script that begins, and writes the replies to each and the notes on it, and then those of the
/// end.
fn read_pieces<R: Read + Drop, W: Write + Drop, E: Write + Drop>(
    script: &mut NotedScript,
    wanted: Notes,
    reader: &mut Watched<R>,
    writer: &mut Watched<W>,
    errors: &mut Watched<E>,
    piece: &mut [u8],
    replies: &mut Vec<u8>,
    notes: &mut Vec<u8>,
) -> Result<Count, NotedFault>
    requires some { 0 < length piece.old }
    requires replies { replies.old.items ≡ [] }
    requires reader { reader.old.failed ≡ false }
    requires writer { writer.old.failed ≡ false }
    ensures ok { IfOk result (ReplaysFrom script.old (R.remaining reader.old.inner) (R.remaining reader.new.inner) (W.contents writer.old.inner) (W.contents writer.new.inner)) }
    ensures fault { OnErr result (StopsFrom script.old (R.remaining reader.old.inner) (R.remaining reader.new.inner) (W.contents writer.old.inner) (W.contents writer.new.inner)) }
    ensures read { IsErrOf result (NotedFault.Run ScriptFault.Read) → (reader.new.failed ≡ true) ⊎ (reader.new.reads ≡ u64.MAX) }
    ensures read_failed { reader.new.failed ≡ true → IsErrOf result (NotedFault.Run ScriptFault.Read) }
    ensures write { IsErrOf result (NotedFault.Run ScriptFault.Write) → writer.new.failed ≡ true }
    ensures write_failed { writer.new.failed ≡ true → IsErrOf result (NotedFault.Run ScriptFault.Write) }
    ensures notes { IsErrOf result NotedFault.Notes → errors.new.failed ≡ true }
    ensures notes_failed { errors.old.failed ≡ false → errors.new.failed ≡ true → (IsErrOf result NotedFault.Notes) }
{
    'reading: while !reader.has_given_up() {
        let Ok(count) = reader.read_piece(piece) else {
            return Err(NotedFault::Run(ScriptFault::Read));
        };
        if count == 0 {
            return match finish(script, wanted, writer, errors, replies, notes) {
                Ok(()) => Ok(script.count()),
                Err(fault) => Err(fault),
            };
        }
        match step(
            script,
            wanted,
            &piece[..count],
            writer,
            errors,
            replies,
            notes,
        ) {
            Ok(()) => {}
            Err(fault) => return Err(fault),
        }
    }
    Err(NotedFault::Run(ScriptFault::Read))
}

/// Takes a piece of the script, and writes the replies to it and the notes on it. After a fault, beginnings of them were
/// written: if memory was refused, what was answered before that.
fn step<W: Write + Drop, E: Write + Drop>(
    script: &mut NotedScript,
    wanted: Notes,
    piece: &[u8],
    writer: &mut Watched<W>,
    errors: &mut Watched<E>,
    replies: &mut Vec<u8>,
    notes: &mut Vec<u8>,
) -> Result<(), NotedFault>
    requires replies { replies.old.items ≡ [] }
    requires writer { writer.old.failed ≡ false }
    ensures plain { OnOk result (plain_of script.new ≡ after_bytes (plain_of script.old) piece.now) }
    ensures wrote { OnOk result (Appends (W.contents writer.old.inner) (W.contents writer.new.inner) (bytes_reply (plain_of script.old) piece.now)) }
    ensures sent { OnOk result ((replies.new.items ≡ []) × (writer.new.failed ≡ writer.old.failed) × (errors.new.failed ≡ errors.old.failed)) }
    ensures wrote_part { OnErr result (AppendsPart (W.contents writer.old.inner) (W.contents writer.new.inner) (bytes_reply (plain_of script.old) piece.now)) }
    ensures write { IsErrOf result (NotedFault.Run ScriptFault.Write) → writer.new.failed ≡ true }
    ensures write_failed { writer.new.failed ≡ true → IsErrOf result (NotedFault.Run ScriptFault.Write) }
    ensures notes { IsErrOf result NotedFault.Notes → errors.new.failed ≡ true }
    ensures notes_failed { errors.old.failed ≡ false → errors.new.failed ≡ true → (IsErrOf result NotedFault.Notes) }
    ensures read { IsErrOf result (NotedFault.Run ScriptFault.Read) → ⊥ }
{
    let taken = script.take(wanted, piece, replies, notes);
    let sent = send(writer, errors, replies, notes);
    replies.clear();
    notes.clear();
    match (taken, sent) {
        (_, Err(fault)) => Err(fault),
        (Err(_), Ok(())) => Err(NotedFault::Run(ScriptFault::Memory)),
        (Ok(()), Ok(())) => Ok(()),
    }
}

/// Writes the replies, and then the notes.
pub(crate) fn send<W: Write + Drop, E: Write + Drop>(
    writer: &mut Watched<W>,
    errors: &mut Watched<E>,
    replies: &[u8],
    notes: &[u8],
) -> Result<(), NotedFault>
    requires { writer.old.failed ≡ false }
    ensures wrote { OnOk result (Appends (W.contents writer.old.inner) (W.contents writer.new.inner) replies.now) }
    ensures sent { OnOk result ((writer.new.failed ≡ false) × (errors.new.failed ≡ errors.old.failed)) }
    ensures wrote_part { OnErr result (AppendsPart (W.contents writer.old.inner) (W.contents writer.new.inner) replies.now) }
    ensures write { IsErrOf result (NotedFault.Run ScriptFault.Write) → writer.new.failed ≡ true }
    ensures write_failed { writer.new.failed ≡ true → IsErrOf result (NotedFault.Run ScriptFault.Write) }
    ensures notes { IsErrOf result NotedFault.Notes → errors.new.failed ≡ true }
    ensures notes_failed { errors.old.failed ≡ false → errors.new.failed ≡ true → (IsErrOf result NotedFault.Notes) }
    ensures others { (IsErrOf result (NotedFault.Run ScriptFault.Read) → ⊥) × (IsErrOf result (NotedFault.Run ScriptFault.Memory) → ⊥) }
{
    if writer.write_bytes(replies).is_err() {
        return Err(NotedFault::Run(ScriptFault::Write));
    }
    match errors.write_bytes(notes) {
        Ok(()) => Ok(()),
        Err(_) => Err(NotedFault::Notes),
    }
}

/// Ends the script, and writes the reply to its end and the note on that.
fn finish<W: Write + Drop, E: Write + Drop>(
    script: &mut NotedScript,
    wanted: Notes,
    writer: &mut Watched<W>,
    errors: &mut Watched<E>,
    replies: &mut Vec<u8>,
    notes: &mut Vec<u8>,
) -> Result<(), NotedFault>
    requires replies { replies.old.items ≡ [] }
    requires writer { writer.old.failed ≡ false }
    ensures realm { (plain_of script.new).realm ≡ (plain_of script.old).realm }
    ensures tally { OnOk result ((plain_of script.new).tally ≡ end_tally (plain_of script.old)) }
    ensures wrote { OnOk result (Appends (W.contents writer.old.inner) (W.contents writer.new.inner) (end_reply (plain_of script.old))) }
    ensures sent { OnOk result ((writer.new.failed ≡ false) × (errors.new.failed ≡ errors.old.failed)) }
    ensures wrote_part { OnErr result (AppendsPart (W.contents writer.old.inner) (W.contents writer.new.inner) (end_reply (plain_of script.old))) }
    ensures write { IsErrOf result (NotedFault.Run ScriptFault.Write) → writer.new.failed ≡ true }
    ensures write_failed { writer.new.failed ≡ true → IsErrOf result (NotedFault.Run ScriptFault.Write) }
    ensures notes { IsErrOf result NotedFault.Notes → errors.new.failed ≡ true }
    ensures notes_failed { errors.old.failed ≡ false → errors.new.failed ≡ true → (IsErrOf result NotedFault.Notes) }
    ensures read { IsErrOf result (NotedFault.Run ScriptFault.Read) → ⊥ }
{
    if script.end(wanted, replies, notes).is_err() {
        return Err(NotedFault::Run(ScriptFault::Memory));
    }
    send(writer, errors, replies, notes)
}
