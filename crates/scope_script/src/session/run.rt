ghost use Rattle.std.specs.Prelude.{[], ◌<◌, ◌≡◌, ◌⊎◌, IfOk, IsErrOf, OnErr, OnOk, false, length, true, vec_len};
ghost use Rattle.scope_script.specs.{Appends, AppendsPart, Limits, RunsPartly, RunsTallied, RunsText, RunsToEnd, after_bytes, bytes_reply, end_reply, end_tally, realm_of, replies_of, session_of, shown, the_beginning};

use crate::session::script::Script;
use crate::session::tally::Tally;
use crate::streams::watched::Watched;
use scope_book::BookState;
use scope_rules::{AnyEnd, Limits};
use std::alloc::Global;
use std::io::{Read, Write};
use thiserror::Error;

/// How many bytes are read at a time, and for how many of reply there is room from the beginning.
pub const PIECE: usize = 32_768;

/// Whether a run writes its replies.
#[derive(Clone, Copy, PartialEq, Eq)]
pub enum Mode {
    /// One line of reply a command.
    Replies,
    /// Nothing.
    Quiet,
}

/// Why a run ended before its script did.
#[derive(Clone, Copy, Debug, PartialEq, Eq, Error)]
pub enum ScriptFault {
    /// The reader failed, or was given up, since 2^64 - 1 reads were asked of it.
    #[error("the reader failed")]
    Read,
    /// The writer failed.
    #[error("the writer failed")]
    Write,
    /// Memory was refused.
    #[error("memory was refused")]
    Memory,
}

/// What a script left.
#[derive(Drop)]
pub struct Ran {
    /// The book of its run.
    pub book: BookState<AnyEnd>,
    /// How many of its lines were refused.
    pub tally: Tally,
}

/// Runs a script on a fresh realm of these limits: performs the command of each line, and writes the
/// line of each reply, or nothing in `Quiet`. If it answers Ok, all bytes were read and exactly the
/// reply text of them was written, and the book is that of their run. After a fault, what was written
/// is a beginning of the reply text of what was read.
///
/// The replies to what was read are written before more is read. If a stream failed in this call
/// the fault says so, and `Memory` is answered only if none did. A reader of which 2^64 - 1 reads
/// were asked is given up.
pub fn run<R: Read + Drop, W: Write + Drop>(
    alloc: Global,
    reader: &mut Watched<R>,
    writer: &mut Watched<W>,
    limits: Limits,
    mode: Mode,
) -> Result<BookState<AnyEnd>, ScriptFault>
    requires reader { reader.old.failed ≡ false }
    requires writer { writer.old.failed ≡ false }
    ensures ok { IfOk result (λ book. RunsToEnd (R.remaining reader.old.inner) (R.remaining reader.new.inner) (W.contents writer.old.inner) (W.contents writer.new.inner) mode limits (realm_of book)) }
    ensures fault { OnErr result (RunsPartly (R.remaining reader.old.inner) (R.remaining reader.new.inner) (W.contents writer.old.inner) (W.contents writer.new.inner) mode limits) }
    ensures read { IsErrOf result ScriptFault.Read → (reader.new.failed ≡ true) ⊎ (reader.new.reads ≡ u64.MAX) }
    ensures read_failed { reader.new.failed ≡ true → IsErrOf result ScriptFault.Read }
    ensures write { IsErrOf result ScriptFault.Write → writer.new.failed ≡ true }
    ensures write_failed { writer.new.failed ≡ true → IsErrOf result ScriptFault.Write }
{
    match run_tallied(alloc, reader, writer, limits, mode) {
        Ok(ran) => Ok(ran.book),
        Err(fault) => Err(fault),
    }
}

/// What `run` does, with how many lines were refused.
pub fn run_tallied<R: Read + Drop, W: Write + Drop>(
    alloc: Global,
    reader: &mut Watched<R>,
    writer: &mut Watched<W>,
    limits: Limits,
    mode: Mode,
) -> Result<Ran, ScriptFault>
    requires reader { reader.old.failed ≡ false }
    requires writer { writer.old.failed ≡ false }
    ensures ok { IfOk result (λ ran. RunsTallied (R.remaining reader.old.inner) (R.remaining reader.new.inner) (W.contents writer.old.inner) (W.contents writer.new.inner) mode limits (realm_of ran.book) ran.tally) }
    ensures fault { OnErr result (RunsPartly (R.remaining reader.old.inner) (R.remaining reader.new.inner) (W.contents writer.old.inner) (W.contents writer.new.inner) mode limits) }
    ensures read { IsErrOf result ScriptFault.Read → (reader.new.failed ≡ true) ⊎ (reader.new.reads ≡ u64.MAX) }
    ensures read_failed { reader.new.failed ≡ true → IsErrOf result ScriptFault.Read }
    ensures write { IsErrOf result ScriptFault.Write → writer.new.failed ≡ true }
    ensures write_failed { writer.new.failed ≡ true → IsErrOf result ScriptFault.Write }
{
    let mut script = Script::new(alloc, limits);
    let Ok(mut replies) = Vec::with_capacity(alloc, PIECE) else {
        return Err(ScriptFault::Memory);
    };
    let mut piece = [0; PIECE];
    match read_pieces(&mut script, reader, writer, mode, &mut piece, &mut replies) {
        Ok(()) => Ok(script.into_ran()),
        Err(fault) => Err(fault),
    }
}

/// What `run_tallied` does with a script that is at hand as a whole, and of which no read can fail. All replies are
/// put together before they are written.
pub fn run_text<W: Write + Drop>(
    alloc: Global,
    script: &[u8],
    writer: &mut Watched<W>,
    limits: Limits,
    mode: Mode,
) -> Result<Ran, ScriptFault>
    requires writer { writer.old.failed ≡ false }
    ensures ok { IfOk result (λ ran. RunsText (W.contents writer.old.inner) (W.contents writer.new.inner) mode limits script.now (realm_of ran.book) ran.tally) }
    ensures fault { OnErr result (AppendsPart (W.contents writer.old.inner) (W.contents writer.new.inner) (shown mode (replies_of limits script.now))) }
    ensures read { IsErrOf result ScriptFault.Read → ⊥ }
    ensures write { IsErrOf result ScriptFault.Write → writer.new.failed ≡ true }
    ensures write_failed { writer.new.failed ≡ true → IsErrOf result ScriptFault.Write }
{
    let mut begun = Script::new(alloc, limits);
    let Ok(mut replies) = Vec::with_capacity(alloc, PIECE) else {
        return Err(ScriptFault::Memory);
    };
    match step(&mut begun, writer, mode, script, &mut replies) {
        Ok(()) => {}
        Err(fault) => return Err(fault),
    }
    match finish(&mut begun, writer, mode, &mut replies) {
        Ok(()) => Ok(begun.into_ran()),
        Err(fault) => Err(fault),
    }
}

/// Takes the pieces of a script that begins, and writes what each is answered, and then what the end is. The
/// run keeps the piece that was read last, and the replies to it.
fn read_pieces<R: Read + Drop, W: Write + Drop>(
    script: &mut Script,
    reader: &mut Watched<R>,
    writer: &mut Watched<W>,
    mode: Mode,
    piece: &mut [u8],
    replies: &mut Vec<u8>,
) -> Result<(), ScriptFault>
    requires some { 0 < length piece.old }
    requires empty { replies.old.items ≡ [] }
    requires reader { reader.old.failed ≡ false }
    requires writer { writer.old.failed ≡ false }
    ensures ok { (L : Limits) → session_of script.old ≡ the_beginning L → OnOk result (RunsTallied (R.remaining reader.old.inner) (R.remaining reader.new.inner) (W.contents writer.old.inner) (W.contents writer.new.inner) mode L (session_of script.new).realm (session_of script.new).tally) }
    ensures fault { (L : Limits) → session_of script.old ≡ the_beginning L → OnErr result (RunsPartly (R.remaining reader.old.inner) (R.remaining reader.new.inner) (W.contents writer.old.inner) (W.contents writer.new.inner) mode L) }
    ensures read { IsErrOf result ScriptFault.Read → (reader.new.failed ≡ true) ⊎ (reader.new.reads ≡ u64.MAX) }
    ensures read_failed { reader.new.failed ≡ true → IsErrOf result ScriptFault.Read }
    ensures write { IsErrOf result ScriptFault.Write → writer.new.failed ≡ true }
    ensures write_failed { writer.new.failed ≡ true → IsErrOf result ScriptFault.Write }
{
    'reading: while !reader.has_given_up() {
        let Ok(count) = reader.read_piece(piece) else {
            return Err(ScriptFault::Read);
        };
        if count == 0 {
            return match finish(script, writer, mode, replies) {
                Ok(()) => Ok(()),
                Err(fault) => Err(fault),
            };
        }
        match step(script, writer, mode, &piece[..count], replies) {
            Ok(()) => {}
            Err(fault) => return Err(fault),
        }
    }
    Err(ScriptFault::Read)
}

/// Takes a piece of the script, and writes what it is answered. After a fault, a beginning of that was
/// written: if memory was refused, what was answered before that.
#[inline(always)]
fn step<W: Write + Drop>(
    script: &mut Script,
    writer: &mut Watched<W>,
    mode: Mode,
    piece: &[u8],
    replies: &mut Vec<u8>,
) -> Result<(), ScriptFault>
    requires empty { replies.old.items ≡ [] }
    requires writer { writer.old.failed ≡ false }
    ensures script { OnOk result (session_of script.new ≡ after_bytes (session_of script.old) piece.now) }
    ensures ok { OnOk result (Appends (W.contents writer.old.inner) (W.contents writer.new.inner) (shown mode (bytes_reply (session_of script.old) piece.now))) }
    ensures sent { OnOk result ((replies.new.items ≡ []) × (writer.new.failed ≡ writer.old.failed)) }
    ensures err { OnErr result (AppendsPart (W.contents writer.old.inner) (W.contents writer.new.inner) (shown mode (bytes_reply (session_of script.old) piece.now))) }
    ensures write { IsErrOf result ScriptFault.Write → writer.new.failed ≡ true }
    ensures write_failed { writer.new.failed ≡ true → IsErrOf result ScriptFault.Write }
    ensures read { IsErrOf result ScriptFault.Read → ⊥ }
{
    let taken = script.take(mode, piece, replies);
    let sent = writer.write_bytes(replies);
    replies.clear();
    match (taken, sent) {
        (_, Err(_)) => Err(ScriptFault::Write),
        (Err(_), Ok(())) => Err(ScriptFault::Memory),
        (Ok(()), Ok(())) => Ok(()),
    }
}

/// Ends the script, and writes what its end is answered.
fn finish<W: Write + Drop>(
    script: &mut Script,
    writer: &mut Watched<W>,
    mode: Mode,
    replies: &mut Vec<u8>,
) -> Result<(), ScriptFault>
    requires empty { replies.old.items ≡ [] }
    requires writer { writer.old.failed ≡ false }
    ensures realm { (session_of script.new).realm ≡ (session_of script.old).realm }
    ensures tally { (session_of script.new).tally ≡ end_tally (session_of script.old) }
    ensures ok { OnOk result (Appends (W.contents writer.old.inner) (W.contents writer.new.inner) (shown mode (end_reply (session_of script.old)))) }
    ensures err { OnErr result (AppendsPart (W.contents writer.old.inner) (W.contents writer.new.inner) (shown mode (end_reply (session_of script.old)))) }
    ensures write { IsErrOf result ScriptFault.Write → writer.new.failed ≡ true }
    ensures write_failed { writer.new.failed ≡ true → IsErrOf result ScriptFault.Write }
    ensures read { IsErrOf result ScriptFault.Read → ⊥ }
{
    if script.end(mode, replies).is_err() {
        return Err(ScriptFault::Memory);
    }
    match writer.write_bytes(replies) {
        Ok(()) => Ok(()),
        Err(_) => Err(ScriptFault::Write),
    }
}
