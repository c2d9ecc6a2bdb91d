//! A replay at a terminal: each line is answered and explained at once.
ghost use Rattle.std.specs.Prelude.{◌++◌, ◌<◌, ◌∷◌, ◌≡◌, ◌≤◌, ◌⊎◌};
ghost use Rattle.script_jobs.specs.{[], IsBeginning, IsErrOf, OnOk, Stands, StandsUnless, false, length, true};

use crate::Notes;
use crate::command_helps::help_on;
use crate::counting::Count;
use crate::noting::{NOTED_PIECE, NotedFault, send};
use crate::session::NotedScript;
use crate::showing::aged_text;
use crate::times::times_of;
use scope_rules::Limits;
use scope_rules::types::capacity::LEVEL_LIMIT;
use scope_script::{ScriptFault, Watched, first_line};
use script_words::{just_one, just_two, small};
use std::alloc::{AllocError, Global};
use std::io::{Read, Write};
use tree_dump::TreePart;

/// What stands in front of each line.
pub const PROMPT: &str = "> ";

/// What `help` says at the prompt.
pub const PROMPT_HELP: &str =
    "Each line is a command of the script and is answered at once, such as: open 0 await, fork 0 1 a,
start 1, ok 1 7, join 0 1, close 0 1, closed 0 1, tick 5, cancel 1. Lines for the prompt itself:
  help          this text; help COMMAND, as help fork, says what the command does
  tree          what is open now, with ages behind lines # at MILLIS; tree --awaited, tree --depth N and
                tree --scope S show a part of it
  undo          take back the last line of the script
  save FILE     write the lines of the script into FILE, which replay reads
  quit, exit    end the script, as Ctrl-D does
The program keeps no history of lines; rlwrap gives it one.
";

/// What the prompt says of other words behind `tree`.
const PART_HELP: &str = "tree takes --awaited, --depth N or --scope S\n";

/// Where a script that a person types goes by `save FILE`.
pub trait Saves {
    /// Writes the lines into the file of this name, which is made anew. Answers whether it could.
    fn save(&mut self, name: &str, lines: &[u8]) -> bool;
}

/// A script that a person types: its lines that stand, and what they leave. A line that was taken back is still in the
/// script until something is asked of it.
#[derive(Drop)]
struct Talk {
    alloc: Global,
    limits: Limits,
    wanted: Notes,
    script: NotedScript,
    lines: Vec<u8>,
    is_stale: bool,
}

/// Replays the lines that a person types, with notes. Each line is answered and noted before the next is read. The lines
/// `help`, `help COMMAND`, `tree`, `undo`, `save FILE`, `quit` and `exit` are for the prompt.
///
/// # Errors
/// As `replayed_noted` has them.
pub fn prompted<R: Read + Drop, W: Write + Drop, E: Write + Drop, S: Saves + Drop>(
    alloc: Global,
    limits: Limits,
    wanted: Notes,
    reader: &mut Watched<R>,
    writer: &mut Watched<W>,
    errors: &mut Watched<E>,
    saver: &mut S,
) -> Result<Count, NotedFault>
    requires reader { reader.old.failed ≡ false }
    requires writer { writer.old.failed ≡ false }
    ensures read { IsErrOf result (NotedFault.Run ScriptFault.Read) → (reader.new.failed ≡ true) ⊎ (reader.new.reads ≡ u64.MAX) }
    ensures write { IsErrOf result (NotedFault.Run ScriptFault.Write) → writer.new.failed ≡ true }
    ensures notes { IsErrOf result NotedFault.Notes → errors.new.failed ≡ true }
{
    let mut talk = Talk {
        alloc,
        limits,
        wanted,
        script: NotedScript::new(alloc, limits),
        lines: Vec::new(alloc),
        is_stale: false,
    };
    let mut begun = Vec::new(alloc);
    let mut piece = [0; NOTED_PIECE];
    talk.listen(&mut begun, &mut piece, reader, writer, errors, saver)
}

/// What a line at the prompt asks for.
#[derive(Clone, Copy)]
enum Asked<'a> {
    /// To end the script.
    Quit,
    /// For help.
    Help,
    /// For help on a command.
    HelpOn(&'a [u8]),
    /// For what is open now, or a part of it; or the part is not understood.
    Tree(Option<TreePart>),
    /// To take the last line back.
    Undo,
    /// To write the lines that stand into a file of this name.
    Save(&'a [u8]),
    /// That the script goes on by it.
    Line,
}

/// What the line asks for.
fn asked_by(line: &[u8]) -> Asked<'_> {
    match line {
        b"quit" | b"exit" => Asked::Quit,
        b"help" => Asked::Help,
        b"tree" => Asked::Tree(Some(TreePart::Whole)),
        b"undo" => Asked::Undo,
        [b'h', b'e', b'l', b'p', b' ', word @ ..] => Asked::HelpOn(word),
        [b't', b'r', b'e', b'e', b' ', words @ ..] => Asked::Tree(part_by(words)),
        [b's', b'a', b'v', b'e', b' ', name @ ..] => Asked::Save(name),
        _ => Asked::Line,
    }
}

/// The part of a tree that the options ask for, as `tree` has them on the command line.
fn part_by(words: &[u8]) -> Option<TreePart> {
    if let Some(b"--awaited") = just_one(words) {
        return Some(TreePart::Awaited);
    }
    let (option, number) = just_two(words)?;
    let number = small(number)?;
    match option {
        b"--depth" => Some(TreePart::Levels {
            depth: number,
            scope: None,
        }),
        b"--scope" => Some(TreePart::Levels {
            depth: LEVEL_LIMIT,
            scope: Some(number),
        }),
        _ => None,
    }
}

impl Talk {
    /// Reads until the person ends the script, with a prompt before each line.
    fn listen<R: Read + Drop, W: Write + Drop, E: Write + Drop, S: Saves + Drop>(
        &mut self,
        begun: &mut Vec<u8>,
        piece: &mut [u8],
        reader: &mut Watched<R>,
        writer: &mut Watched<W>,
        errors: &mut Watched<E>,
        saver: &mut S,
    ) -> Result<Count, NotedFault>
        requires stands { StandsUnless self.old.is_stale self.old.limits self.old.script self.old.lines.items }
        requires some { 0 < length piece.old }
        requires reader { reader.old.failed ≡ false }
        requires writer { writer.old.failed ≡ false }
        ensures read { IsErrOf result (NotedFault.Run ScriptFault.Read) → (reader.new.failed ≡ true) ⊎ (reader.new.reads ≡ u64.MAX) }
        ensures write { IsErrOf result (NotedFault.Run ScriptFault.Write) → writer.new.failed ≡ true }
        ensures notes { IsErrOf result NotedFault.Notes → errors.new.failed ≡ true }
    {
        'reading: while !reader.has_given_up() {
            if errors.write_bytes(PROMPT.as_bytes()).is_err() {
                return Err(NotedFault::Notes);
            }
            let Ok(count) = reader.read_piece(piece) else {
                return Err(NotedFault::Run(ScriptFault::Read));
            };
            if count == 0 {
                return self.count();
            }
            match self.hear_all(begun, &piece[..count], writer, errors, saver) {
                Ok(true) => {}
                Ok(false) => return self.count(),
                Err(fault) => return Err(fault),
            }
        }
        Err(NotedFault::Run(ScriptFault::Read))
    }

    /// Hears the lines that the bytes end, and keeps in `begun` what they begin. Answers whether the person goes on.
    fn hear_all<W: Write + Drop, E: Write + Drop, S: Saves + Drop>(
        &mut self,
        begun: &mut Vec<u8>,
        bytes: &[u8],
        writer: &mut Watched<W>,
        errors: &mut Watched<E>,
        saver: &mut S,
    ) -> Result<bool, NotedFault>
        requires stands { StandsUnless self.old.is_stale self.old.limits self.old.script self.old.lines.items }
        requires writer { writer.old.failed ≡ false }
        ensures stands { OnOk result (StandsUnless self.new.is_stale self.new.limits self.new.script self.new.lines.items) }
        ensures sent { OnOk result (writer.new.failed ≡ false) }
        ensures write { IsErrOf result (NotedFault.Run ScriptFault.Write) → writer.new.failed ≡ true }
        ensures notes { IsErrOf result NotedFault.Notes → errors.new.failed ≡ true }
        ensures read { IsErrOf result (NotedFault.Run ScriptFault.Read) → ⊥ }
    {
        let mut rest = bytes;
        while let Some((line, others)) = first_line(rest) {
            if begun.extend_from_slice(line).is_err() {
                return Err(NotedFault::Run(ScriptFault::Memory));
            }
            match self.hear(begun, writer, errors, saver) {
                Ok(true) => {}
                Ok(false) => return Ok(false),
                Err(fault) => return Err(fault),
            }
            begun.clear();
            rest = others;
        }
        match begun.extend_from_slice(rest) {
            Ok(()) => Ok(true),
            Err(_) => Err(NotedFault::Run(ScriptFault::Memory)),
        }
    }

    /// Hears a line. Answers whether the person goes on.
    fn hear<W: Write + Drop, E: Write + Drop, S: Saves + Drop>(
        &mut self,
        line: &[u8],
        writer: &mut Watched<W>,
        errors: &mut Watched<E>,
        saver: &mut S,
    ) -> Result<bool, NotedFault>
        requires stands { StandsUnless self.old.is_stale self.old.limits self.old.script self.old.lines.items }
        requires writer { writer.old.failed ≡ false }
        ensures stands { OnOk result (StandsUnless self.new.is_stale self.new.limits self.new.script self.new.lines.items) }
        ensures sent { OnOk result (writer.new.failed ≡ false) }
        ensures write { IsErrOf result (NotedFault.Run ScriptFault.Write) → writer.new.failed ≡ true }
        ensures notes { IsErrOf result NotedFault.Notes → errors.new.failed ≡ true }
        ensures read { IsErrOf result (NotedFault.Run ScriptFault.Read) → ⊥ }
    {
        match asked_by(line) {
            Asked::Quit => Ok(false),
            Asked::Help => said(PROMPT_HELP.as_bytes(), errors),
            Asked::HelpOn(word) => {
                let text = help_on(word).unwrap_or(
                    "no command begins so; help has an example of most\n",
                );
                said(text.as_bytes(), errors)
            }
            Asked::Tree(Some(part)) => self.show(part, errors),
            Asked::Tree(None) => said(PART_HELP.as_bytes(), errors),
            Asked::Undo => self.undo(errors),
            Asked::Save(name) => {
                let is_saved = match str::from_utf8(name) {
                    Ok(name) => saver.save(name, &self.lines),
                    Err(_) => false,
                };
                let text = if is_saved {
                    "saved\n"
                } else {
                    "the file could not be written\n"
                };
                said(text.as_bytes(), errors)
            }
            Asked::Line => self.answer(line, writer, errors),
        }
    }

    /// What there is to count of the lines that stand.
    fn count(&mut self) -> Result<Count, NotedFault>
        requires { StandsUnless self.old.is_stale self.old.limits self.old.script self.old.lines.items }
        ensures { (fault : NotedFault) → IsErrOf result fault → fault ≡ NotedFault.Run ScriptFault.Memory }
    {
        match self.refresh() {
            Ok(()) => Ok(self.script.count()),
            Err(_) => Err(NotedFault::Run(ScriptFault::Memory)),
        }
    }

    /// Says what is open now, with ages if there are readings of a clock.
    fn show<E: Write + Drop>(
        &mut self,
        part: TreePart,
        errors: &mut Watched<E>,
    ) -> Result<bool, NotedFault>
        requires stands { StandsUnless self.old.is_stale self.old.limits self.old.script self.old.lines.items }
        ensures stands { OnOk result (StandsUnless self.new.is_stale self.new.limits self.new.script self.new.lines.items) }
        ensures notes { IsErrOf result NotedFault.Notes → errors.new.failed ≡ true }
        ensures read { IsErrOf result (NotedFault.Run ScriptFault.Read) → ⊥ }
        ensures write { IsErrOf result (NotedFault.Run ScriptFault.Write) → ⊥ }
    {
        match self.tree(part) {
            Ok(text) => said(text.as_bytes(), errors),
            Err(_) => Err(NotedFault::Run(ScriptFault::Memory)),
        }
    }

    /// What is open now, or the part of it, as the tree of the lines shows it.
    fn tree(&mut self, part: TreePart) -> Result<String, AllocError>
        requires { StandsUnless self.old.is_stale self.old.limits self.old.script self.old.lines.items }
        ensures { OnOk result (StandsUnless self.new.is_stale self.new.limits self.new.script self.new.lines.items) }
    {
        self.refresh()?;
        let times = times_of(self.alloc, &self.lines, self.limits)?;
        let book = self.script.book();
        aged_text(self.alloc, self.limits, book, &times, Some(part))
    }

    /// Takes back the last line that stands, and says it.
    fn undo<E: Write + Drop>(&mut self, errors: &mut Watched<E>) -> Result<bool, NotedFault>
        ensures stands { OnOk result (StandsUnless self.new.is_stale self.new.limits self.new.script self.new.lines.items) }
        ensures notes { IsErrOf result NotedFault.Notes → errors.new.failed ≡ true }
        ensures read { IsErrOf result (NotedFault.Run ScriptFault.Read) → ⊥ }
        ensures write { IsErrOf result (NotedFault.Run ScriptFault.Write) → ⊥ }
    {
        match self.take_back() {
            Ok(text) => said(&text, errors),
            Err(_) => Err(NotedFault::Run(ScriptFault::Memory)),
        }
    }

    /// Answers a line of the script.
    fn answer<W: Write + Drop, E: Write + Drop>(
        &mut self,
        line: &[u8],
        writer: &mut Watched<W>,
        errors: &mut Watched<E>,
    ) -> Result<bool, NotedFault>
        requires stands { StandsUnless self.old.is_stale self.old.limits self.old.script self.old.lines.items }
        requires writer { writer.old.failed ≡ false }
        ensures stands { OnOk result (StandsUnless self.new.is_stale self.new.limits self.new.script self.new.lines.items) }
        ensures sent { OnOk result (writer.new.failed ≡ false) }
        ensures write { IsErrOf result (NotedFault.Run ScriptFault.Write) → writer.new.failed ≡ true }
        ensures notes { IsErrOf result NotedFault.Notes → errors.new.failed ≡ true }
        ensures read { IsErrOf result (NotedFault.Run ScriptFault.Read) → ⊥ }
    {
        let mut replies = Vec::new(self.alloc);
        let mut notes = Vec::new(self.alloc);
        match self.take(line, &mut replies, &mut notes) {
            Ok(()) => {}
            Err(_) => return Err(NotedFault::Run(ScriptFault::Memory)),
        }
        match send(writer, errors, &replies, &notes) {
            Ok(()) => Ok(true),
            Err(fault) => Err(fault),
        }
    }

    /// The script goes on by the line, which stands then.
    fn take(
        &mut self,
        line: &[u8],
        replies: &mut Vec<u8>,
        notes: &mut Vec<u8>,
    ) -> Result<(), AllocError>
        requires { StandsUnless self.old.is_stale self.old.limits self.old.script self.old.lines.items }
        ensures stands { OnOk result (Stands self.new.limits self.new.script self.new.lines.items) }
        ensures lines { OnOk result (self.new.lines.items ≡ self.old.lines.items ++ (line.now ++ 10 ∷ [])) }
        ensures same { self.new.limits ≡ self.old.limits }
    {
        self.refresh()?;
        let mut whole = Vec::new(self.alloc);
        whole.extend_from_slice(line)?;
        whole.push(b'\n')?;
        self.script.take(self.wanted, &whole, replies, notes)?;
        self.lines.extend_from_slice(&whole)
    }

    /// Takes back the last line that stands, in time by its length: what the lines before it leave is had again once it
    /// is asked for. Gives what is to be said of it.
    fn take_back(&mut self) -> Result<Vec<u8>, AllocError>
        ensures stands { OnOk result (StandsUnless self.new.is_stale self.new.limits self.new.script self.new.lines.items) }
        ensures lines { OnOk result (IsBeginning self.new.lines.items self.old.lines.items) }
        ensures same { self.new.limits ≡ self.old.limits }
    {
        let kept = before_last(&self.lines);
        let mut text = Vec::new(self.alloc);
        if self.lines.is_empty() {
            text.extend_from_slice(b"nothing is left to undo\n")?;
        } else {
            text.extend_from_slice(b"undone: ")?;
            text.extend_from_slice(&self.lines[kept..])?;
        }
        self.lines.truncate(kept);
        self.is_stale = true;
        Ok(text)
    }

    /// The script is that of the lines that stand: they are taken anew if one was taken back, and no reply is written
    /// again.
    fn refresh(&mut self) -> Result<(), AllocError>
        requires { StandsUnless self.old.is_stale self.old.limits self.old.script self.old.lines.items }
        ensures stands { OnOk result (Stands self.new.limits self.new.script self.new.lines.items) }
        ensures same { (self.new.limits ≡ self.old.limits) × (self.new.lines ≡ self.old.lines) }
    {
        if !self.is_stale {
            return Ok(());
        }
        let mut script = NotedScript::new(self.alloc, self.limits);
        let mut replies = Vec::new(self.alloc);
        let mut notes = Vec::new(self.alloc);
        script.take(self.wanted, &self.lines, &mut replies, &mut notes)?;
        self.script = script;
        self.is_stale = false;
        Ok(())
    }
}

/// Says the text.
fn said<E: Write + Drop>(text: &[u8], errors: &mut Watched<E>) -> Result<bool, NotedFault>
    ensures notes { IsErrOf result NotedFault.Notes → errors.new.failed ≡ true }
    ensures read { IsErrOf result (NotedFault.Run ScriptFault.Read) → ⊥ }
    ensures write { IsErrOf result (NotedFault.Run ScriptFault.Write) → ⊥ }
{
    match errors.write_bytes(text) {
        Ok(()) => Ok(true),
        Err(_) => Err(NotedFault::Notes),
    }
}

/// How many bytes stand before the last of the lines, each of which has its line feed.
fn before_last(lines: &[u8]) -> usize
    ensures { result ≤ length lines.now }
{
    let mut count = lines.len().saturating_sub(1);
    while count > 0 {
        if lines[count - 1] == b'\n' {
            return count;
        }
        count -= 1;
    }
    0
}
