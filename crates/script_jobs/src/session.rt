//! A script under way whose lines get notes.
ghost use Rattle.std.specs.Prelude.{◌++◌, ◌∷◌, ◌≡◌};
ghost use Rattle.script_jobs.specs.{[], AppendsPart, History, Legal, OnErr, OnOk, Some, after_bytes, bad_word_line, bytes_reply, count_in};
ghost use Rattle.script_jobs.specs.{end_reply, end_tally, history_of, length, limits_of, line_reply, line_said, is_refused, is_some, lines_after, no_line};
ghost use Rattle.script_jobs.specs.{noting_after, noting_begins, noting_of, plain_of, realm_after, realm_after_line, realm_of, reply_text, reply_to, tally_after_line, the_beginning};
ghost use Rattle.script_jobs.specs.{with_bad_word, with_reply};

use crate::begun::BegunLine;
use crate::counting::{Count, count_in, no_refusals, one_more, with_bad_word, with_reply};
use crate::explained_book::ExplainedBook;
use crate::laws::replies_fit;
use crate::notes::{Notes, ShownNote};
use crate::whys::Why;
use scope_book::BookState;
use scope_rules::{AnyEnd, Limits, Refusal};
use scope_script::{Command, Line, Reply, Tally, append_line, first_line, read_line};
use std::alloc::{AllocError, Global};

/// A script under way: the book that its commands are performed on, of each event since the base the number of the line
/// whose command recorded it, the number of the next line, how many lines were refused, and the line that is begun.
#[derive(Drop)]
pub(crate) struct NotedScript {
    alloc: Global,
    book: ExplainedBook,
    lines: Vec<u64>,
    number: u64,
    tally: Tally,
    begun: BegunLine,
}

impl NotedScript {
    /// A script that begins, on a fresh realm of these limits.
    #[tactic(auto, unfolding(scope_script::specs::KeptLines::kept))]
    pub(crate) fn new(alloc: Global, limits: Limits) -> NotedScript
        ensures plain { plain_of result ≡ the_beginning limits }
        ensures noting { noting_of result ≡ noting_begins limits }
    {
        NotedScript {
            alloc,
            book: ExplainedBook::new(alloc, limits),
            lines: Vec::new(alloc),
            number: 1,
            tally: no_refusals(),
            begun: BegunLine::new(),
        }
    }

    /// The script goes on by the bytes; the replies to them go to the end of `replies`, and the notes to the end of
    /// `notes`. If memory is refused, beginnings of both went there.
    pub(crate) fn take(
        &mut self,
        wanted: Notes,
        bytes: &[u8],
        replies: &mut Vec<u8>,
        notes: &mut Vec<u8>,
    ) -> Result<(), AllocError>
        ensures plain { OnOk result (plain_of self.new ≡ after_bytes (plain_of self.old) bytes.now) }
        ensures replies { OnOk result (replies.new.items ≡ replies.old.items ++ bytes_reply (plain_of self.old) bytes.now) }
        ensures replies_part { OnErr result (AppendsPart (Some replies.old.items) (Some replies.new.items) (bytes_reply (plain_of self.old) bytes.now)) }
    {
        let mut rest = bytes;
        while let Some((line, others)) = first_line(rest) {
            self.begun.extend(line);
            match self.answer(wanted, replies, notes) {
                Ok(()) => rest = others,
                Err(error) => return Err(error),
            }
        }
        self.begun.extend(rest);
        Ok(())
    }

    /// Answers the line that is begun, which has ended; the next begins. If memory is refused, `replies` and `notes` stay
    /// as they are.
    fn answer(
        &mut self,
        wanted: Notes,
        replies: &mut Vec<u8>,
        notes: &mut Vec<u8>,
    ) -> Result<(), AllocError>
        ensures realm { OnOk result (realm_of self.new.book.book ≡ realm_after_line (realm_of self.old.book.book) (line_said self.old.begun.first)) }
        ensures tally { OnOk result (self.new.tally ≡ tally_after_line self.old.tally (realm_of self.old.book.book) (line_said self.old.begun.first)) }
        ensures noting { OnOk result (noting_of self.new ≡ noting_after (noting_of self.old) (line_said self.old.begun.first)) }
        ensures begun { OnOk result (self.new.begun ≡ no_line) }
        ensures replies { OnOk result (replies.new.items ≡ replies.old.items ++ line_reply (realm_of self.old.book.book) (line_said self.old.begun.first)) }
        ensures err { OnErr result (replies.new.items ≡ replies.old.items) }
    {
        let _legal = self.book.book().limits();
        let said = read_line(self.begun.first());
        self.answer_said(wanted, said, replies, notes)?;
        self.number = one_more(self.number);
        self.begun.restart();
        Ok(())
    }

    /// Answers the line that is begun, which says this; it stays begun.
    #[tactic(auto, unfolding(scope_script::specs::Sessions::line_reply, scope_script::specs::Sessions::realm_after_line, scope_script::specs::Tallies::tally_after_line))]
    fn answer_said(
        &mut self,
        wanted: Notes,
        said: Line,
        replies: &mut Vec<u8>,
        notes: &mut Vec<u8>,
    ) -> Result<(), AllocError>
        requires { Legal (limits_of self.old.book.book) (history_of self.old.book.book) }
        ensures realm { OnOk result (realm_of self.new.book.book ≡ realm_after_line (realm_of self.old.book.book) said) }
        ensures tally { OnOk result (self.new.tally ≡ tally_after_line self.old.tally (realm_of self.old.book.book) said) }
        ensures lines { OnOk result (self.new.lines.items ≡ lines_after self.old.lines.items self.old.number (history_of self.old.book.book) (history_of self.new.book.book)) }
        ensures number { self.new.number ≡ self.old.number }
        ensures begun { self.new.begun ≡ self.old.begun }
        ensures replies { OnOk result (replies.new.items ≡ replies.old.items ++ line_reply (realm_of self.old.book.book) said) }
        ensures err { OnErr result (replies.new.items ≡ replies.old.items) }
    {
        match said {
            Line::Silent => Ok(()),
            Line::BadWord => {
                let why = Why::BadWord(self.begun.fault());
                self.answer_bad(wanted, why, replies, notes)
            }
            Line::Command(command) => self.answer_done(wanted, command, replies, notes),
        }
    }

    /// Answers the line that is begun, which is no command, for that.
    fn answer_bad(
        &mut self,
        wanted: Notes,
        why: Why,
        replies: &mut Vec<u8>,
        notes: &mut Vec<u8>,
    ) -> Result<(), AllocError>
        ensures same { (self.new.book ≡ self.old.book) × (self.new.lines ≡ self.old.lines) × (self.new.number ≡ self.old.number) × (self.new.begun ≡ self.old.begun) }
        ensures tally { self.new.tally ≡ with_bad_word self.old.tally }
        ensures replies { OnOk result (replies.new.items ≡ replies.old.items ++ bad_word_line) }
        ensures err { OnErr result (replies.new.items ≡ replies.old.items) }
    {
        self.tally = with_bad_word(self.tally);
        let reply = Reply::Refused(Refusal::BadWord);
        let note = self.note_of(wanted, &reply, Some(why))?;
        append_both(&reply, &note, replies, notes)
    }

    /// Answers the line that is begun, with this command, which is performed.
    fn answer_done(
        &mut self,
        wanted: Notes,
        command: Command,
        replies: &mut Vec<u8>,
        notes: &mut Vec<u8>,
    ) -> Result<(), AllocError>
        requires { Legal (limits_of self.old.book.book) (history_of self.old.book.book) }
        ensures realm { OnOk result (realm_of self.new.book.book ≡ realm_after (realm_of self.old.book.book) command) }
        ensures tally { OnOk result (self.new.tally ≡ with_reply self.old.tally (reply_to (realm_of self.old.book.book) command)) }
        ensures lines { OnOk result (self.new.lines.items ≡ lines_after self.old.lines.items self.old.number (history_of self.old.book.book) (history_of self.new.book.book)) }
        ensures number { self.new.number ≡ self.old.number }
        ensures begun { self.new.begun ≡ self.old.begun }
        ensures replies { OnOk result (replies.new.items ≡ replies.old.items ++ (reply_text (reply_to (realm_of self.old.book.book) command) ++ 10 ∷ [])) }
        ensures err { OnErr result (replies.new.items ≡ replies.old.items) }
    {
        let why = self.book.why(&command);
        let before = self.book.book().realm().event_count();
        let reply = self.book.perform(&command)?;
        replies_fit();
        let note = self.note_of(wanted, &reply, why)?;
        self.record_line(before)?;
        self.tally = with_reply(self.tally, &reply);
        append_both(&reply, &note, replies, notes)
    }

    /// The note of the line that is begun, with this reply, and why, if that is a refusal.
    fn note_of(&self, wanted: Notes, reply: &Reply, why: Option<Why>) -> Result<String, AllocError>
        requires { is_some why ≡ is_refused reply.now }
    {
        let shown = ShownNote {
            wanted,
            lines: &self.lines,
            number: self.number,
            line: self.begun.first(),
            reply,
            why,
        };
        format!(in self.alloc; "{shown}")
    }

    /// The events have the line that is begun as the last one's, if there is one more than before, and those that were
    /// discarded have none.
    fn record_line(&mut self, before: usize) -> Result<(), AllocError>
        ensures lines { OnOk result ((h : History) → before ≡ length h.events → self.new.lines.items ≡ lines_after self.old.lines.items self.old.number h (history_of self.old.book.book)) }
        ensures same { (self.new.book ≡ self.old.book) × (self.new.number ≡ self.old.number) × (self.new.tally ≡ self.old.tally) × (self.new.begun ≡ self.old.begun) }
    {
        let after = self.book.book().realm().event_count();
        if after == before {
            return Ok(());
        }
        if before < after {
            self.lines.push(self.number)?;
        } else {
            self.lines.clear();
        }
        Ok(())
    }

    /// Answers the end of the script: a line that is begun then is a bad word. If memory is refused, `replies` and `notes`
    /// stay as they are.
    pub(crate) fn end(
        &mut self,
        wanted: Notes,
        replies: &mut Vec<u8>,
        notes: &mut Vec<u8>,
    ) -> Result<(), AllocError>
        ensures realm { realm_of self.new.book.book ≡ realm_of self.old.book.book }
        ensures tally { OnOk result (self.new.tally ≡ end_tally (plain_of self.old)) }
        ensures replies { OnOk result (replies.new.items ≡ replies.old.items ++ end_reply (plain_of self.old)) }
        ensures err { OnErr result (replies.new.items ≡ replies.old.items) }
    {
        if self.begun.is_empty() {
            return Ok(());
        }
        self.answer_bad(wanted, Why::Cut, replies, notes)
    }

    /// The book that its commands were performed on.
    pub(crate) fn book(&self) -> &BookState<AnyEnd>
        ensures { result.now ≡ self.now.book.book }
    {
        self.book.book()
    }

    /// What there is to count of the script.
    pub(crate) fn count(&self) -> Count
        ensures { result ≡ count_in self.now.tally (history_of self.now.book.book) }
    {
        count_in(self.tally, self.book.book().realm())
    }
}

/// Appends the line of the reply, and the note. If memory is refused for one, neither is appended.
fn append_both(
    reply: &Reply,
    note: &str,
    replies: &mut Vec<u8>,
    notes: &mut Vec<u8>,
) -> Result<(), AllocError>
    ensures replies { OnOk result (replies.new.items ≡ replies.old.items ++ (reply_text reply.now ++ 10 ∷ [])) }
    ensures err { OnErr result (replies.new.items ≡ replies.old.items) }
{
    let length = notes.len();
    notes.extend_from_slice(note.as_bytes())?;
    match append_line(replies, reply) {
        Ok(()) => Ok(()),
        Err(error) => {
            notes.truncate(length);
            Err(error)
        }
    }
}
