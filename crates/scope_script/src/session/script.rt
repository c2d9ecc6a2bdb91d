ghost use Rattle.std.specs.Prelude.{[], ◌++◌, ◌∷◌, ◌≡◌, OnErr, OnOk, false};
ghost use Rattle.scope_script.specs.{AppendsPart, Do, after_bytes, bytes_reply, end_reply, end_tally, is_join, line_reply, realm_after, realm_after_line, realm_of, reply_of, reply_text, reply_to, session_of, shown, tally_after_line};
ghost use Rattle.scope_script.specs.{the_beginning, with_reply};

use crate::performing::answers::reply_of;
use crate::performing::commands::perform;
use crate::session::begun::BegunLine;
use crate::session::cutting::first_line;
use crate::session::run::{Mode, Ran};
use crate::session::tally::Tally;
use scope_book::BookState;
use scope_checks::EventReply;
use scope_rules::{AnyEnd, Event, Limits, Refusal};
use script_words::{Command, Line, Reply, append_line};
use std::alloc::{AllocError, Global};

/// A script under way: the book that its commands are performed on, how many of its lines were refused, and
/// the line that is begun.
#[derive(Drop)]
pub(crate) struct Script {
    book: BookState<AnyEnd>,
    tally: Tally,
    begun: BegunLine,
}

impl Script {
    /// A script that begins, on a fresh realm of these limits.
    pub(crate) fn new(alloc: Global, limits: Limits) -> Script
        ensures { session_of result ≡ the_beginning limits }
    {
        Script {
            book: BookState::over(alloc, limits, Vec::new(alloc)),
            tally: Tally::NONE,
            begun: BegunLine::new(),
        }
    }

    /// The script goes on by the bytes; what they are answered goes to the end of `replies`. If
    /// memory is refused, a beginning of it went there.
    pub(crate) fn take(
        &mut self,
        mode: Mode,
        bytes: &[u8],
        replies: &mut Vec<u8>,
    ) -> Result<(), AllocError>
        ensures script { OnOk result (session_of self.new ≡ after_bytes (session_of self.old) bytes.now) }
        ensures ok { OnOk result (replies.new.items ≡ replies.old.items ++ shown mode (bytes_reply (session_of self.old) bytes.now)) }
        ensures err { OnErr result (AppendsPart (Some replies.old.items) (Some replies.new.items) (shown mode (bytes_reply (session_of self.old) bytes.now))) }
    {
        let mut rest = bytes;
        let mut said = Line::Silent;
        while let Some((line, others)) = first_line(rest) {
            self.begun.end_with(line, &mut said);
            match self.answer(mode, &said, replies) {
                Ok(()) => rest = others,
                Err(error) => return Err(error),
            }
        }
        self.begun.extend(rest);
        Ok(())
    }

    /// Answers a line. If memory is refused, `replies` stays as it is.
    #[tactic(auto, unfolding(crate::specs::Sessions::line_reply, crate::specs::Sessions::realm_after_line, crate::specs::Tallies::tally_after_line))]
    fn answer(&mut self, mode: Mode, line: &Line, replies: &mut Vec<u8>) -> Result<(), AllocError>
        ensures realm { OnOk result (realm_of self.new.book ≡ realm_after_line (realm_of self.old.book) line.now) }
        ensures tally { OnOk result (self.new.tally ≡ tally_after_line self.old.tally (realm_of self.old.book) line.now) }
        ensures begun { self.new.begun ≡ self.old.begun }
        ensures ok { OnOk result (replies.new.items ≡ replies.old.items ++ shown mode (line_reply (realm_of self.old.book) line.now)) }
        ensures err { OnErr result (replies.new.items ≡ replies.old.items) }
    {
        match line {
            Line::Silent => Ok(()),
            Line::BadWord => {
                self.tally = self.tally.with_bad_word();
                tell(mode, &Reply::Refused(Refusal::BadWord), replies)
            }
            Line::Command(command) => match command {
                Command::Do(event) if !is_join(event) => self.answer_event(mode, event, replies),
                _ => {
                    let reply = perform(&mut self.book, command)?;
                    self.tally = self.tally.with_reply(&reply);
                    tell(mode, &reply, replies)
                }
            },
        }
    }

    /// Answers an event that is no join, as `answer` does its line. No reply is moved on the way: its line is appended
    /// where it is known.
    fn answer_event(
        &mut self,
        mode: Mode,
        event: &Event,
        replies: &mut Vec<u8>,
    ) -> Result<(), AllocError>
        requires { is_join (Do event.now) ≡ false }
        ensures realm { OnOk result (realm_of self.new.book ≡ realm_after (realm_of self.old.book) (Do event.now)) }
        ensures tally { OnOk result (self.new.tally ≡ with_reply self.old.tally (reply_to (realm_of self.old.book) (Do event.now))) }
        ensures begun { self.new.begun ≡ self.old.begun }
        ensures ok { OnOk result (replies.new.items ≡ replies.old.items ++ shown mode (reply_text (reply_to (realm_of self.old.book) (Do event.now)) ++ 10 ∷ [])) }
        ensures err { OnErr result (replies.new.items ≡ replies.old.items) }
    {
        match self.book.perform(event) {
            Ok(told) => tell_event(mode, event, told, replies),
            Err(refusal) => match refusal {
                Refusal::Memory => Err(AllocError),
                _ => {
                    let reply = Reply::Refused(refusal);
                    self.tally = self.tally.with_reply(&reply);
                    tell(mode, &reply, replies)
                }
            },
        }
    }

    /// What the script left, at its end.
    pub(crate) fn into_ran(self) -> Ran
        ensures book { realm_of result.book ≡ (session_of self).realm }
        ensures tally { result.tally ≡ (session_of self).tally }
    {
        Ran {
            book: self.book,
            tally: self.tally,
        }
    }

    /// Answers the end of the script: a line that is begun then is a bad word.
    pub(crate) fn end(&mut self, mode: Mode, replies: &mut Vec<u8>) -> Result<(), AllocError>
        ensures realm { realm_of self.new.book ≡ realm_of self.old.book }
        ensures tally { self.new.tally ≡ end_tally (session_of self.old) }
        ensures ok { OnOk result (replies.new.items ≡ replies.old.items ++ shown mode (end_reply (session_of self.old))) }
        ensures err { OnErr result (replies.new.items ≡ replies.old.items) }
    {
        if self.begun.is_empty() {
            return Ok(());
        }
        self.tally = self.tally.with_bad_word();
        tell(mode, &Reply::Refused(Refusal::BadWord), replies)
    }
}

/// Whether the event is a join: what that gave is read apart.
fn is_join(event: &Event) -> bool
    ensures { result ≡ is_join (Do event.now) }
{
    matches!(event, Event::Join { .. })
}

/// Appends the line of the reply to the event that was told so, as `reply_of` makes it.
#[inline(always)]
fn tell_event(
    mode: Mode,
    event: &Event,
    told: EventReply,
    replies: &mut Vec<u8>,
) -> Result<(), AllocError>
    ensures ok { OnOk result (replies.new.items ≡ replies.old.items ++ shown mode (reply_text (reply_of event.now told) ++ 10 ∷ [])) }
    ensures err { OnErr result (replies.new.items ≡ replies.old.items) }
{
    match told {
        EventReply::Scope(scope) => tell(mode, &Reply::Scope(scope), replies),
        EventReply::Task(task) => tell(mode, &Reply::Task(task), replies),
        EventReply::Recorded | EventReply::Done => match event {
            Event::Start { .. } => tell(mode, &Reply::Started, replies),
            Event::Finish { .. } => tell(mode, &Reply::Finished, replies),
            Event::Tick { now } => tell(mode, &Reply::Moment(*now), replies),
            _ => tell(mode, &reply_of(event, told), replies),
        },
        _ => tell(mode, &reply_of(event, told), replies),
    }
}

/// Appends the line of the reply, if replies are asked for.
fn tell(mode: Mode, reply: &Reply, replies: &mut Vec<u8>) -> Result<(), AllocError>
    ensures ok { OnOk result (replies.new.items ≡ replies.old.items ++ shown mode (reply_text reply.now ++ 10 ∷ [])) }
    ensures err { OnErr result (replies.new.items ≡ replies.old.items) }
{
    match mode {
        Mode::Replies => append_line(replies, reply),
        Mode::Quiet => Ok(()),
    }
}
