//! The line door: a line of a script in, the line of its reply out. What a line is answered, and what it leaves, are
//! those of scripts.

ghost use Rattle.std.specs.Prelude.{◌≡◌, MatchResult, false};
ghost use Rattle.balkreyn_c.specs.{DidPerform, DoesLine, Lines, WritesReply, answer_to, is_join, line_said, not_done, reply_line};

use crate::book::{Book, put, taken};
use crate::numbers::{UNTOLD, refused};
use crate::outcomes::join_in;
use crate::text::{write_line, write_text};
use realm_state::RealmState;
use scope_checks::queries;
use scope_rules::{Actor, Event, Refusal, ScopeId};
use scope_script::reply_of;
use script_words::{Command, Line, Query, Reply, read_line};
use std::alloc::Global;

/// What came of a command.
#[derive(Drop)]
pub enum Performed {
    /// It was performed, and this is its reply.
    Answered(Reply),
    /// It was performed, and there was no memory for its reply.
    Untold,
    /// Memory was refused, and nothing was done.
    Memory,
}

/// Performs a line of a script, and writes the line of its reply.
#[unsafe(no_mangle)]
pub extern "C" fn balkreyn_line(
    alloc: Global,
    book: &mut Book,
    line: &[u8],
    reply: &mut [u8],
) -> i64
    ensures { Lines book.old.place.held line.now result book.new.place.held reply.old reply.new }
{
    let mut timed = match taken(alloc, &mut book.word, &mut book.place) {
        Ok(timed) => timed,
        Err(number) => return number,
    };
    let answer = do_line(alloc, &mut timed.realm, line, reply);
    timed.let_go();
    put(&mut book.word, &mut book.place, timed);
    answer
}

/// Performs the line in the realm, and writes the line of its reply.
#[tactic(auto, using(crate::proofs::Doors::replied, crate::proofs::Doors::bad_word, crate::proofs::Doors::silent, crate::proofs::Doors::performed_untold, crate::proofs::Doors::line_stopped))]
fn do_line(alloc: Global, realm: &mut RealmState, line: &[u8], reply: &mut [u8]) -> i64
    ensures { DoesLine realm.old (line_said line.now) result realm.new reply.old reply.new }
{
    match read_line(line) {
        Line::Silent => write_text(reply, b""),
        Line::BadWord => write_reply(alloc, &Reply::Refused(Refusal::BadWord), reply),
        Line::Command(command) => match perform(alloc, realm, command) {
            Performed::Answered(said) => write_reply(alloc, &said, reply),
            Performed::Untold => UNTOLD,
            Performed::Memory => refused(Refusal::Memory),
        },
    }
}

/// Writes the line of the reply, if there is memory for it.
fn write_reply(alloc: Global, said: &Reply, buffer: &mut [u8]) -> i64
    ensures { WritesReply (reply_line said.now) result buffer.old buffer.new }
{
    match write_line(alloc, said, buffer) {
        Ok(length) => length,
        Err(_) => UNTOLD,
    }
}

/// Performs the command in the realm.
#[tactic(auto, using(crate::proofs::Doors::asked))]
fn perform(alloc: Global, realm: &mut RealmState, command: Command) -> Performed
    ensures { DidPerform realm.old command result realm.new }
{
    match command {
        Command::Do(Event::Join { actor, scope }) => join(alloc, realm, actor, scope),
        Command::Do(event) => try_event(realm, event),
        Command::Retire { actor } => retire(realm, actor),
        Command::Ask(query) => Performed::Answered(ask(realm, query)),
    }
}

/// Tries the event, which is no join.
#[tactic(auto, using(crate::proofs::Doors::refused_as))]
fn try_event(realm: &mut RealmState, event: Event) -> Performed
    requires { is_join (Command.Do event) ≡ false }
    ensures { DidPerform realm.old (Command.Do event) result realm.new }
{
    match realm.perform(&event, false, None) {
        Ok(told) => Performed::Answered(reply_of(&event, told)),
        Err(refusal) => not_done(refusal),
    }
}

/// What came of a command that was refused so.
fn not_done(refusal: Refusal) -> Performed
    ensures { result ≡ not_done refusal }
{
    match refusal {
        Refusal::Memory => Performed::Memory,
        other => Performed::Answered(Reply::Refused(other)),
    }
}

/// Joins the scope, and reads what the join gave.
#[tactic(auto, using(crate::proofs::Doors::join_told, crate::proofs::Doors::join_untold, crate::proofs::Doors::join_refusal))]
fn join(alloc: Global, realm: &mut RealmState, actor: Actor, scope: ScopeId) -> Performed
    ensures { DidPerform realm.old (Command.Do (Event.Join actor scope)) result realm.new }
{
    if let Err(refusal) = join_in(realm, actor, scope) {
        return Performed::Answered(Reply::Refused(refusal));
    }
    match queries::outcome(realm, alloc, scope) {
        Ok(outcome) => Performed::Answered(Reply::Outcome(outcome)),
        Err(_) => Performed::Untold,
    }
}

/// Lets the past go.
#[tactic(auto, using(crate::proofs::Doors::retire_refused_as))]
fn retire(realm: &mut RealmState, actor: Actor) -> Performed
    ensures { DidPerform realm.old (Command.Retire actor) result realm.new }
{
    match realm.retire(actor) {
        Ok(base) => Performed::Answered(Reply::Retired {
            scopes: base.scopes(),
            tasks: base.tasks(),
        }),
        Err(refusal) => not_done(refusal),
    }
}

/// The reply to the query.
#[tactic(auto, unfolding(scope_script::specs::Replying::answer_to))]
fn ask(realm: &RealmState, query: Query) -> Reply
    ensures { result ≡ answer_to realm.now.history query }
{
    match query {
        Query::State { task } => told(queries::state(realm, task), Reply::State),
        Query::Stage { task } => told(queries::stage(realm, task), Reply::Stage),
        Query::Result { actor, task } => { told(queries::result(realm, actor, task), Reply::Value) }
        Query::Fault { actor, task } => { told(queries::fault(realm, actor, task), Reply::Fault) }
        Query::Cause { scope } => told(queries::cause(realm, scope), Reply::Cause),
        Query::Until { scope } => told(queries::effective_deadline(realm, scope), Reply::Until),
        Query::Counts { scope } => told(queries::counts(realm, scope), Reply::Counts),
        Query::Get { actor, key } => { told(queries::binding(realm, actor, &key), Reply::Value) }
    }
}

/// The reply that a constructor makes of what was answered.
fn told<T, F: FnOnce(T) -> Reply + Drop>(answer: Result<T, Refusal>, tell: F) -> Reply
    requires { F.IsAlwaysCallable tell }
    ensures { MatchResult answer (λ x. F.post tell x result) (λ refusal. result ≡ Reply.Refused refusal) }
{
    match answer {
        Ok(value) => tell(value),
        Err(refusal) => Reply::Refused(refusal),
    }
}
