ghost use Rattle.std.specs.Prelude.{◌≡◌, ◌≢◌, IfOk, OnErr, OnOk};
ghost use Rattle.scope_script.specs.{Legal, Performs, PerformsOrStops, StopsAmong, answer_to, history_of, limits_of, realm_after_all, realm_of, realm_stopped};

use crate::performing::answers::{reply_of, retired, told};
use scope_book::BookState;
use scope_rules::{Actor, AnyEnd, Event, Refusal, ScopeId};
use script_words::{Command, Query, Reply};
use std::alloc::AllocError;

/// What the book answers to the command; want of memory is `Refused(Memory)` here.
#[inline(always)]
pub(crate) fn answer(book: &mut BookState<AnyEnd>, command: &Command) -> Reply
    requires { Legal (limits_of book.old) (history_of book.old) }
    ensures { PerformsOrStops (realm_of book.old) command.now (realm_of book.new) result }
{
    match command {
        Command::Do(event) => try_event(book, event),
        Command::Retire { actor } => retired(book.retire(*actor)),
        Command::Ask(query) => ask(book, query),
    }
}

/// What the book answers to the event, which it adds to its history if it accepts it.
#[inline(always)]
fn try_event(book: &mut BookState<AnyEnd>, event: &Event) -> Reply
    requires { Legal (limits_of book.old) (history_of book.old) }
    ensures { PerformsOrStops (realm_of book.old) (Command.Do event.now) (realm_of book.new) result }
{
    if let Event::Join { actor, scope } = *event {
        return join(book, actor, scope);
    }
    match book.perform(event) {
        Ok(told) => reply_of(event, told),
        Err(refusal) => Reply::Refused(refusal),
    }
}

/// What the book answers to the query.
#[inline(always)]
#[tactic(auto, unfolding(crate::specs::Replying::answer_to))]
fn ask(book: &BookState<AnyEnd>, query: &Query) -> Reply
    ensures { result ≡ answer_to (history_of book.now) query.now }
{
    match *query {
        Query::State { task } => told(book.state(task), Reply::State),
        Query::Stage { task } => told(book.stage(task), Reply::Stage),
        Query::Result { actor, task } => told(book.result(actor, task), Reply::Value),
        Query::Fault { actor, task } => told(book.fault(actor, task), Reply::Fault),
        Query::Cause { scope } => told(book.cause(scope), Reply::Cause),
        Query::Until { scope } => told(book.effective_deadline(scope), Reply::Until),
        Query::Counts { scope } => told(book.counts(scope), Reply::Counts),
        Query::Get { actor, key } => told(book.binding(actor, &key), Reply::Value),
    }
}

/// Joins the scope, and reads what the join gave.
#[tactic(auto, using(crate::proofs::Answered::join_stands))]
fn join(book: &mut BookState<AnyEnd>, actor: Actor, scope: ScopeId) -> Reply
    requires { Legal (limits_of book.old) (history_of book.old) }
    ensures { PerformsOrStops (realm_of book.old) (Command.Do (Event.Join actor scope)) (realm_of book.new) result }
{
    if let Err(refusal) = book.join_now(actor, scope) {
        return Reply::Refused(refusal);
    }
    match book.outcome(scope) {
        Ok(outcome) => Reply::Outcome(outcome),
        Err(_) => Reply::Refused(Refusal::Memory),
    }
}

/// Performs the command on the book, as any actor may ask: its reply is the model's, and an accepted
/// command adds exactly its event. `Refused(Memory)` is never a reply: if memory is refused, this
/// is an Err, and the book is as it was, but that a join is recorded whose outcome could not be answered.
#[inline(always)]
pub fn perform(book: &mut BookState<AnyEnd>, command: &Command) -> Result<Reply, AllocError>
    ensures performs { IfOk result (λ said. Performs (realm_of book.old) command.now (realm_of book.new) said) }
    ensures told { IfOk result (λ said. said ≢ Reply.Refused Refusal.Memory) }
    ensures stopped { OnErr result (realm_of book.new ≡ realm_stopped (realm_of book.old) command.now) }
{
    let _legal = book.limits();
    match answer(book, command) {
        Reply::Refused(Refusal::Memory) => Err(AllocError),
        said => Ok(said),
    }
}

/// Performs the commands in turn on the book. If it answers Ok, the book is the replay of their
/// run; at an Err, of the run of those before one for which memory was refused.
#[tactic(auto, unfolding(crate::specs::Replying::realm_after_all))]
pub fn perform_all(book: &mut BookState<AnyEnd>, commands: &[Command]) -> Result<(), AllocError>
    ensures ok { OnOk result (realm_of book.new ≡ realm_after_all (realm_of book.old) commands.now) }
    ensures stopped { OnErr result (StopsAmong (realm_of book.old) commands.now (realm_of book.new)) }
{
    for command in commands {
        match perform(book, command) {
            Ok(_) => {}
            Err(error) => return Err(error),
        }
    }
    Ok(())
}
