//! Scripts, on a book and on a realm under its lock.
ghost use Rattle.std.specs.Prelude.{◌≡◌};

use crate::driving::driven;
use crate::hands::Hands;
use crate::refusals::{Call, Refusals, again, use_up};
use crate::said::Said;
use realm_lock::{ActorToken, Realm, RealmName, Seed};
use scope_book::BookState;
use scope_rules::types::values::MAIN;
use scope_rules::{AnyEnd, Cause, Event, Limits, Refusal, ScopeId, TaskId};
use scope_script::{Command, Line, Reply, perform, read_line};
use std::alloc::{AllocError, Global};
use std::sync::Wait;

/// The line that uses memory up.
const NO_MORE: &str = "# no more memory";

/// The first scope that is not asked about after each line.
const SEEN: ScopeId = 10;

/// The call that the command means, where that takes memory.
fn call_of(command: Command) -> Call {
    match command {
        Command::Do(Event::Fork { .. }) => Call::Fork,
        Command::Do(Event::Cancel { .. }) => Call::Cancel,
        Command::Do(Event::Move { .. }) => Call::Move,
        Command::Do(Event::Tick { .. }) => Call::Tick,
        Command::Do(Event::Bind { .. }) => Call::Bind,
        Command::Do(Event::Unbind { .. }) => Call::Unbind,
        Command::Do(Event::Join { .. }) => Call::Join,
        Command::Do(Event::EndClose { .. }) => Call::Close,
        Command::Retire { .. } => Call::Retire,
        Command::Ask(_) => Call::View,
        _ => Call::Open,
    }
}

/// A line of a script.
enum Read {
    /// It uses memory up.
    UseUp,
    /// It says nothing.
    Nothing,
    Command(Command),
}

/// The line; one that is in no form says nothing.
fn read_of(line: &str) -> Read {
    if line == NO_MORE {
        return Read::UseUp;
    }
    match read_line(line.as_bytes()) {
        Line::Command(command) => Read::Command(command),
        _ => Read::Nothing,
    }
}

/// Says what the scope's join gave.
fn say_outcome(book: &BookState<AnyEnd>, scope: ScopeId, said: &mut Said) -> Result<(), Refusal> {
    match book.outcome(scope) {
        Ok(outcome) => {
            said.say(&Reply::Outcome(outcome));
            Ok(())
        }
        Err(refusal) => Err(refusal),
    }
}

/// Says how long the scope's log is.
fn say_log(book: &BookState<AnyEnd>, scope: ScopeId, said: &mut Said) -> Result<(), Refusal> {
    match book.project(scope) {
        Ok(log) => {
            said.count(log.entries().len());
            Ok(())
        }
        Err(refusal) => Err(refusal),
    }
}

/// Says what main's join of the scope would give.
fn say_preview(book: &BookState<AnyEnd>, scope: ScopeId, said: &mut Said) -> Result<(), Refusal> {
    match book.join_preview(MAIN, scope) {
        Ok(preview) => {
            said.say(&Reply::Outcome(preview.outcome));
            Ok(())
        }
        Err(refusal) => Err(refusal),
    }
}

/// Each query whose answer takes memory, of the scope.
fn ask_at_length(book: &BookState<AnyEnd>, scope: ScopeId, refusals: &Refusals, said: &mut Said) {
    let _outcome = again!(refusals, Call::Outcome, say_outcome(book, scope, said));
    let _log = again!(refusals, Call::Project, say_log(book, scope, said));
    let _preview = again!(refusals, Call::Preview, say_preview(book, scope, said));
}

/// Each reader, of the scope: none takes memory.
fn read_scope(book: &BookState<AnyEnd>, scope: ScopeId, said: &mut Said) {
    if let Ok(info) = book.info(scope) {
        said.say(&Reply::Cause(info.cause));
    }
    if let Ok(inner) = book.inner(scope) {
        said.count(inner.unwrap_or(0) as usize);
    }
    if let Ok(place) = book.cancelled_at(scope) {
        said.count(place.unwrap_or(0));
    }
    if let Ok(Some(task)) = book.task_at(scope, 0) {
        read_task(book, task, said);
    }
}

/// Each reader, of the task.
fn read_task(book: &BookState<AnyEnd>, task: TaskId, said: &mut Said) {
    if let Ok(inner) = book.task_inner(task) {
        said.count(inner.unwrap_or(0) as usize);
    }
    said.count(usize::from(book.label(task).is_ok()));
}

/// All that is asked of the book after a line.
fn look(book: &BookState<AnyEnd>, is_used_up: bool, refusals: &Refusals, said: &mut Said) {
    said.say(&Reply::Moment(book.moment()));
    said.count(book.root().unwrap_or(0) as usize);
    for scope in 1..SEEN {
        read_scope(book, scope, said);
        if !is_used_up {
            ask_at_length(book, scope, refusals, said);
        }
    }
}

/// Says what the book replied to the command; false where it was refused memory. A join that was recorded, but whose
/// outcome had no memory, is asked for that.
fn say_reply(
    book: &BookState<AnyEnd>,
    command: Command,
    reply: &Result<Reply, AllocError>,
    said: &mut Said,
) -> bool {
    let Ok(reply) = reply else {
        return false;
    };
    if let Command::Do(Event::Join { scope, .. }) = command
        && let Reply::Refused(Refusal::AlreadyJoined) = reply
    {
        return say_outcome(book, scope, said).is_ok();
    }
    said.say(reply);
    true
}

/// Plays the script on a book, and writes what is answered: false where a call was refused memory twice. None where
/// memory was refused before it began.
pub fn on_a_book<R: Print>(
    rt: &R,
    alloc: Global,
    script: &str,
    refusals: &Refusals,
) -> Option<bool> {
    let mut said = Said::new(alloc)?;
    let mut book = BookState::<AnyEnd>::new(alloc, Limits::GREATEST);
    let mut is_used_up = false;
    let mut is_played = true;
    for line in script.lines() {
        match read_of(line) {
            Read::UseUp => {
                is_used_up = true;
                use_up(alloc);
            }
            Read::Nothing => {}
            Read::Command(command) => {
                let mut reply = perform(&mut book, &command);
                if reply.is_err() {
                    refusals.note(call_of(command));
                    reply = perform(&mut book, &command);
                }
                is_played = say_reply(&book, command, &reply, &mut said) && is_played;
                look(&book, is_used_up, refusals, &mut said);
            }
        }
    }
    Some(is_played && said.write(rt))
}

/// Makes the realm's call that the command means. None where nobody holds what it needs.
fn call_once<N: RealmName, R: Wait>(
    rt: &R,
    realm: &Realm<AnyEnd, N>,
    hands: &mut Hands<N>,
    command: Command,
    said: &mut Said,
) -> Result<bool, Refusal> {
    match driven(rt, realm, hands, command) {
        Some(Reply::Refused(Refusal::Memory)) => Err(Refusal::Memory),
        Some(reply) => {
            said.say(&reply);
            Ok(true)
        }
        None => Ok(false),
    }
}

/// How many events there are: so many as were answered.
fn say_history<N: RealmName, R: Wait>(
    rt: &R,
    realm: &Realm<AnyEnd, N>,
    main: &mut ActorToken,
    said: &mut Said,
) -> Result<(), Refusal>
    requires { main.old.table ≡ N.table }
    ensures { main.new ≡ record main.old { seen = main.new.seen } }
{
    match realm.history(rt, main) {
        Ok(events) => {
            said.count(events.len());
            Ok(())
        }
        Err(refusal) => Err(refusal),
    }
}

/// What main sees of the scope: why it is cancelled.
fn say_view<N: RealmName, R: Wait>(
    rt: &R,
    realm: &Realm<AnyEnd, N>,
    main: &mut ActorToken,
    scope: ScopeId,
    said: &mut Said,
) -> Result<Option<Cause>, Refusal>
    requires { main.old.table ≡ N.table }
    ensures { main.new ≡ record main.old { seen = main.new.seen } }
{
    match realm.view(rt, main, scope) {
        Ok(view) => {
            said.say(&Reply::Counts(view.counts));
            said.say(&Reply::Cause(view.cause));
            said.count(view.log.entries().len());
            Ok(view.cause)
        }
        Err(refusal) => Err(refusal),
    }
}

/// What a fresh seat at the scope's cell is shown.
fn shown<N: RealmName, R: Wait>(
    rt: &R,
    realm: &Realm<AnyEnd, N>,
    main: &mut ActorToken,
    scope: ScopeId,
) -> Result<Option<Cause>, Refusal>
    requires { main.old.table ≡ N.table }
    ensures { main.new ≡ record main.old { seen = main.new.seen } }
{
    match realm.cell(rt, main, scope) {
        Ok((cell, mut seat)) => match cell.checkpoint(&mut seat) {
            Some(mark) => Ok(Some(mark.cause)),
            None => Ok(None),
        },
        Err(refusal) => Err(refusal),
    }
}

/// What main sees of the realm after a line: false where a scope's cell shows otherwise than its view.
fn see<N: RealmName, R: Wait>(
    rt: &R,
    realm: &Realm<AnyEnd, N>,
    main: &mut ActorToken,
    refusals: &Refusals,
    said: &mut Said,
) -> bool
    requires { main.old.table ≡ N.table }
    ensures { main.new ≡ record main.old { seen = main.new.seen } }
{
    let mut is_right = again!(refusals, Call::History, say_history(rt, realm, main, said)).is_ok();
    for scope in 1..SEEN {
        is_right = see_scope(rt, realm, main, scope, refusals, said) && is_right;
    }
    is_right
}

/// The same of the scope.
fn see_scope<N: RealmName, R: Wait>(
    rt: &R,
    realm: &Realm<AnyEnd, N>,
    main: &mut ActorToken,
    scope: ScopeId,
    refusals: &Refusals,
    said: &mut Said,
) -> bool
    requires { main.old.table ≡ N.table }
    ensures { main.new ≡ record main.old { seen = main.new.seen } }
{
    let view = again!(refusals, Call::View, say_view(rt, realm, main, scope, said));
    let mark = again!(refusals, Call::Cell, shown(rt, realm, main, scope));
    view == mark
}

/// Gives the realm the command, once more where memory is refused, and looks at it then: false where a call
/// could not be made, or something is shown otherwise.
fn drive<N: RealmName, R: Wait>(
    rt: &R,
    realm: &Realm<AnyEnd, N>,
    hands: &mut Hands<N>,
    command: Command,
    is_used_up: bool,
    refusals: &Refusals,
    said: &mut Said,
) -> bool {
    let made = again!(
        refusals,
        call_of(command),
        call_once(rt, realm, hands, command, said)
    );
    if is_used_up {
        return made == Ok(true);
    }
    let Some(mut main) = hands.token(MAIN) else {
        return false;
    };
    let is_right = see(rt, realm, &mut main, refusals, said);
    hands.keep_token(MAIN, main);
    hands.is_right() && made == Ok(true) && is_right
}

/// Plays the script on a realm, and writes what is answered: false where a call was refused memory twice, nobody
/// held what one needs, or a scope's cell showed otherwise than its view. None where memory was refused before it
/// began.
pub fn on_a_realm<N: RealmName, R: Wait + Print>(
    rt: &R,
    alloc: Global,
    seed: Seed,
    script: &String,
    refusals: &Refusals,
) -> Option<bool>
    requires { seed ≡ N.table }
{
    let mut said = Said::new(alloc)?;
    let Ok((realm, main)) = Realm::<AnyEnd, N>::new(alloc, seed, Limits::GREATEST) else {
        return None;
    };
    let mut hands = Hands::<N>::new(alloc, main)?;
    let is_played = play_on(
        rt,
        alloc,
        &realm,
        &mut hands,
        script.as_str(),
        refusals,
        &mut said,
    );
    Some(is_played && said.write(rt))
}

/// The same on a realm that is there.
fn play_on<N: RealmName, R: Wait>(
    rt: &R,
    alloc: Global,
    realm: &Realm<AnyEnd, N>,
    hands: &mut Hands<N>,
    script: &str,
    refusals: &Refusals,
    said: &mut Said,
) -> bool {
    let mut is_used_up = false;
    let mut is_played = true;
    for line in script.lines() {
        match read_of(line) {
            Read::UseUp => {
                is_used_up = true;
                use_up(alloc);
            }
            Read::Nothing => {}
            Read::Command(command) => {
                is_played = drive(rt, realm, hands, command, is_used_up, refusals, said)
                    && is_played;
            }
        }
    }
    is_played
}
