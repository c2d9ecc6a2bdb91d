//! A command of a script as a call of a realm, by one thread that plays all actors.
ghost use Rattle.std.specs.Prelude.{◌≡◌, IfErr, IfSome};
ghost use Rattle.share_ledger.specs.Values.{IsWaiting};
ghost use Rattle.realm_core.specs.Tasks.{IsRunning};

use crate::hands::Hands;
use join_rules::{Joiner, UntilTest};
use realm_lock::{ActorToken, Forked, Realm, RealmName, Ticket};
use scope_rules::{
    Actor, AnyEnd, Base, Cancelling, End, Event, ForkReply, Label, Options, Policy, Refusal,
    ScopeId, TaskId,
};
use scope_script::{Command, Query, Reply};
use std::sync::Wait;

fn joiner_of(policy: Policy) -> Joiner {
    match policy {
        Policy::All => Joiner::All,
        Policy::Any => Joiner::Any,
        Policy::AwaitAll => Joiner::AwaitAll,
        Policy::AwaitOk => Joiner::AwaitOk,
        Policy::Until(rule) => Joiner::Until(UntilTest::Plain(rule)),
    }
}

/// What is told of the value that was answered.
fn told<T, F: FnOnce(T) -> Reply + Drop>(answer: Result<T, Refusal>, tell: F) -> Reply
    requires { F.IsAlwaysCallable tell }
{
    match answer {
        Ok(value) => tell(value),
        Err(refusal) => Reply::Refused(refusal),
    }
}

fn done(answer: Result<(), Refusal>, said: Reply) -> Reply {
    match answer {
        Ok(()) => said,
        Err(refusal) => Reply::Refused(refusal),
    }
}

fn recorded(answer: Result<Cancelling, Refusal>, said: Reply) -> Reply {
    match answer {
        Ok(Cancelling::Recorded) => said,
        Ok(Cancelling::Already) => Reply::Already,
        Err(refusal) => Reply::Refused(refusal),
    }
}

/// What the realm answers to the event's call with the token. None where no token makes it.
fn acted<N: RealmName, R: Wait>(
    rt: &R,
    realm: &Realm<AnyEnd, N>,
    token: &mut ActorToken,
    event: Event,
) -> Option<Reply>
    requires { token.old.table ≡ N.table }
    ensures { token.new ≡ record token.old { seen = token.new.seen } }
{
    match event {
        Event::Open {
            policy,
            options,
            ..
        } => Some(match realm.open(rt, token, joiner_of(policy), options) {
            Ok(scope) => Reply::Scope(scope),
            Err((refusal, _)) => Reply::Refused(refusal),
        }),
        Event::Cancel { scope } => Some(recorded(realm.cancel(rt, token, scope), Reply::Cancelled)),
        Event::Move { scope, deadline } => Some(done(
            realm.move_deadline(rt, token, scope, deadline),
            Reply::Moved,
        )),
        Event::Tick { now } => Some(done(realm.tick(rt, token, now), Reply::Moment(now))),
        Event::Bind { binding, .. } => Some(done(
            realm.bind(rt, token, binding.key, binding.value),
            Reply::Bound,
        )),
        Event::Unbind { .. } => Some(done(realm.unbind(rt, token), Reply::Unbound)),
        Event::Join { scope, .. } => Some(match realm.join(rt, token, scope) {
            Ok(joined) => Reply::Outcome(joined.outcome),
            Err(refusal) => Reply::Refused(refusal),
        }),
        Event::BeginClose { scope, .. } => {
            Some(recorded(realm.begin_close(rt, token, scope), Reply::Closing))
        }
        Event::EndClose { scope, .. } => {
            Some(told(realm.close_bare(rt, token, scope), Reply::Closed))
        }
        _ => None,
    }
}

/// What the realm answers to the query with the token. None where no call asks it.
fn asked<N: RealmName, R: Wait>(
    rt: &R,
    realm: &Realm<AnyEnd, N>,
    token: &mut ActorToken,
    query: Query,
) -> Option<Reply>
    requires { token.old.table ≡ N.table }
    ensures { token.new ≡ record token.old { seen = token.new.seen } }
{
    match query {
        Query::State { task } => Some(told(realm.state(rt, token, task), Reply::State)),
        Query::Stage { .. } => None,
        Query::Result { task, .. } => Some(told(realm.result(rt, token, task), Reply::Value)),
        Query::Fault { task, .. } => Some(told(realm.fault(rt, token, task), Reply::Fault)),
        Query::Cause { scope } => Some(match realm.view(rt, token, scope) {
            Ok(view) => Reply::Cause(view.cause),
            Err(refusal) => Reply::Refused(refusal),
        }),
        Query::Until { scope } => Some(told(
            realm.effective_deadline(rt, token, scope),
            Reply::Until,
        )),
        Query::Counts { scope } => Some(match realm.view(rt, token, scope) {
            Ok(view) => Reply::Counts(view.counts),
            Err(refusal) => Reply::Refused(refusal),
        }),
        Query::Get { key, .. } => Some(told(realm.get(rt, token, &key), Reply::Value)),
    }
}

/// Whose token the command needs.
fn actor_of(command: Command) -> Actor {
    match command {
        Command::Do(event) => match event {
            Event::Open { actor, .. }
            | Event::Fork { actor, .. }
            | Event::Bind { actor, .. }
            | Event::Unbind { actor }
            | Event::Join { actor, .. }
            | Event::BeginClose { actor, .. }
            | Event::EndClose { actor, .. } => actor,
            _ => 0,
        },
        Command::Retire { actor } => actor,
        Command::Ask(query) => match query {
            Query::Result { actor, .. } | Query::Fault { actor, .. } | Query::Get { actor, .. } =>
                actor,
            _ => 0,
        },
    }
}

/// Forks with the token, and keeps the ticket.
fn forked<N: RealmName, R: Wait>(
    rt: &R,
    realm: &Realm<AnyEnd, N>,
    hands: &mut Hands<N>,
    token: &mut ActorToken,
    scope: ScopeId,
    label: Label,
) -> Reply
    requires { token.old.table ≡ N.table }
    ensures { token.new ≡ record token.old { seen = token.new.seen } }
{
    match realm.fork(rt, token, scope, label) {
        Ok(Forked::Thread(ticket)) => {
            let task = ticket.task();
            hands.keep_ticket(task, ticket);
            Reply::Task(ForkReply::Thread(task))
        }
        Ok(Forked::Never(task)) => Reply::Task(ForkReply::Never(task)),
        Err(refusal) => Reply::Refused(refusal),
    }
}

/// Starts the ticket's task, and gives its token, or rejects it.
fn stepped<N: RealmName, R: Wait>(
    rt: &R,
    realm: &Realm<AnyEnd, N>,
    ticket: Ticket,
    starts: bool,
) -> (Ticket, Option<ActorToken>)
    requires { (ticket.table ≡ N.table) × IsWaiting ticket }
    ensures ticket { result.0.table ≡ N.table }
    ensures token { IfSome result.1 (λ token. token.table ≡ N.table) }
{
    if !starts {
        return (realm.reject(rt, ticket), None);
    }
    let (ticket, token) = realm.start(rt, ticket);
    (ticket, Some(token))
}

/// Rejects or starts the task, where its ticket waits. The ticket then counts so.
fn begun<N: RealmName, R: Wait>(
    rt: &R,
    realm: &Realm<AnyEnd, N>,
    hands: &mut Hands<N>,
    task: TaskId,
    starts: bool,
) -> Option<Reply> {
    let ticket = hands.ticket(task)?;
    if ticket.given() == 0 || ticket.started() != 0 {
        hands.keep_ticket(task, ticket);
        return None;
    }
    let (ticket, token) = stepped(rt, realm, ticket, starts);
    hands.check((ticket.given(), ticket.started()) == (u64::from(starts), u64::from(starts)));
    hands.keep_ticket(task, ticket);
    let Some(token) = token else {
        return Some(Reply::Rejected);
    };
    hands.keep_token(task, token);
    Some(Reply::Started)
}

/// Takes out the ticket of the task, if it runs.
fn running<N: RealmName>(hands: &mut Hands<N>, task: TaskId) -> Option<Ticket>
    ensures { IfSome result (λ ticket. (ticket.table ≡ N.table) × IsRunning ticket × (ticket.task ≡ task)) }
{
    let ticket = hands.ticket(task)?;
    if ticket.given() == 0
        || ticket.started() == 0
        || ticket.finished() != 0
        || ticket.task() != task
    {
        hands.keep_ticket(task, ticket);
        return None;
    }
    Some(ticket)
}

/// Ends the ticket's task. The token comes back where that is refused.
fn finished<N: RealmName, R: Wait>(
    rt: &R,
    realm: &Realm<AnyEnd, N>,
    ticket: Ticket,
    token: ActorToken,
    end: End,
) -> (Ticket, Result<(), (Refusal, ActorToken)>)
    requires ticket { (ticket.table ≡ N.table) × IsRunning ticket }
    requires token { (token.table ≡ N.table) × (token.actor ≡ ticket.task) }
    ensures ticket { result.0.table ≡ N.table }
    ensures token { IfErr result.1 (λ back. back.1.table ≡ N.table) }
{
    match realm.finish(rt, ticket, token, end) {
        Ok(ticket) => (ticket, Ok(())),
        Err((refusal, ticket, token)) => (ticket, Err((refusal, token))),
    }
}

/// Ends the task, where it runs. The ticket then tells that end.
fn ended<N: RealmName, R: Wait>(
    rt: &R,
    realm: &Realm<AnyEnd, N>,
    hands: &mut Hands<N>,
    task: TaskId,
    end: End,
) -> Option<Reply> {
    let token = hands.token(task)?;
    let Some(ticket) = running(hands, task) else {
        hands.keep_token(task, token);
        return None;
    };
    if token.actor() != task {
        hands.check(false);
        return None;
    }
    let (ticket, answer) = finished(rt, realm, ticket, token, end);
    hands.check(answer.is_err() || ticket.end() == Some(end));
    hands.keep_ticket(task, ticket);
    match answer {
        Ok(()) => Some(Reply::Finished),
        Err((refusal, token)) => {
            hands.keep_token(task, token);
            Some(Reply::Refused(refusal))
        }
    }
}

/// What the realm answers to the actor's command, with its token. None where no call makes it.
fn answered<N: RealmName, R: Wait>(
    rt: &R,
    realm: &Realm<AnyEnd, N>,
    hands: &mut Hands<N>,
    token: &mut ActorToken,
    command: Command,
) -> Option<Reply>
    requires { token.old.table ≡ N.table }
    ensures { token.new ≡ record token.old { seen = token.new.seen } }
{
    match command {
        Command::Do(Event::Fork { scope, label, .. }) => {
            Some(forked(rt, realm, hands, token, scope, label))
        }
        Command::Do(event) => acted(rt, realm, token, event),
        Command::Ask(query) => asked(rt, realm, token, query),
        Command::Retire { .. } => Some(match realm.retire(rt, token) {
            Ok(base) => Reply::Retired {
                scopes: base.scopes(),
                tasks: base.tasks(),
            },
            Err(refusal) => Reply::Refused(refusal),
        }),
    }
}

/// What the realm answers to the command. None where nobody holds what its call needs.
pub fn driven<N: RealmName, R: Wait>(
    rt: &R,
    realm: &Realm<AnyEnd, N>,
    hands: &mut Hands<N>,
    command: Command,
) -> Option<Reply> {
    match command {
        Command::Do(Event::Reject { task }) => return begun(rt, realm, hands, task, false),
        Command::Do(Event::Start { task }) => return begun(rt, realm, hands, task, true),
        Command::Do(Event::Finish { task, end }) => return ended(rt, realm, hands, task, end),
        _ => {}
    }
    let actor = actor_of(command);
    let mut token = hands.token(actor)?;
    let reply = answered(rt, realm, hands, &mut token, command);
    hands.keep_token(actor, token);
    reply
}
