//! The script's commands on the plain evaluator.

use scope_model::Plain;
use scope_rules::{Cancelling, Event, Refusal};
use scope_script::{Command, Query, Reply};

/// What the plain evaluator answers to the command.
pub fn reply_of(realm: &mut Plain, command: Command) -> Reply {
    let answer = match command {
        Command::Do(event) => tried(realm, event),
        Command::Retire { actor } => retired(realm, actor),
        Command::Ask(query) => asked(realm, query),
    };
    match answer {
        Ok(reply) => reply,
        Err(refusal) => Reply::Refused(refusal),
    }
}

fn tried(realm: &mut Plain, event: Event) -> Result<Reply, Refusal> {
    Ok(match event {
        Event::Open {
            actor,
            policy,
            options,
        } => Reply::Scope(realm.open(actor, policy, options)?),
        Event::Fork {
            actor,
            scope,
            label,
        } => Reply::Task(realm.fork(actor, scope, label)?),
        Event::Reject { task } => said(realm.reject(task)?, Reply::Rejected),
        Event::Start { task } => said(realm.start(task)?, Reply::Started),
        Event::Finish { task, end } => said(realm.finish(task, end)?, Reply::Finished),
        Event::Cancel { scope } => recorded(realm.cancel(scope)?, Reply::Cancelled),
        Event::Move { scope, deadline } => said(
            realm.move_deadline(scope, deadline)?,
            Reply::Moved,
        ),
        Event::Tick { now } => said(realm.tick(now)?, Reply::Moment(now)),
        Event::Bind { actor, binding } => {
            said(realm.bind(actor, binding.key, binding.value)?, Reply::Bound)
        }
        Event::Unbind { actor } => said(realm.unbind(actor)?, Reply::Unbound),
        Event::Join { actor, scope } => {
            realm.join_now(actor, scope)?;
            Reply::Outcome(realm.outcome(scope)?)
        }
        Event::BeginClose { actor, scope } => {
            recorded(realm.begin_close(actor, scope)?, Reply::Closing)
        }
        Event::EndClose { actor, scope } => Reply::Closed(realm.end_close(actor, scope)?),
    })
}

fn said(_done: (), said: Reply) -> Reply {
    said
}

fn recorded(cancelling: Cancelling, said: Reply) -> Reply {
    match cancelling {
        Cancelling::Recorded => said,
        Cancelling::Already => Reply::Already,
    }
}

fn retired(realm: &mut Plain, actor: u32) -> Result<Reply, Refusal> {
    let base = realm.retire(actor)?;
    Ok(Reply::Retired {
        scopes: base.scopes(),
        tasks: base.tasks(),
    })
}

fn asked(realm: &Plain, query: Query) -> Result<Reply, Refusal> {
    match query {
        Query::State { task } => Ok(Reply::State(realm.state(task)?)),
        Query::Stage { task } => Ok(Reply::Stage(realm.stage(task)?)),
        Query::Result { actor, task } => Ok(Reply::Value(realm.result(actor, task)?)),
        Query::Fault { actor, task } => Ok(Reply::Fault(realm.fault(actor, task)?)),
        Query::Cause { scope } => Ok(Reply::Cause(realm.cause(scope)?)),
        Query::Until { scope } => Ok(Reply::Until(realm.effective_deadline(scope)?)),
        Query::Counts { scope } => Ok(Reply::Counts(realm.counts(scope)?)),
        Query::Get { actor, key } => Ok(Reply::Value(realm.binding(actor, &key)?)),
    }
}
