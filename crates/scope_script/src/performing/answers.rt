//! From what the book answers to the reply.

ghost use Rattle.std.specs.Prelude.{◌≡◌, MatchResult};
ghost use Rattle.scope_script.specs.{done_reply, replied, reply_of, told_base};

use scope_checks::EventReply;
use scope_rules::{Base, Event, Refusal};
use script_words::Reply;

/// The reply that a constructor makes of what was answered.
pub(crate) fn told<T, F: FnOnce(T) -> Reply + Drop>(answer: Result<T, Refusal>, tell: F) -> Reply
    requires { F.IsAlwaysCallable tell }
    ensures { MatchResult answer (λ x. F.post tell x result) (λ refusal. result ≡ Reply.Refused refusal) }
{
    match answer {
        Ok(value) => tell(value),
        Err(refusal) => Reply::Refused(refusal),
    }
}

/// The reply to the event that was told so by its realm, whichever it is. What a join gave is read from the
/// realm, which tells nothing of it.
pub fn reply_of(event: &Event, told: EventReply) -> Reply
    ensures { result ≡ reply_of event.now told }
{
    match told {
        EventReply::Scope(scope) => Reply::Scope(scope),
        EventReply::Task(task) => Reply::Task(task),
        EventReply::Already => Reply::Already,
        EventReply::Closed(verdict) => Reply::Closed(verdict),
        EventReply::Recorded | EventReply::Done => done_reply(event),
    }
}

/// The reply to the event that was recorded and tells no more.
fn done_reply(event: &Event) -> Reply
    ensures { result ≡ done_reply event.now }
{
    match *event {
        Event::Reject { .. } => Reply::Rejected,
        Event::Start { .. } => Reply::Started,
        Event::Finish { .. } => Reply::Finished,
        Event::Cancel { .. } => Reply::Cancelled,
        Event::Move { .. } => Reply::Moved,
        Event::Tick { now } => Reply::Moment(now),
        Event::Bind { .. } => Reply::Bound,
        Event::Unbind { .. } => Reply::Unbound,
        Event::BeginClose { .. } => Reply::Closing,
        _ => Reply::Already,
    }
}

/// The reply of a retirement.
pub(crate) fn retired(answer: Result<Base, Refusal>) -> Reply
    ensures { result ≡ replied told_base answer }
{
    match answer {
        Ok(base) => Reply::Retired {
            scopes: base.scopes(),
            tasks: base.tasks(),
        },
        Err(refusal) => Reply::Refused(refusal),
    }
}
