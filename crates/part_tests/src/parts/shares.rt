//! The share ledger, by one thread: what tickets say of themselves once the keeper took their steps.
ghost use Rattle.std.specs.Prelude.{◌≡◌, []};
ghost use Rattle.scope_rules.specs.declared.types.values.TheConstants.{MAIN};

use super::name;
use scope_rules::types::values::MAIN;
use scope_rules::{End, Event, Fault, Label, Limits, TaskId, Value};
use share_ledger::{Keeper, OwnerShare, Seed, Ticket, Totals, gather};
use std::test::Fail;

/// What so many tickets say together.
const fn totals(given: u64, started: u64, finished: u64) -> Totals {
    Totals {
        given,
        started,
        finished,
    }
}

/// Main forks two tasks in scope 1. Both start, and then end, the second first.
fn two_ended(
    keeper: &mut Keeper,
    main: &mut OwnerShare,
    label: &Label,
    ends: (End, End),
) -> [Ticket; 2]
    requires table { main.old.table ≡ keeper.old.table }
    requires fresh { keeper.old.steps ≡ [] }
{
    let mut one = keeper.fork(main, 1, 1, label);
    let mut two = keeper.fork(main, 2, 1, label);
    let first = keeper.start(&mut one);
    let second = keeper.start(&mut two);
    keeper.finish(&mut two, second, ends.1);
    keeper.finish(&mut one, first, ends.0);
    [one, two]
}

/// Main forks a task in scope 1, which is rejected, and one that never gets a thread. Then come a tick and
/// a retirement, and main and the ticket follow.
fn one_rejected(keeper: &mut Keeper, main: &mut OwnerShare, label: &Label) -> Ticket
    requires table { main.old.table ≡ keeper.old.table }
    requires main { main.old.actor ≡ MAIN }
    requires fresh { keeper.old.steps ≡ [] }
{
    let mut ticket = keeper.fork(main, 1, 1, label);
    keeper.reject(&mut ticket);
    keeper.fork_never(main, 1, label);
    keeper.record(main, &Event::Tick { now: 5 });
    keeper.retire(main);
    keeper.follow(main);
    keeper.follow_ticket(&mut ticket);
    ticket
}

/// Whether the ticket says this of its task, which was forked in scope 1.
fn tells(ticket: &Ticket, task: TaskId, label: Label, end: Option<End>) -> bool {
    ticket.task() == task && ticket.scope() == 1 && ticket.label() == label && ticket.end() == end
}

#[test]
fn two_tickets_start_and_end(rt: HostRuntime) -> Result<(), Fail> {
    let label = Label {
        name: name(b"work")?,
        due: None,
    };
    let ends: (End, End) = (Ok(Value::Num(7)), Err(Fault(name(b"boom")?)));
    let (mut keeper, mut main) = Seed::new(rt.alloc())?.begin(Limits::GREATEST);
    let tickets = two_ended(&mut keeper, &mut main, &label, ends);
    assert!(rt; gather(&tickets) == totals(2, 2, 2));
    assert!(rt;
        tells(&tickets[0], 1, label, Some(ends.0)) && tells(&tickets[1], 2, label, Some(ends.1))
    );
    Ok(())
}

#[test]
fn a_rejected_ticket_has_no_thread(rt: HostRuntime) -> Result<(), Fail> {
    let label = Label {
        name: name(b"work")?,
        due: None,
    };
    let (mut keeper, mut main) = Seed::new(rt.alloc())?.begin(Limits::GREATEST);
    let tickets = [one_rejected(&mut keeper, &mut main, &label)];
    assert!(rt; gather(&tickets) == totals(0, 0, 0) && main.actor() == MAIN);
    assert!(rt; tells(&tickets[0], 1, label, None));
    Ok(())
}
