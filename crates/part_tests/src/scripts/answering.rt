//! Answers to plans, for jobs that end in one order or another.

use crate::scripts::joins::answered;
use crate::scripts::plans::plan;
use quote_plan::{Answer, NoAnswer, Plan, Quote, Quotes, answer};
use scope_rules::{Expiry, Outcome, State, TaskState, Value};
use std::test::Fail;

// A row is a plan, the steps before the join of its jobs, and what is answered then: a line, or the reason why
// there is none.

/// Each job that ends does so as its offer says, in an order by which the answer goes, or must not go; and plans
/// whose answer must be the same where the scope would move on at a deadline.
const ANSWERED: [&str; 15] = [
    "mode best / offer a 905 / offer b 899 / offer c 899 > ends 2 / ends 1 / ends 0 > best b 899",
    "mode best / offer a 3 / offer b 3 / offer c 3 > ends 1 / ends 2 / ends 0 > best a 3",
    "mode all / offer a 5 / offer b 0 > ends 1 / ends 0 > all a=5 b=0",
    "mode all / offer a 5 / offer b fail down > ends 1 > failed b down",
    "mode all / offer a fail x / offer b fail y > ends 1 / ends 0 > failed b y",
    "mode all / offer a fail x / offer b fail y > ends 0 > failed a x",
    "mode first / offer a 5 / offer b fail down > ends 1 / ends 0 > first a 5",
    "mode first / offer a 5 / offer b 4 > ends 1 > first b 4",
    "mode first / offer a 5 / offer b 4 > ends 0 / ends 1 > first a 5",
    "mode first / offer a fail x / offer b fail y > ends 1 / ends 0 > failed b y",
    "mode best / offer a 5 > tick 9 / ends 0 > best a 5",
    "mode best / offer a fail x / offer b fail y > ends 0 / ends 1 > none",
    "mode best > - > none",
    "mode all > - > all",
    "mode first > - > empty",
];

/// Some job ends with a fault that the runtime makes.
const LOST: [&str; 9] = [
    "mode best / offer a 5 / offer b 6 > ends 0 / fails 1 memory > lost",
    "mode best / offer a fail x > fails 0 left-open > lost",
    "mode all / offer a 5 / offer b fail x > fails 0 cancelled / ends 1 > lost",
    "mode all / offer a 5 / offer b fail x > fails 1 memory > lost",
    "mode all / offer a 5 / offer b fail x > ends 1 / fails 0 memory > failed b x",
    "mode first / offer a 5 / offer b fail x > ends 1 / fails 0 memory > lost",
    "mode first / offer a fail x / offer b fail y > ends 0 / fails 1 memory > lost",
    "mode first / offer a 5 / offer b fail x > fails 1 memory / ends 0 > first a 5",
    "mode first / offer a 5 / offer b 6 > fails 0 left-open / ends 1 > first b 6",
];

/// The deadline passes, and the scope moves on.
const PARTIAL: [&str; 8] = [
    "mode best / offer a 5 / offer b 6 / offer c fail x / offer d 7 > ends 3 / ends 0 / ends 2 / tick 10 / ends 1 > partial a=5 d=7",
    "mode all / offer a 5 / offer b 6 > ends 1 / tick 11 > partial b=6",
    "mode first / offer a 5 / offer b fail x > ends 1 / tick 10 > partial",
    "mode best > tick 10 > partial",
    "mode best / offer a 5 / offer b 6 > fails 0 memory / tick 10 > lost",
    "mode best / offer a 5 / offer b 6 > ends 0 / tick 10 / fails 1 memory > partial a=5",
    "mode first / offer a 5 > ends 0 / tick 10 > first a 5",
    "mode best / offer a 5 > cancel / tick 10 > cancelled",
];

/// The scope is cancelled, or its time runs out.
const CANCELLED: [&str; 4] = [
    "mode best / offer a 5 / offer b 6 > ends 0 / ends 1 / tick 10 > cancelled",
    "mode all / offer a 5 / offer b 6 > ends 0 / cancel > cancelled",
    "mode first / offer a fail x > cancel / ends 0 > cancelled",
    "mode first > tick 10 > cancelled",
];

/// The rows, and what their scopes do at the deadline.
const ROWS: [(&[&str], Expiry); 5] = [
    (&ANSWERED, Expiry::Fail),
    (&ANSWERED, Expiry::MoveOn),
    (&LOST, Expiry::Fail),
    (&PARTIAL, Expiry::MoveOn),
    (&CANCELLED, Expiry::Fail),
];

/// Whether the plan of the row is answered so.
fn is_answered(rt: &impl AllocGlobal, row: &str, expiry: Expiry) -> Result<bool, Fail> {
    let mut parts = row.split(" > ");
    let (Some(text), Some(steps), Some(wanted)) = (parts.next(), parts.next(), parts.next()) else {
        return Err("a row")?;
    };
    let plan = plan(rt, text)?;
    Ok(match answered(rt.alloc(), &plan, expiry, steps)? {
        Ok(line) => line.as_str() == wanted,
        Err(NoAnswer::Lost) => wanted == "lost",
        Err(NoAnswer::Cancelled) => wanted == "cancelled",
        Err(NoAnswer::Memory) => false,
    })
}

#[test]
fn plans_are_answered(rt: HostRuntime) -> Result<(), Fail> {
    for (rows, expiry) in ROWS {
        for row in rows {
            assert!(rt; is_answered(&rt, row, expiry)?, "{row}");
        }
    }
    Ok(())
}

/// Whether the plan has no answer after this outcome, since it would rest on an end that is not the offer's.
fn is_lost(rt: &impl AllocGlobal, plan: &Plan, tasks: &[TaskState], outcome: Outcome) -> bool {
    matches!(
        answer(rt.alloc(), plan, tasks, &outcome),
        Err(NoAnswer::Lost)
    )
}

#[test]
fn outcomes_that_the_joiner_never_gives(rt: HostRuntime) -> Result<(), Fail> {
    let plan = plan(&rt, "mode all / offer a 5")?;
    let value = Value::Num(5);
    let tasks = [TaskState {
        task: 1,
        state: State::Success(value),
    }];
    let any = Outcome::Any { task: 1, value };
    assert!(rt;
        is_lost(&rt, &plan, &tasks, Outcome::Done)
            && is_lost(&rt, &plan, &tasks, Outcome::Empty)
            && is_lost(&rt, &plan, &tasks, any),
        "it has an answer"
    );
    Ok(())
}

#[test]
fn prices_below_0_and_of_many_digits(rt: HostRuntime) -> Result<(), Fail> {
    let plan = plan(&rt, "mode all / offer a 5 / offer b-2 6")?;
    let mut quotes = Vec::new(rt.alloc());
    for (place, price) in [(0, i64::MIN), (1, i64::MAX)] {
        let (name, _) = plan.named_at(place).ok_or("an offer")?;
        quotes.push(Quote { name, price })?;
    }
    let answer = Answer::All(Quotes::new(quotes));
    let line = answer.text(rt.alloc())?;
    let wanted = "all a=-9223372036854775808 b-2=9223372036854775807";
    assert_eq!(rt; line.as_str(), wanted);
    Ok(())
}
