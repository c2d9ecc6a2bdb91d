//! Named jobs, and a clock of a test's own.
ghost use Rattle.std.specs.Prelude.{◌≡◌, Some};

use scope_rules::{Due, End, Label, Name, Value};
use share_ledger::{Answers, Clock, NamedJob};
use std::test::Fail;

/// A job that may answer its number alone.
#[derive(Drop)]
struct Counted(i64);

impl Answers for Counted {
    ghost use Rattle.std.specs.Prelude.{◌≡◌, Ok};
    ghost use Rattle.scope_rules.specs.declared.types.values.Value.TheVariants.{Num};

    ghost may_end = { λ job end. end ≡ Ok (Num job.0) };
}

/// The job with that number, under a label that expects it.
fn named(name: Name, number: i64) -> NamedJob<Due, Counted> {
    let end: End = Ok(Value::Num(number));
    let label = Label {
        name,
        due: Some(end),
    };
    NamedJob::new(label, Counted(number))
}

/// A clock that goes on by one at each reading.
#[derive(Drop)]
struct Steady {
    last: Option<u64>,
}

impl Clock for Steady {
    ghost reading = { λ clock. clock.last };

    ghost reads = { λ old new now. new.last ≡ Some now };

    fn now(&mut self) -> u64 {
        let now = match self.last {
            Some(last) => last.saturating_add(1),
            None => 0,
        };
        self.last = Some(now);
        now
    }

    fn last(&self) -> Option<u64> {
        self.last
    }
}

/// Two readings, and what the clock says of them after each.
fn read_twice<K: Clock>(clock: &mut K) -> [(u64, Option<u64>); 2] {
    let first = clock.now();
    let after = clock.last();
    let second = clock.now();
    [(first, after), (second, clock.last())]
}

#[test]
fn a_job_is_named_and_a_clock_is_read(rt: HostRuntime) -> Result<(), Fail> {
    let name = Name::new(b"work").ok_or("a name")?;
    let job = named(name, 7);
    assert!(rt; job.label().name == name && job.label().due == Some(Ok(Value::Num(7))));
    assert_eq!(rt; job.into_job().0, 7);
    let mut clock = Steady { last: None };
    assert!(rt; read_twice(&mut clock) == [(0, Some(0)), (1, Some(1))]);
    Ok(())
}
