//! How the parts of a line are shown.
ghost use Rattle.script_words.specs.{Some, counts_line};

use scope_rules::Counts;
use std::fmt;

/// How many tasks of a scope are at each stage.
#[derive(Clone, Copy)]
pub struct ShownCounts(pub Counts);

impl fmt::Display for ShownCounts {
    ghost output = { λ c. Some (counts_line c.0) };

    fn fmt<W: fmt::Write>(&self, f: &mut fmt::Formatter<W>) -> fmt::Result {
        let Counts {
            never,
            waiting,
            running,
            finished,
        } = self.0;
        write!(
            f,
            "counts never={never} waiting={waiting} running={running} finished={finished}"
        )
    }
}
