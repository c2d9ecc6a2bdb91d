//! What the program says on standard error: why it ends with status 1, and how many lines were refused.
ghost use Rattle.std.specs.Prelude.{◌≡◌, ◌≤◌};
ghost use Rattle.scopectl.specs.{IfSome, cause_of, count_text, fault_of_noted, fault_of_plan, fault_of_run, fault_of_service, foreign_text, length, line_of, option_map, word_of};

use arrayvec::ArrayString;
use itoa::Buffer;
use quote_gateway::{GatewayFault, PlanFault, PlanWhy};
use scope_script::ScriptFault;
use script_jobs::{Count, NotedFault};
use thiserror::Error;

/// Why the program ends with status 1. It is shown as on standard error, but for the program's name and the line's end.
#[derive(Clone, Copy, Debug, Error)]
pub enum ProgramFault {
    /// Standard input failed.
    #[error("read")]
    Read,
    /// Standard output failed.
    #[error("write")]
    Write,
    /// Standard error failed, if notes were to be written.
    #[error("notes")]
    Notes,
    /// Memory was refused.
    #[error("memory")]
    Memory,
    /// This line of the plan is the first bad one, counted from 1, for this cause; if no line says a mode
    /// and none is bad, it is the line after the last.
    #[error("plan line {line}: bad-word")]
    PlanLine { line: usize, why: PlanWhy },
    /// The jobs weren't those of the plan.
    #[error("strange")]
    Strange,
    /// A thread was refused, or a call for another cause than memory.
    #[error("rejected")]
    Rejected,
    /// The scope of the jobs was cancelled.
    #[error("cancelled")]
    Cancelled,
    /// The answer would rest on an end that is not the offer's.
    #[error("lost")]
    Lost,
    /// No offer of the plan has the name of the one that is to take time.
    #[error("after")]
    NoOffer,
    /// The system gives no time.
    #[error("time")]
    Time,
}

/// How many bytes the lines that name a fault and its cause may have.
pub const LINE_ROOM: usize = 192;

impl ProgramFault {
    /// The program's fault for a fault of the run.
    pub fn of_run(fault: ScriptFault) -> ProgramFault
        ensures { result ≡ fault_of_run fault }
    {
        match fault {
            ScriptFault::Read => ProgramFault::Read,
            ScriptFault::Write => ProgramFault::Write,
            ScriptFault::Memory => ProgramFault::Memory,
        }
    }

    /// The program's fault for a fault of a replay with notes.
    pub fn of_noted(fault: NotedFault) -> ProgramFault
        ensures { result ≡ fault_of_noted fault }
    {
        match fault {
            NotedFault::Run(fault) => ProgramFault::of_run(fault),
            NotedFault::Notes => ProgramFault::Notes,
        }
    }

    /// The program's fault for one in reading a plan.
    pub fn of_plan(fault: PlanFault) -> ProgramFault
        ensures { result ≡ fault_of_plan fault }
    {
        match fault {
            PlanFault::Word { line, why } => ProgramFault::PlanLine { line, why },
            PlanFault::Memory => ProgramFault::Memory,
        }
    }

    /// The program's fault for one in serving a plan.
    pub fn of_service(fault: GatewayFault) -> ProgramFault
        ensures { result ≡ fault_of_service fault }
    {
        match fault {
            GatewayFault::Strange => ProgramFault::Strange,
            GatewayFault::Memory => ProgramFault::Memory,
            GatewayFault::Rejected => ProgramFault::Rejected,
            GatewayFault::Cancelled => ProgramFault::Cancelled,
            GatewayFault::Lost => ProgramFault::Lost,
        }
    }

    /// The line on standard error that names the fault, with its end, and the line of its cause behind it, if it has one.
    /// It takes no memory. Its text is that of
    /// the derive, of which no clause can speak: so it is made here once more, and `gate/texts` compares the two.
    pub fn line(self) -> ArrayString<LINE_ROOM>
        ensures { result.bytes ≡ line_of self }
    {
        let mut digits = Buffer::new();
        let mut line = ArrayString::new();
        line.push_str("scopectl: ");
        if let ProgramFault::PlanLine {
            line: number,
            why: _,
        } = self
        {
            line.push_str("plan line ");
            line.push_str(digits.format(number));
            line.push_str(": ");
        }
        line.push_str(self.word());
        line.push_str("\n");
        if let Some(cause) = self.cause() {
            line.push_str("hint: ");
            line.push_str(cause);
            line.push_str("\n");
        }
        line
    }

    /// What more is said of the fault, in a line of its own.
    fn cause(self) -> Option<&'static str>
        ensures cause { option_map (λ words. words.now) result ≡ cause_of self }
        ensures short { IfSome result (λ words. length words.now ≤ 90) }
    {
        match self {
            ProgramFault::PlanLine { line: _, why } => Some(why.words()),
            ProgramFault::NoOffer => Some("no offer of the plan has that name"),
            _ => None,
        }
    }

    /// The word at the end of the line that names the fault.
    fn word(self) -> &'static str
        ensures word { result.now ≡ word_of self }
        ensures short { length result.now ≤ 48 }
    {
        match self {
            ProgramFault::Read => "read",
            ProgramFault::Write => "write",
            ProgramFault::Notes => "notes",
            ProgramFault::Memory => "memory",
            ProgramFault::PlanLine { .. } => "bad-word",
            ProgramFault::Strange => "strange",
            ProgramFault::Rejected => "rejected",
            ProgramFault::Cancelled => "cancelled",
            ProgramFault::Lost => "lost",
            ProgramFault::NoOffer => "after",
            ProgramFault::Time => "time",
        }
    }
}

/// How many bytes the text on refused lines may have.
pub const COUNT_ROOM: usize = 192;

/// What is said on standard error of a script with refused lines: how many they are, and whether the text looks like
/// no script. It takes no memory.
pub fn count_text(count: Count) -> ArrayString<COUNT_ROOM>
    ensures { result.bytes ≡ count_text count }
{
    let mut digits = Buffer::new();
    let mut text = ArrayString::new();
    text.push_str("scopectl: lines refused: ");
    text.push_str(digits.format(count.tally.refused));
    text.push_str(", not a command: ");
    text.push_str(digits.format(count.tally.bad_words));
    text.push_str("\n");
    text.push_str(foreign_text(count));
    text
}

/// What is said of a text that looks like no script.
fn foreign_text(count: Count) -> &'static str
    ensures text { result.now ≡ foreign_text count }
    ensures short { length result.now ≤ 80 }
{
    if count.is_foreign {
        "scopectl: this does not look like a script: no line of it did anything\n"
    } else {
        ""
    }
}
