//! Random commands, as lines without their line feeds. A book is told each of them, so that most are accepted.
ghost use Rattle.script_jobs.specs.{Legal, history_of, limits_of};

use crate::random::Random;
use scope_book::BookState;
use scope_checks::Readings;
use scope_rules::{Actor, AnyEnd, Limits, Refusal, ScopeId, State, TaskId};
use scope_script::{Command, Line, Reply, perform, read_line};
use std::alloc::{AllocError, Global};

/// The names that stand in commands.
const NAMES: [&str; 7] = [
    "a",
    "b",
    "load",
    "retry-2",
    "x_1",
    "k.v",
    "nnnnnnnnnnnnnnnnnnnnnnnn",
];

/// The values that stand in commands, beside names.
const VALUES: [&str; 6] = [
    "0",
    "1",
    "-3",
    "7",
    "9223372036854775807",
    "-9223372036854775808",
];

/// The joiners of scopes, with the space before them. The first is none.
const JOINERS: [&str; 11] = [
    "",
    " all",
    " any",
    " await",
    " await-ok",
    " until:ok:0",
    " until:ok:1",
    " until:ok:2",
    " until:fail:2",
    " until:sum:-3",
    " until:sum:9223372036854775807",
];

/// Lines that are no commands.
const BAD_LINES: [&str; 10] = [
    "open",
    "OPEN 0",
    "open 0 some",
    "open 0 all deadline=",
    "fork 0 1",
    "start x",
    "ok 1 2 3",
    "tick -1",
    "join 0 01",
    "bind 0 a b c",
];

/// How many of the last numbers a command names one of.
const NEAR: u32 = 12;

/// One line in so many is tried once, with numbers that need not stand.
const MISSES: u32 = 10;

/// How many lines a mood lasts.
const MOOD_LINES: u32 = 32;

/// How many moments lie before a deadline at most.
const MOMENTS: u32 = 30;

/// The forms of commands.
#[derive(Clone, Copy)]
enum Form {
    Open,
    Fork,
    Start,
    End,
    Reject,
    Join,
    Close,
    Tick,
    Move,
    Cancel,
    Bind,
    Unbind,
    Get,
    Query,
    Result,
    Retire,
    Bad,
}

/// What the commands of a while are after.
#[derive(Clone, Copy)]
enum Mood {
    /// All there is.
    Mixed,
    /// Scopes in scopes.
    Deep,
    /// The end of all that was begun, and a retirement.
    Ending,
}

/// The source of commands: random numbers, and the book of the commands so far.
#[derive(Drop)]
pub(crate) struct Phrases {
    alloc: Global,
    random: Random,
    book: BookState<AnyEnd>,
    mood: Mood,
    left: u32,
    is_miss: bool,
}

impl Phrases {
    /// The commands of this seed.
    pub(crate) fn new(alloc: Global, seed: u32) -> Phrases {
        Phrases {
            alloc,
            random: Random::new(seed),
            book: BookState::over(alloc, Limits::GREATEST, Vec::new(alloc)),
            mood: Mood::Mixed,
            left: MOOD_LINES,
            is_miss: false,
        }
    }

    /// The next command, or at times a line that is none.
    ///
    /// # Errors
    /// If memory was refused.
    pub(crate) fn next(&mut self) -> Result<String, AllocError> {
        self.change_mood();
        self.is_miss = self.random.is_one_of(MISSES);
        for _ in 0..8 {
            let form = self.form();
            for _ in 0..16 {
                let phrase = self.phrase(form)?;
                if self.is_taken(&phrase)? || self.is_miss {
                    return Ok(phrase);
                }
            }
        }
        self.mood = Mood::Mixed;
        let phrase = self.phrase(Form::Tick)?;
        let _taken = self.is_taken(&phrase)?;
        Ok(phrase)
    }

    /// Another mood, if that of the lines before has lasted.
    fn change_mood(&mut self) {
        if self.left > 0 {
            self.left -= 1;
            return;
        }
        self.left = MOOD_LINES;
        self.mood = match self.random.below(12) {
            0 => Mood::Deep,
            1 | 2 | 3 => Mood::Ending,
            _ => Mood::Mixed,
        };
    }

    /// Tells the book what the line says. Whether it was accepted, or its refusal says how a task ended.
    ///
    /// # Errors
    /// If memory was refused.
    fn is_taken(&mut self, line: &str) -> Result<bool, AllocError> {
        let _legal = self.book.limits();
        match read_line(line.as_bytes()) {
            Line::Command(command) => is_accepted(&mut self.book, &command),
            _ => Ok(false),
        }
    }

    /// A form that the mood is after.
    fn form(&mut self) -> Form {
        if self.is_miss && self.random.is_one_of(8) {
            return Form::Bad;
        }
        match self.mood {
            Mood::Mixed => self.mixed(),
            Mood::Deep => Form::Open,
            Mood::Ending => self.ending(),
        }
    }

    /// Any form.
    fn mixed(&mut self) -> Form {
        match self.random.below(24) {
            0 | 1 => Form::Open,
            2 | 3 | 4 | 5 => Form::Fork,
            6 | 7 | 8 => Form::Start,
            9 | 10 | 11 | 12 => Form::End,
            13 | 14 => Form::Join,
            15 | 16 => Form::Close,
            17 => Form::Start,
            18 => Form::Result,
            19 => Form::Query,
            20 => self.time(),
            21 => self.binding(),
            22 => self.rare(),
            _ => Form::Result,
        }
    }

    /// A form that ends something.
    fn ending(&mut self) -> Form {
        match self.random.below(12) {
            0 | 1 => Form::Start,
            2 | 3 | 4 => Form::End,
            5 => Form::Join,
            6 | 7 | 8 | 9 => Form::Close,
            10 => Form::Result,
            _ => Form::Retire,
        }
    }

    /// A form that is about time.
    fn time(&mut self) -> Form {
        if self.random.is_one_of(3) {
            Form::Move
        } else {
            Form::Tick
        }
    }

    /// A form that is about bindings.
    fn binding(&mut self) -> Form {
        match self.random.below(4) {
            0 => Form::Unbind,
            1 => Form::Get,
            _ => Form::Bind,
        }
    }

    /// A form that seldom comes.
    fn rare(&mut self) -> Form {
        match self.random.below(5) {
            0 => Form::Retire,
            1 => Form::Reject,
            _ => Form::Cancel,
        }
    }

    /// A line of this form.
    ///
    /// # Errors
    /// If memory was refused.
    fn phrase(&mut self, form: Form) -> Result<String, AllocError> {
        match form {
            Form::Open => self.open(),
            Form::Fork => self.fork(),
            Form::Start => self.of_task("start"),
            Form::End => self.end(),
            Form::Reject => self.of_task("reject"),
            Form::Join => self.of_owner("join"),
            Form::Close => self.close(),
            Form::Tick => self.tick(),
            Form::Move => self.moved(),
            Form::Cancel => self.of_scope("cancel"),
            Form::Bind => self.bind(),
            Form::Unbind => self.of_actor("unbind"),
            Form::Get => self.get(),
            Form::Query => self.query(),
            Form::Result => self.result(),
            Form::Retire => self.retire(),
            Form::Bad => self.bad(),
        }
    }

    /// A number of those that stand, and as often one of the last; for a miss also one before them, or the next.
    fn number(&mut self, retired: u32, last: u32) -> u32 {
        if self.is_miss && self.random.is_one_of(3) {
            return last
                .saturating_add(1)
                .saturating_sub(self.random.below(NEAR));
        }
        let standing = last.saturating_sub(retired);
        let among = if standing < NEAR || (standing < u32::MAX && self.random.is_one_of(2)) {
            standing + 1
        } else {
            NEAR
        };
        last.saturating_sub(self.random.below(among))
    }

    /// The number of a scope.
    fn scope(&mut self) -> ScopeId {
        let realm = self.book.realm();
        let (retired, last) = (realm.retired_scopes(), realm.scopes());
        self.number(retired, last)
    }

    /// The number of a task.
    fn task(&mut self) -> TaskId {
        let realm = self.book.realm();
        let (retired, last) = (realm.retired_tasks(), realm.tasks());
        self.number(retired, last)
    }

    /// Main, or as often a task.
    fn actor(&mut self) -> Actor {
        if self.random.is_one_of(2) {
            0
        } else {
            self.task()
        }
    }

    /// Who opened the scope; for a miss anybody, as often.
    fn owner(&mut self, scope: ScopeId) -> Actor {
        if self.is_miss && self.random.is_one_of(2) {
            return self.actor();
        }
        match self.book.realm().opening(scope) {
            Some(opening) => opening.actor,
            None => 0,
        }
    }

    /// A name.
    fn name(&mut self) -> &'static str {
        NAMES[self.random.below(7) as usize]
    }

    /// A value: a number, which may be below 0, or a name.
    fn value(&mut self) -> &'static str {
        if self.random.is_one_of(3) {
            self.name()
        } else {
            VALUES[self.random.below(6) as usize]
        }
    }

    /// `open A JOINER ..`.
    fn open(&mut self) -> Result<String, AllocError> {
        let actor = match self.mood {
            Mood::Deep => 0,
            _ => self.actor(),
        };
        let joiner = JOINERS[self.random.below(11) as usize];
        let mut text = format!(in self.alloc; "open {actor}{joiner}")?;
        if self.random.is_one_of(3) {
            let moment = self.soon();
            let option = format!(in self.alloc; " deadline={moment}")?;
            text.push_str(&option)?;
        }
        if self.random.is_one_of(4) {
            text.push_str(" move-on")?;
        }
        if self.random.is_one_of(6) {
            text.push_str(" shield")?;
        }
        Ok(text)
    }

    /// `fork A S NAME`.
    fn fork(&mut self) -> Result<String, AllocError> {
        let scope = self.scope();
        let actor = self.owner(scope);
        let name = self.name();
        format!(in self.alloc; "fork {actor} {scope} {name}")
    }

    /// `ok K VALUE` or `fail K NAME`.
    fn end(&mut self) -> Result<String, AllocError> {
        let task = self.task();
        if self.random.is_one_of(3) {
            let name = self.name();
            format!(in self.alloc; "fail {task} {name}")
        } else {
            let value = self.value();
            format!(in self.alloc; "ok {task} {value}")
        }
    }

    /// A moment that comes soon.
    fn soon(&mut self) -> u64 {
        let step = u64::from(self.random.below(MOMENTS));
        self.book.realm().moment().saturating_add(step)
    }

    /// `tick N`; for a miss also one that goes back.
    fn tick(&mut self) -> Result<String, AllocError> {
        let back = if self.is_miss { 3 } else { 0 };
        let step = u64::from(self.random.below(6));
        let moment = self
            .book
            .realm()
            .moment()
            .saturating_add(step)
            .saturating_sub(back);
        format!(in self.alloc; "tick {moment}")
    }

    /// `move S N` or `move S never`.
    fn moved(&mut self) -> Result<String, AllocError> {
        let scope = self.scope();
        if self.random.is_one_of(3) {
            return format!(in self.alloc; "move {scope} never");
        }
        let moment = self.soon();
        format!(in self.alloc; "move {scope} {moment}")
    }

    /// `bind A NAME VALUE`.
    fn bind(&mut self) -> Result<String, AllocError> {
        let actor = self.actor();
        let name = self.name();
        let value = self.value();
        format!(in self.alloc; "bind {actor} {name} {value}")
    }

    /// `get A NAME`.
    fn get(&mut self) -> Result<String, AllocError> {
        let actor = self.actor();
        let name = self.name();
        format!(in self.alloc; "get {actor} {name}")
    }

    /// A query of a task or a scope.
    fn query(&mut self) -> Result<String, AllocError> {
        match self.random.below(5) {
            0 => self.of_task("state"),
            1 => self.of_task("stage"),
            2 => self.of_scope("cause"),
            3 => self.of_scope("until"),
            _ => self.of_scope("counts"),
        }
    }

    /// `result A K` or `fault A K`, mostly as the task ended.
    fn result(&mut self) -> Result<String, AllocError> {
        let task = self.task();
        let actor = match self.book.realm().forked_in(task) {
            Some(scope) => self.owner(scope),
            None => 0,
        };
        let has_failed = matches!(self.book.state(task), Ok(State::Failed(_)));
        let word = if has_failed != self.random.is_one_of(4) {
            "fault"
        } else {
            "result"
        };
        format!(in self.alloc; "{word} {actor} {task}")
    }

    /// `retire 0`; for a miss `retire A`.
    fn retire(&mut self) -> Result<String, AllocError> {
        if self.is_miss {
            return self.of_actor("retire");
        }
        String::from_str(self.alloc, "retire 0")
    }

    /// A line that is no command.
    fn bad(&mut self) -> Result<String, AllocError> {
        String::from_str(self.alloc, BAD_LINES[self.random.below(10) as usize])
    }

    /// `WORD A`.
    fn of_actor(&mut self, word: &str) -> Result<String, AllocError> {
        let actor = self.actor();
        format!(in self.alloc; "{word} {actor}")
    }

    /// `WORD S`.
    fn of_scope(&mut self, word: &str) -> Result<String, AllocError> {
        let scope = self.scope();
        format!(in self.alloc; "{word} {scope}")
    }

    /// `WORD K`.
    fn of_task(&mut self, word: &str) -> Result<String, AllocError> {
        let task = self.task();
        format!(in self.alloc; "{word} {task}")
    }

    /// `close A S`, or if the scope is closing `closed A S`; for a miss either.
    fn close(&mut self) -> Result<String, AllocError> {
        let scope = self.scope();
        let actor = self.owner(scope);
        let is_other = self.is_miss && self.random.is_one_of(2);
        let word = if self.book.realm().closing(scope) != is_other {
            "closed"
        } else {
            "close"
        };
        format!(in self.alloc; "{word} {actor} {scope}")
    }

    /// `WORD A S`.
    fn of_owner(&mut self, word: &str) -> Result<String, AllocError> {
        let scope = self.scope();
        let actor = self.owner(scope);
        format!(in self.alloc; "{word} {actor} {scope}")
    }
}

/// Tells the book the command. Whether it was accepted, or its refusal says how a task ended.
///
/// # Errors
/// If memory was refused.
fn is_accepted(book: &mut BookState<AnyEnd>, command: &Command) -> Result<bool, AllocError>
    requires { Legal (limits_of book.old) (history_of book.old) }
{
    match perform(book, command)? {
        Reply::Refused(Refusal::NotSuccess | Refusal::NotFailed) => Ok(true),
        Reply::Refused(_) => Ok(false),
        _ => Ok(true),
    }
}
