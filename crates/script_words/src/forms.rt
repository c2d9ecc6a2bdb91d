ghost use Rattle.std.specs.Prelude.{◌≡◌, option_map};
ghost use Rattle.script_words.specs.{Writes, fields, first_said, form_said, name_said, new_deadline_said};

use crate::commands::{Command, Line, Query};
use crate::fields::{just_one, next_field};
use crate::keywords::Keyword;
use crate::numbers::{last_moment, last_small, moment, next_small};
use crate::openings::open;
use crate::words::{name, value};
use scope_rules::{Binding, Event, Fault, Label, Name};

/// Writes the command with this keyword and these arguments to the line. It is wide, so no function hands it on
/// by value.
#[tactic(auto, unfolding(crate::specs::Forms::form_said))]
pub fn form(keyword: Keyword, args: &[u8], line: &mut Line) -> Option<()>
    ensures { Writes result line.new (form_said keyword (fields args.now)) }
{
    match keyword {
        Keyword::Open => open(args, line),
        Keyword::Fork => fork(args, line),
        Keyword::Succeed => succeed(args, line),
        Keyword::Fail => fail(args, line),
        Keyword::Bind => bind(args, line),
        Keyword::Get => get(args, line),
        Keyword::Move => move_deadline(args, line),
        Keyword::Tick => {
            let now = last_moment(args)?;
            tell(line, Event::Tick { now })
        }
        Keyword::Reject => {
            let task = last_small(args)?;
            tell(line, Event::Reject { task })
        }
        Keyword::Start => {
            let task = last_small(args)?;
            tell(line, Event::Start { task })
        }
        Keyword::Cancel => {
            let scope = last_small(args)?;
            tell(line, Event::Cancel { scope })
        }
        Keyword::Unbind => {
            let actor = last_small(args)?;
            tell(line, Event::Unbind { actor })
        }
        Keyword::Retire => {
            let actor = last_small(args)?;
            say(line, Command::Retire { actor })
        }
        Keyword::State => {
            let task = last_small(args)?;
            ask(line, Query::State { task })
        }
        Keyword::Stage => {
            let task = last_small(args)?;
            ask(line, Query::Stage { task })
        }
        Keyword::Cause => {
            let scope = last_small(args)?;
            ask(line, Query::Cause { scope })
        }
        Keyword::Until => {
            let scope = last_small(args)?;
            ask(line, Query::Until { scope })
        }
        Keyword::Counts => {
            let scope = last_small(args)?;
            ask(line, Query::Counts { scope })
        }
        Keyword::Join => {
            let (actor, rest) = next_small(args)?;
            let scope = last_small(rest)?;
            tell(line, Event::Join { actor, scope })
        }
        Keyword::Close => {
            let (actor, rest) = next_small(args)?;
            let scope = last_small(rest)?;
            tell(line, Event::BeginClose { actor, scope })
        }
        Keyword::Closed => {
            let (actor, rest) = next_small(args)?;
            let scope = last_small(rest)?;
            tell(line, Event::EndClose { actor, scope })
        }
        Keyword::ResultOf => {
            let (actor, rest) = next_small(args)?;
            let task = last_small(rest)?;
            ask(line, Query::Result { actor, task })
        }
        Keyword::FaultOf => {
            let (actor, rest) = next_small(args)?;
            let task = last_small(rest)?;
            ask(line, Query::Fault { actor, task })
        }
    }
}

/// Writes the command.
#[inline(always)]
fn say(line: &mut Line, command: Command) -> Option<()>
    ensures done { result ≡ Some tt }
    ensures written { line.new ≡ Line.Command command }
{
    *line = Line::Command(command);
    Some(())
}

/// Writes that the event is told.
#[inline(always)]
pub(crate) fn tell(line: &mut Line, event: Event) -> Option<()>
    ensures done { result ≡ Some tt }
    ensures written { line.new ≡ Line.Command (Command.Do event) }
{
    *line = Line::Command(Command::Do(event));
    Some(())
}

/// Writes the query.
#[inline(always)]
fn ask(line: &mut Line, query: Query) -> Option<()>
    ensures done { result ≡ Some tt }
    ensures written { line.new ≡ Line.Command (Command.Ask query) }
{
    *line = Line::Command(Command::Ask(query));
    Some(())
}

/// The name that is the first field of the text, and the text after it.
#[inline(always)]
#[tactic(auto, unfolding(crate::specs::Numbers::first_said))]
fn next_name(text: &[u8]) -> Option<(Name, &[u8])>
    ensures { option_map (λ found. (found.0, fields found.1.now)) result ≡ first_said name_said (fields text.now) }
{
    let (word, rest) = next_field(text)?;
    Some((name(word)?, rest))
}

/// `fork A S NAME`
#[tactic(auto, unfolding(crate::specs::Forms::form_said))]
fn fork(args: &[u8], line: &mut Line) -> Option<()>
    ensures { Writes result line.new (form_said Keyword.Fork (fields args.now)) }
{
    let (actor, rest) = next_small(args)?;
    let (scope, rest) = next_small(rest)?;
    let label = Label {
        name: name(just_one(rest)?)?,
        due: None,
    };
    tell(
        line,
        Event::Fork {
            actor,
            scope,
            label,
        },
    )
}

/// `ok K VALUE`
#[tactic(auto, unfolding(crate::specs::Forms::form_said))]
fn succeed(args: &[u8], line: &mut Line) -> Option<()>
    ensures { Writes result line.new (form_said Keyword.Succeed (fields args.now)) }
{
    let (task, rest) = next_small(args)?;
    let end = Ok(value(just_one(rest)?)?);
    tell(line, Event::Finish { task, end })
}

/// `fail K NAME`
#[tactic(auto, unfolding(crate::specs::Forms::form_said))]
fn fail(args: &[u8], line: &mut Line) -> Option<()>
    ensures { Writes result line.new (form_said Keyword.Fail (fields args.now)) }
{
    let (task, rest) = next_small(args)?;
    let end = Err(Fault(name(just_one(rest)?)?));
    tell(line, Event::Finish { task, end })
}

/// `bind A NAME VALUE`
#[tactic(auto, unfolding(crate::specs::Forms::form_said))]
fn bind(args: &[u8], line: &mut Line) -> Option<()>
    ensures { Writes result line.new (form_said Keyword.Bind (fields args.now)) }
{
    let (actor, rest) = next_small(args)?;
    let (key, rest) = next_name(rest)?;
    let value = value(just_one(rest)?)?;
    tell(
        line,
        Event::Bind {
            actor,
            binding: Binding { key, value },
        },
    )
}

/// `get A NAME`
#[tactic(auto, unfolding(crate::specs::Forms::form_said))]
fn get(args: &[u8], line: &mut Line) -> Option<()>
    ensures { Writes result line.new (form_said Keyword.Get (fields args.now)) }
{
    let (actor, rest) = next_small(args)?;
    let key = name(just_one(rest)?)?;
    ask(line, Query::Get { actor, key })
}

/// `move S N`, or `move S never`
#[tactic(auto, unfolding(crate::specs::Forms::form_said))]
fn move_deadline(args: &[u8], line: &mut Line) -> Option<()>
    ensures { Writes result line.new (form_said Keyword.Move (fields args.now)) }
{
    let (scope, rest) = next_small(args)?;
    let deadline = new_deadline(just_one(rest)?)?;
    tell(line, Event::Move { scope, deadline })
}

/// The deadline that the word is, or none for `never`.
#[tactic(auto, unfolding(crate::specs::Words::new_deadline_said))]
pub fn new_deadline(word: &[u8]) -> Option<Option<u64>>
    ensures { result ≡ new_deadline_said word.now }
{
    if word == b"never".as_slice() {
        return Some(None);
    }
    Some(Some(moment(word)?))
}
