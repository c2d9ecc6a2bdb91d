ghost use Rattle.std.specs.Prelude.{◌≡◌};
ghost use Rattle.script_words.specs.{Writes, command_said, fields, fields_said, line_said};

use crate::commands::Line;
use crate::fields::next_field;
use crate::forms::form;
use crate::keywords::keyword_of;

/// How many bytes a line has at the most, without its line feed.
pub const LINE_LIMIT: usize = 200;

/// What the line says; it comes without its line feed. One of more than `LINE_LIMIT` bytes is in no
/// form.
pub fn read_line(line: &[u8]) -> Line
    ensures { result ≡ line_said line.now }
{
    let mut said = Line::Silent;
    read_line_into(line, &mut said);
    said
}

/// Writes what the line says to where it is to stand: a command is wide, and is not moved from there.
#[tactic(auto, unfolding(crate::specs::Lines::line_said))]
pub fn read_line_into(line: &[u8], said: &mut Line)
    ensures { said.new ≡ line_said line.now }
{
    if line.len() > LINE_LIMIT {
        *said = Line::BadWord;
        return;
    }
    read_fields(line, said);
}

/// Writes what the fields of the text say.
#[tactic(auto, unfolding(crate::specs::Lines::fields_said))]
fn read_fields(text: &[u8], said: &mut Line)
    ensures { said.new ≡ fields_said (fields text.now) }
{
    let Some((word, args)) = next_field(text) else {
        *said = Line::Silent;
        return;
    };
    if let [b'#', ..] = word {
        *said = Line::Silent;
        return;
    }
    if read_command(word, args, said).is_none() {
        *said = Line::BadWord;
    }
}

/// Writes the command with this first word and these arguments.
#[tactic(auto, unfolding(crate::specs::Lines::command_said))]
fn read_command(word: &[u8], args: &[u8], said: &mut Line) -> Option<()>
    ensures { Writes result said.new (command_said word.now (fields args.now)) }
{
    form(keyword_of(word)?, args, said)
}
