//! A random script, line by line.
ghost use Rattle.std.specs.Prelude.{◌++◌, ◌≡◌};
ghost use Rattle.script_jobs.specs.{IfOk, IsScript, OnOk, OneMore, ended, is_answered_line, string_bytes};

use crate::phrases::Phrases;
use script_words::laws::line_says_the_command;
use script_words::{Line, read_line};
use std::alloc::{AllocError, Global};

/// The script of this seed, of so many lines: each of them is answered. Most are commands that are accepted, since a book
/// is told them as they are made; some are refused, or are no commands.
///
/// # Errors
/// If memory was refused.
pub fn script_by(alloc: Global, seed: u32, lines: u32) -> Result<String, AllocError>
    ensures { IfOk result (λ text. IsScript lines (string_bytes text)) }
{
    let mut phrases = Phrases::new(alloc, seed);
    let mut text = String::new(alloc);
    for line in 0..lines {
        push_next(&mut phrases, &mut text)?;
    }
    Ok(text)
}

/// Appends the next line, and a line feed.
fn push_next(phrases: &mut Phrases, text: &mut String) -> Result<(), AllocError>
    ensures { OnOk result (OneMore (string_bytes text.old) (string_bytes text.new)) }
{
    let phrase = phrases.next()?;
    if is_answered_line(&phrase) {
        push_line(text, &phrase)
    } else {
        line_says_the_command();
        push_line(text, "tick 0")
    }
}

/// Appends the line, and a line feed.
fn push_line(text: &mut String, line: &str) -> Result<(), AllocError>
    ensures { OnOk result (string_bytes text.new ≡ string_bytes text.old ++ ended line.now) }
{
    text.push_str(line)?;
    text.push('\n')?;
    Ok(())
}

/// Whether the text is one line, and is answered.
fn is_answered_line(line: &str) -> bool
    ensures { result ≡ is_answered_line line.now }
{
    let bytes = line.as_bytes();
    !bytes.contains(&b'\n') && !matches!(read_line(bytes), Line::Silent)
}
