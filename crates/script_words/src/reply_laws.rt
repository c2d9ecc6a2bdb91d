//! What holds of the line of every reply. The function does nothing: its contract is the law.

ghost use Rattle.script_words.specs.{LinesArePrintable};

/// The line of a reply is of printable ASCII bytes alone, from the space to `~`. So it is one line.
pub fn lines_are_printable()
    ensures { LinesArePrintable }
{}
