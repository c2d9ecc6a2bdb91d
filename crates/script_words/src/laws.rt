//! Laws of the words that lines are made of. Each function does nothing: its contract is the law.

ghost use Rattle.script_words.specs.{FieldsAreCalled, LineSaysTheCommand, PrintedIntegerIsRead, PrintedNumberIsRead, ReadIntegerIsPrinted, ReadNumberIsPrinted, WordsSayTheCommand};

/// The words that are read as a number are just what is printed of it, for numbers within the limit.
pub fn numbers_are_read_as_printed()
    ensures printed { PrintedNumberIsRead }
    ensures read { ReadNumberIsPrinted }
{}

/// The same of numbers that may be below 0.
pub fn integers_are_read_as_printed()
    ensures printed { PrintedIntegerIsRead }
    ensures read { ReadIntegerIsPrinted }
{}

/// Each command has a line, which says that command.
pub fn line_says_the_command()
    ensures words { WordsSayTheCommand }
    ensures line { LineSaysTheCommand }
{}

/// A field that a form calls an actor, a scope or a task is the command's actor, scope or task.
#[tactic(auto, using(crate::proofs::Called::fields_are_called))]
pub fn fields_are_called()
    ensures { FieldsAreCalled }
{}
