//! When output has colors.
ghost use Rattle.std.specs.Prelude.{◌≡◌, ◌⊎◌};
ghost use Rattle.command_line.specs.{IfErr, IfOk, IsUsageOrMemory, None, Some, choice_named, choice_said, option_map};

use crate::faults::LineFault;
use std::alloc::Global;

/// When output has colors.
#[derive(Clone, Copy)]
pub enum ColorChoice {
    /// If it goes to a terminal.
    Auto,
    /// In any case.
    Always,
    /// In no case.
    Never,
}

/// The choice that the text of `--color` says, which is `Auto` if it was not given.
///
/// # Errors
/// `Usage` if the text is no choice, `Memory` if memory was refused.
pub fn color_choice(alloc: Global, text: Option<&str>) -> Result<ColorChoice, LineFault>
    ensures said { IfOk result (λ choice. choice_said (option_map (λ word. word.now) text.entry) ≡ Some choice) }
    ensures refused { IfErr result (λ fault. (fault ≡ LineFault.Memory) ⊎ (choice_said (option_map (λ word. word.now) text.entry) ≡ None)) }
    ensures told { IfErr result IsUsageOrMemory }
{
    let Some(text) = text else {
        return Ok(ColorChoice::Auto);
    };
    match choice_named(text) {
        Some(choice) => Ok(choice),
        None => Err(refused_choice(alloc, text)),
    }
}

// The choice of this name.
fn choice_named(word: &str) -> Option<ColorChoice>
    ensures { result ≡ choice_named word.now }
{
    if word == "auto" {
        Some(ColorChoice::Auto)
    } else if word == "always" {
        Some(ColorChoice::Always)
    } else if word == "never" {
        Some(ColorChoice::Never)
    } else {
        None
    }
}

// What to say of a text that is no choice.
fn refused_choice(alloc: Global, text: &str) -> LineFault
    ensures { IsUsageOrMemory result }
{
    let message = format!(in alloc;
        "error: invalid value '{text}' for '--color <WHEN>': expected auto, always or never\n\nFor more information, try '--help'.\n"
    );
    match message {
        Ok(message) => LineFault::Usage(message),
        Err(_) => LineFault::Memory,
    }
}
