//! A line that is begun, as far as it tells what the whole line says.

ghost use Rattle.std.specs.Prelude.{◌++◌, ◌≡◌};
ghost use Rattle.quote_plan.specs.{ℕ, List, OnOk, StandsFor, with_byte};

use script_words::LINE_LIMIT;
use std::alloc::AllocError;

/// The begun line goes on by the bytes. Of a line that is too long just as much is kept as tells why it is bad: its first
/// 201 bytes, and of the bytes behind them a carriage return and a tab, if there are such. So it takes at most 203 bytes.
///
/// # Errors
/// If memory was refused.
pub(crate) fn go_on(begun: &mut Vec<u8>, bytes: &[u8]) -> Result<(), AllocError>
    ensures { (line : List ℕ) → StandsFor begun.old.items line → OnOk result (StandsFor begun.new.items (line ++ bytes.now)) }
{
    let room = (LINE_LIMIT + 1).saturating_sub(begun.len());
    if bytes.len() <= room {
        return begun.extend_from_slice(bytes);
    }
    let (fitting, rest) = bytes.split_at(room);
    begun.extend_from_slice(fitting)?;
    keep(begun, rest, b'\r')?;
    keep(begun, rest, b'\t')
}

/// Keeps the byte, if it is one of the bytes and was not kept before.
fn keep(begun: &mut Vec<u8>, bytes: &[u8], byte: u8) -> Result<(), AllocError>
    ensures { OnOk result (begun.new.items ≡ with_byte byte begun.old.items bytes.now) }
{
    if bytes.contains(&byte) && !begun.contains(&byte) {
        begun.push(byte)?;
    }
    Ok(())
}
