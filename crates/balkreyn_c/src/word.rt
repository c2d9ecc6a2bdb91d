//! The word of a book that says who works on it.

ghost use Rattle.std.specs.Prelude.{◌≡◌};

use std::marker::Brand;
use std::sync::atomic::Ordering::SeqCst;
use std::sync::atomic::raw;

/// Writes the word and reads what it was, in one step of the machine: of two calls at once, one finds what the other
/// wrote.
pub fn swapped(word: &mut u64, new: u64) -> u64
    ensures was { result ≡ word.old }
    ensures now { word.new ≡ new }
{
    unsafe { raw::swap::<Brand>(&raw const *word, new, SeqCst) }
}

/// Writes the word once all that was written before stands. What the machine does to get there is no more than a read:
/// its own order of writes does the rest.
pub fn rest(word: &mut u64, new: u64)
    ensures { word.new ≡ new }
{
    let _seen = seen(word);
    *word = new;
}

/// Reads the word in one step of the machine, behind which no compiler moves a write that stands before it.
fn seen(word: &mut u64) -> u64
    ensures seen { result ≡ word.old }
    ensures kept { word.new ≡ word.old }
{
    unsafe { raw::load::<Brand>(&raw const *word, SeqCst) }
}
