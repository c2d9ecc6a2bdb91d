//! The dump of a book.

ghost use Rattle.std.specs.Prelude.{◌≡◌, IfOk, string_bytes};
ghost use Rattle.tree_dump.specs.{dump_text, history_of};

use crate::walk::dump_of;
use scope_book::BookState;
use scope_rules::Catalog;
use std::alloc::{AllocError, Global};

/// The tree of the book's realm as JSON without blanks: what `dump_text` says of its history. It is
/// refused for memory alone.
pub fn dump<C: Catalog>(alloc: Global, book: &BookState<C>) -> Result<String, AllocError>
    ensures { IfOk result (λ text. string_bytes text ≡ dump_text (history_of book.now)) }
{
    dump_of(alloc, book.realm())
}
