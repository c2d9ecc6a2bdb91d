//! The scopes that were cancelled, as they are lent to be read.

ghost use Rattle.std.specs.Prelude.{◌+◌, ◌<◌, ◌^◌, All};

use scope_rules::ScopeId;

/// Scopes in order of their cancellation. The tree's rows are lent, and the scopes' numbers are made of
/// them one by one.
#[derive(Clone, Copy)]
pub struct CancelledScopes<'a> {
    before: u32,
    rows: &'a [ScopeId],
    ghost small: { All (λ n. before + n < 2 ^ 32) rows.now },
}

impl<'a> CancelledScopes<'a> {
    ghost use Rattle.std.specs.Prelude.{◌≡◌, ◌+◌, ◌^◌, ◌<◌, ◌==◌, All, length, map, slice_get};
    ghost use Rattle.scope_index.specs.Lent.{scopes_of};

    /// The scopes of these rows.
    pub(crate) fn new(before: u32, rows: &'a [ScopeId]) -> CancelledScopes<'a>
        requires { All (λ n. before + n < 2 ^ 32) rows.now }
        ensures { scopes_of result ≡ map (λ n. before + n) rows.now }
    {
        CancelledScopes { before, rows }
    }

    /// How many there are.
    pub fn len(&self) -> usize
        ensures { result ≡ length (scopes_of self.now) }
    {
        self.rows.len()
    }

    /// Whether there are none.
    pub fn is_empty(&self) -> bool
        ensures { result ≡ (length (scopes_of self.now) == 0) }
    {
        self.rows.is_empty()
    }

    /// The i-th of them, from 0, if there are so many.
    pub fn get(&self, i: usize) -> Option<ScopeId>
        ensures { result ≡ slice_get (scopes_of self.now) i }
    {
        let row = *self.rows.get(i)?;
        Some(self.before + row)
    }
}
