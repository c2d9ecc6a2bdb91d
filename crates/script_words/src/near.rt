//! Which name is meant by one that differs from it by an edit.
ghost use Rattle.std.specs.Prelude.{◌∷◌, ◌≡◌};
ghost use Rattle.script_words.specs.{is_near, is_single, one_edit, swapped};

/// Whether one edit makes the other of the name: a letter is another, is missing, is one too many, or two neighbours
/// are swapped.
#[tactic(auto, unfolding(crate::specs::Near::is_near))]
pub fn is_near(name: &[u8], other: &[u8]) -> bool
    ensures { result ≡ is_near name.now other.now }
{
    match (name, other) {
        ([], other) => is_single(other),
        (name, []) => is_single(name),
        ([x, xs @ ..], [y, ys @ ..]) => {
            if x == y {
                is_near(xs, ys)
            } else {
                one_edit(name, *x, xs, other, *y, ys)
            }
        }
    }
}

/// Whether names that begin with different letters differ by one edit. Each comes as its first letter and the rest.
fn one_edit(one: &[u8], x: u8, xs: &[u8], other: &[u8], y: u8, ys: &[u8]) -> bool
    requires one { one.now ≡ x ∷ xs.now }
    requires other { other.now ≡ y ∷ ys.now }
    ensures { result ≡ one_edit x xs.now y ys.now }
{
    xs == ys || xs == other || one == ys || swapped(x, xs, y, ys)
}

/// Whether two neighbours stand the other way round, and the rest is the same.
fn swapped(x: u8, xs: &[u8], y: u8, ys: &[u8]) -> bool
    ensures { result ≡ swapped x xs.now y ys.now }
{
    match (xs, ys) {
        ([a, others @ ..], [b, rest @ ..]) => x == *b && *a == y && others == rest,
        _ => false,
    }
}

/// Whether the name has one letter.
fn is_single(name: &[u8]) -> bool
    ensures { result ≡ is_single name.now }
{
    match name {
        [] => false,
        [_] => true,
        [_, _, ..] => false,
    }
}
