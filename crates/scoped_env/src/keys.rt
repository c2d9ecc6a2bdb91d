//! Keys in the order of their texts, and the values that they have in a list of pairs.

ghost use Rattle.std.specs.Prelude.{◌≡◌, IfOk, Some, nat_eq, refl};
ghost use Rattle.scoped_env.specs.{HasLatest, bound_to, key_cmp, lists_total, nat_cmp, nat_cmp_total, nat_list_eq_equiv, on_equiv, on_per, on_total, partial_equiv_from_equiv, partial_order_from_own_ties, partial_order_from_total};
ghost use Rattle.scoped_env.specs.{pointwise, slice_cmp, text_of, texts_ties};

use scope_rules::{Binding, Name, Value};
use std::alloc::{AllocError, Global};
use std::cmp::Ordering;
use std::collections::BTreeMap;

/// A key, in the order of the bytes of its text.
#[derive(Clone, Copy)]
pub(crate) struct OrderedKey {
    pub(crate) name: Name,
}

/// The value that each key has.
pub(crate) type LatestValues = BTreeMap<OrderedKey, Value>;

impl PartialEq for OrderedKey {
    ghost eq = { λ a b. pointwise nat_eq (text_of a.name) (text_of b.name) };

    ghost laws = { on_per (λ k. text_of k.name) (partial_equiv_from_equiv nat_list_eq_equiv) };

    fn eq(&self, other: &OrderedKey) -> bool {
        self.name.as_bytes() == other.name.as_bytes()
    }
}

impl Eq for OrderedKey {
    ghost laws = { on_equiv (λ k. text_of k.name) nat_list_eq_equiv };
}

impl PartialOrd for OrderedKey {
    ghost partial_cmp = { λ a b. Some (key_cmp a b) };

    ghost laws = { partial_order_from_own_ties (partial_order_from_total (on_total (λ k. text_of k.name) (lists_total nat_cmp_total))) (λ a b. texts_ties (text_of a.name) (text_of b.name)) };

    fn partial_cmp(&self, other: &OrderedKey) -> Option<Ordering> {
        Some(self.cmp(other))
    }
}

impl Ord for OrderedKey {
    ghost cmp = { key_cmp };

    ghost total = { on_total (λ k. text_of k.name) (lists_total nat_cmp_total) };

    ghost matches_partial_cmp = { λ a b. refl };

    ghost matches_eq = { λ a b. texts_ties (text_of a.name) (text_of b.name) };

    fn cmp(&self, other: &OrderedKey) -> Ordering {
        self.name.as_bytes().cmp(other.name.as_bytes())
    }
}

/// The value that each key of the pairs has by the last pair with it.
pub(crate) fn latest_of(alloc: Global, pairs: &[Binding]) -> Result<LatestValues, AllocError>
    ensures { IfOk result (λ latest. HasLatest latest pairs.now) }
{
    let mut latest = BTreeMap::new(alloc);
    for pair in pairs {
        latest.insert(OrderedKey { name: pair.key }, pair.value)?;
    }
    Ok(latest)
}

/// The value of the last of the pairs with the key, found by looking through them.
pub(crate) fn last_value(pairs: &[Binding], key: &Name) -> Option<Value>
    ensures { result ≡ bound_to key.now pairs.now }
{
    pairs
        .iter()
        .rev()
        .find(|pair| pair.key.is_same(key))
        .map(|pair| pair.value)
}
