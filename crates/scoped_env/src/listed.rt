ghost use Rattle.std.specs.Prelude.{[], ◌++◌, ◌-◌, ◌<◌, ◌^◌, ◌∷◌, ◌≡◌, IfOk, IfSome, IsTrue, List, Some, length, slice_get, take};
ghost use Rattle.scoped_env.specs.{BeginsWith, Binding, arc_slice_items, pairs_listed};

use scope_rules::Binding;
use std::alloc::AllocError;
use std::marker::Model;
use std::sync::ArcSlice;

/// The last list of all pairs, and how many of them, from the first on, are those that are bound now. A pair
/// that is taken away and then bound again is found in the list again.
#[derive(Drop)]
pub struct Listed {
    list: Option<ArcSlice<Binding>>,
    agreed: usize,
}

impl Model for Listed {
    ghost use Rattle.std.specs.Prelude.{List, take};
    ghost use Rattle.scope_rules.specs.declared.types.events.Binding.{Binding};
    ghost use Rattle.scoped_env.specs.Listed.{pairs_listed};

    ghost Value = { List Binding };

    ghost view = { λ l. take l.agreed (pairs_listed l.list) };
}

impl Listed {
    /// No list. It takes no memory.
    pub fn new() -> Listed
        ensures { result ≡ [] }
    {
        Listed {
            list: None,
            agreed: 0,
        }
    }

    /// The list of all pairs.
    pub fn of(list: ArcSlice<Binding>) -> Listed
        ensures { result ≡ arc_slice_items list }
    {
        let agreed = list.as_slice().len();
        Listed {
            list: Some(list),
            agreed,
        }
    }

    /// The pairs behind the first so many were taken away. It takes no memory.
    pub fn cut(&mut self, depth: usize)
        ensures { self.new ≡ take depth self.old }
    {
        self.agreed = self.agreed.min(depth);
    }

    /// The pair was bound above so many others. It takes no memory.
    pub fn push(&mut self, depth: usize, pair: &Binding)
        ensures { (pairs : List Binding) → length pairs ≡ depth → BeginsWith pairs self.old → BeginsWith (pairs ++ pair.now ∷ []) self.new }
    {
        if self.agreed == depth && has_at(&self.list, depth, pair) {
            self.agreed += 1;
        }
    }

    /// The list, if it has so many pairs, which are all bound now, for one holder more. It is refused only if
    /// std's count of holders is full.
    pub fn whole(&self, depth: usize) -> Result<Option<ArcSlice<Binding>>, AllocError>
        ensures { IfOk result (λ list. IfSome list (λ whole. (arc_slice_items whole ≡ self.now) × (length self.now ≡ depth))) }
    {
        match &self.list {
            Some(list) if self.agreed == depth && list.as_slice().len() == depth => {
                Ok(Some(list.clone()?))
            }
            _ => Ok(None),
        }
    }
}

/// Whether the list has the pair at the place.
fn has_at(list: &Option<ArcSlice<Binding>>, place: usize, pair: &Binding) -> bool
    ensures same { IsTrue result → slice_get (pairs_listed list.now) place ≡ Some pair.now }
    ensures fits { IsTrue result → place < 2 ^ 64 - 1 }
{
    let Some(list) = list else {
        return false;
    };
    match list.as_slice().get(place) {
        Some(listed) => listed.key.is_same(&pair.key) && listed.value.is_same(&pair.value),
        None => false,
    }
}
