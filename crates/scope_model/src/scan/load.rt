ghost use Rattle.std.specs.Prelude.{◌≡◌};
ghost use Rattle.scope_model.specs.{load};

use crate::scan::view::HistoryView;
use scope_journal::weight;

impl<'a> HistoryView<'a> {
    /// The load so far: a unit for each pair of the base, and what the events cost.
    #[tactic(auto, using(scope_rules::proofs::Prefixes::sum_by_more), unfolding(scope_rules::specs::Load::load))]
    pub fn load(&self) -> u64
        ensures { result ≡ load self.now }
    {
        let mut load = self.base().binds().len() as u64;
        for place in 0..self.len() {
            load += weight(self.event(place));
        }
        load
    }
}
