ghost use Rattle.std.specs.Prelude.{[], ◌≡◌, IfOk};

use crate::desk::Desk;
use crate::keeper::Keeper;
use crate::shares::OwnerShare;
use scope_rules::Limits;
use scope_rules::types::values::MAIN;
use std::alloc::{AllocError, Global};
use std::marker::Model;

/// The table of a realm that is to be made. Contracts see which table it is.
#[derive(Drop)]
pub struct Seed {
    desk: Desk,
}

impl Model for Seed {
    ghost use Rattle.std.specs.Prelude.{◌≡◌};
    ghost use Rattle.atomic_table.specs.Seated.{TableId, table_id_coded};

    ghost Value = { TableId };

    ghost coded = { table_id_coded };

    ghost use Rattle.share_ledger.specs.declared.views.LedgerView.TheVariants.{Opening};

    ghost view = { λ s. s.desk.seat.table_id };

    ghost invariant = { λ s. s.desk.seat.me.0 ≡ Opening };
}

impl Seed {
    /// A table at which nobody sits yet.
    ///
    /// # Errors
    ///
    /// If memory is refused. No later call of the ledger takes any.
    pub fn new(alloc: Global) -> Result<Seed, AllocError>
        ensures { IfOk result (λ seed. seed.words ≡ 1) }
    {
        let desk = Desk::new(alloc)?;
        Ok(Seed { desk })
    }

    /// The keeper of a realm with these limits, and the share of main's token. No step was taken yet.
    pub fn begin(self, limits: Limits) -> (Keeper, OwnerShare)
        ensures keeper { result.0 ≡ record { table = self; limits = limits; steps = [] } }
        ensures share { result.1 ≡ record { table = self; limits = limits; actor = MAIN; seen = [] } }
    {
        let mut desk = self.desk;
        desk.limit(limits);
        let badge = desk.give_out();
        (Keeper::new(desk), OwnerShare::new(MAIN, badge))
    }
}
