use std::marker::Brand;

/// A realm's name, for contracts alone: which table its steps are taken at. A function that is handed a
/// realm's seed calls one that is generic over the name, with std's `Brand`, and picks the seed's table.
pub trait RealmName {
    ghost use Rattle.atomic_table.specs.Seated.{TableId};

    ghost table: { TableId };
}

impl RealmName for Brand {
    ghost use Rattle.share_ledger.specs.Names.{no_table};

    ghost table = { no_table };
}
