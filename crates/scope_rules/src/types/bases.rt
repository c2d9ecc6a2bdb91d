ghost use Rattle.std.specs.Prelude.{◌≡◌};
ghost use Rattle.scope_rules.specs.{arc_slice_items};

use crate::types::events::Binding;
use std::alloc::Global;
use std::marker::Model;
use std::sync::ArcSlice;

/// What a retirement leaves of a history: the moment, how many scopes and tasks were numbered so
/// far, and main's own bindings. A fresh realm has the base that is empty.
#[derive(Drop)]
pub struct Base {
    moment: u64,
    scopes: u32,
    tasks: u32,
    binds: BasePairs,
}

/// The pairs of a base: of its own, or shared with the realm that it was taken of and with its other bases.
#[derive(Drop)]
enum BasePairs {
    Own(Vec<Binding>),
    Shared(ArcSlice<Binding>),
}

impl Model for Base {
    ghost use Rattle.scope_rules.specs.Origin.{Origin};
    ghost use Rattle.scope_rules.specs.BasePairs.{pairs_of};

    ghost Value = { Origin };

    ghost view = { λ b. record { moment = b.moment; scopes = b.scopes; tasks = b.tasks; binds = pairs_of b.binds } };
}

impl Base {
    ghost use Rattle.scope_rules.specs.Origin.{Origin, the_start};

    /// The base of a fresh realm.
    pub fn empty(alloc: Global) -> Base
        ensures { result ≡ the_start }
    {
        Base {
            moment: 0,
            scopes: 0,
            tasks: 0,
            binds: BasePairs::Own(Vec::new(alloc)),
        }
    }

    /// A base of these parts: a moment in milliseconds, two counts, and main's own bindings, the
    /// latest last.
    pub fn new(moment: u64, scopes: u32, tasks: u32, binds: Vec<Binding>) -> Base
        ensures { result ≡ record { moment = moment; scopes = scopes; tasks = tasks; binds = binds.items } }
    {
        Base {
            moment,
            scopes,
            tasks,
            binds: BasePairs::Own(binds),
        }
    }

    /// A base of these parts, which shares main's own bindings. It copies none of them.
    pub fn sharing(moment: u64, scopes: u32, tasks: u32, binds: ArcSlice<Binding>) -> Base
        ensures { result ≡ record { moment = moment; scopes = scopes; tasks = tasks; binds = arc_slice_items binds } }
    {
        Base {
            moment,
            scopes,
            tasks,
            binds: BasePairs::Shared(binds),
        }
    }

    /// The realm's time, in milliseconds.
    pub fn moment(&self) -> u64
        ensures { result ≡ self.now.moment }
    {
        self.moment
    }

    /// How many scopes were numbered so far.
    pub fn scopes(&self) -> u32
        ensures { result ≡ self.now.scopes }
    {
        self.scopes
    }

    /// How many tasks were numbered so far.
    pub fn tasks(&self) -> u32
        ensures { result ≡ self.now.tasks }
    {
        self.tasks
    }

    /// Main's own bindings, the latest last.
    pub fn binds(&self) -> &[Binding]
        ensures { result.now ≡ self.now.binds }
    {
        match &self.binds {
            BasePairs::Own(pairs) => pairs,
            BasePairs::Shared(pairs) => pairs.as_slice(),
        }
    }
}
