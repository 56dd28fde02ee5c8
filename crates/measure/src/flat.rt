// One cost for everything.
ghost use Rattle.measure.specs.Flats.{flat_ranking, flat_costs};
ghost use Rattle.std.proofs.Common.{rules};

use crate::{Measure, Order};

/// Tells no forest from another: each costs the same.
#[derive(Clone, Copy, PartialEq, Eq, Debug)]
pub struct Flat {
    pub only: u32,
}

impl Order<u32> for Flat {
    ghost ranking = { λ _. flat_ranking };

    ghost ordered = { Prim.search rules };

    fn at_most(&self, a: u32, b: u32) -> bool {
        true
    }
}

impl Measure for Flat {
    type Cost = u32;

    ghost model = { λ m. flat_costs m.only };

    ghost lawful = { Prim.search rules };

    ghost ranked = { Prim.search rules };

    fn of_nil(&self) -> u32 {
        self.only
    }

    fn of_text(&self, bytes: u8, rest: u32) -> u32 {
        self.only
    }

    fn of_node(&self, content: u32, rest: u32) -> u32 {
        self.only
    }

    fn tied(&self) {}
}
