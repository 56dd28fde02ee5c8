// The number of bytes.
ghost use Rattle.measure.specs.Lengths.{length_ranking, length_costs};
ghost use Rattle.std.proofs.Common.{rules};

use crate::{CEILING, Measure, Order};

/// How many bytes a forest is written with, up to the ceiling.
#[derive(Clone, Copy, PartialEq, Eq, Debug)]
pub struct Length;

impl Order<u32> for Length {
    ghost ranking = { λ _. length_ranking };

    ghost ordered = { Prim.search rules };

    fn at_most(&self, a: u32, b: u32) -> bool {
        a <= b
    }
}

impl Measure for Length {
    type Cost = u32;

    ghost model = { λ _. length_costs };

    ghost lawful = { Prim.search rules };

    ghost ranked = { Prim.search rules };

    fn of_nil(&self) -> u32 {
        0
    }

    fn of_text(&self, bytes: u8, rest: u32) -> u32 {
        (2 + u32::from(bytes) + rest).min(CEILING)
    }

    fn of_node(&self, content: u32, rest: u32) -> u32 {
        (4 + content + rest).min(CEILING)
    }

    fn tied(&self) {}
}
