// Texts, and then bytes.
ghost use Rattle.std.specs.Prelude.{◌≡◌, ◌≤◌};
ghost use Rattle.measure.specs.Fillings.{filling_ranking, filling_costs, capped as joint};
ghost use Rattle.std.proofs.Common.{rules};

use crate::{CEILING, Measure, Order};

/// How many texts a forest holds, and then its length, up to the ceiling.
#[derive(Clone, Copy, PartialEq, Eq, Debug)]
pub struct Filling;

/// Once the texts reach the ceiling, both numbers are the ceiling.
fn capped(texts: u32, length: u32) -> (u32, u32)
    ensures { result ≡ joint texts length }
{
    if texts >= CEILING {
        (CEILING, CEILING)
    } else {
        (texts, length.min(CEILING))
    }
}

impl Order<(u32, u32)> for Filling {
    ghost ranking = { λ _. filling_ranking };

    ghost ordered = { Prim.search rules };

    fn at_most(&self, a: (u32, u32), b: (u32, u32)) -> bool {
        a <= b
    }
}

impl Measure for Filling {
    type Cost = (u32, u32);

    ghost model = { λ _. filling_costs };

    ghost lawful = { Prim.search rules };

    ghost ranked = { Prim.search rules };

    fn of_nil(&self) -> (u32, u32) {
        (0, 0)
    }

    fn of_text(&self, bytes: u8, rest: (u32, u32)) -> (u32, u32) {
        capped(1 + rest.0, 2 + u32::from(bytes) + rest.1)
    }

    fn of_node(&self, content: (u32, u32), rest: (u32, u32)) -> (u32, u32) {
        capped(content.0 + rest.0, 4 + content.1 + rest.1)
    }

    fn tied(&self) {}
}
