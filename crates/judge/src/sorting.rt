// Two sheets as a sorting of forests.
ghost use Rattle.std.specs.Prelude.{◌≡◌};
ghost use Rattle.judge.specs.Pairs.{sorting_of, sides_of};
ghost use Rattle.judge.specs.Pairing.{sorts};
ghost use Rattle.std.proofs.Common.{rules, arith};

use crate::labels::Labels;
use crate::pair::Pair;
use loss::Losing;
use sheet::sound::SoundSheet;
use survey::{Leaves, Sorting, Standings};

impl Pair {
    /// The two sheets, with the labels to try for them.
    pub fn of(old: &SoundSheet, new: &SoundSheet) -> Pair
        ensures old { result.old ≡ old.now }
        ensures new { result.new ≡ new.now }
    {
        let mut labels = Labels::none();
        labels.add_named(old.rows());
        labels.add_named(new.rows());
        labels.add_other();
        Pair {
            old: *old,
            new: *new,
            labels,
        }
    }
}

impl Sorting for Pair {
    ghost model = { sorting_of };

    ghost sorted = { sorts };

    fn of_nil(&self) -> Standings {
        Standings {
            old: self.old.of_empty(),
            new: self.new.of_empty(),
        }
    }

    fn of_text(&self, rest: Standings) -> Option<Standings> {
        Some(Standings {
            old: self.old.of_text(rest.old),
            new: self.new.of_text(rest.new),
        })
    }

    fn leaves(&self, label: u16, content: Standings) -> Leaves {
        Leaves {
            old: self.old.node_leaves(label, content.old),
            new: self.new.node_leaves(label, content.new),
        }
    }

    fn before(&self, leaves: Leaves, rest: Standings) -> Standings {
        Standings {
            old: self.old.put_before(leaves.old, rest.old),
            new: self.new.put_before(leaves.new, rest.new),
        }
    }

    fn labels(&self) -> &[u16] {
        self.labels.listed()
    }
}

impl Losing for Pair {
    ghost sides = { sides_of };

    ghost apart = { first_of (Prim.search rules, Prim.grind (arith, Self.row.coded.inj)) };

    fn is_lost(&self, standings: Standings) -> bool {
        self.old.admits(standings.old) && !self.new.admits(standings.new)
    }
}
