// One of two measures, so that one type stands for several.
ghost use Rattle.measure.specs.Eithers.{either_ranking, either_costs};
ghost use Rattle.measure.specs.Combining.{either_ordered, either_lawful};
ghost use Rattle.std.proofs.Common.{rules};

use crate::{Measure, Order};

/// One of two: a measure of either kind, so that what is said of any one measure holds of several kinds together, and
/// a cost of either kind.
#[derive(Clone, Copy, PartialEq, Eq, Debug)]
pub enum Either<A, B> {
    One(A),
    Other(B),
}

impl<C, D, A: Order<C>, B: Order<D>> Order<Either<C, D>> for Either<A, B> {
    ghost ranking = { either_ranking A.Order.ranking B.Order.ranking };

    ghost ordered = { either_ordered A.Order.ranking B.Order.ranking A.Order.ordered B.Order.ordered };

    fn at_most(&self, a: Either<C, D>, b: Either<C, D>) -> bool {
        match (self, a, b) {
            (Either::One(m), Either::One(x), Either::One(y)) => m.at_most(x, y),
            (Either::Other(m), Either::Other(x), Either::Other(y)) => m.at_most(x, y),
            _ => unreachable(),
        }
    }
}

impl<A: Measure, B: Measure> Measure for Either<A, B> {
    type Cost = Either<A::Cost, B::Cost>;

    ghost model = { either_costs A.Measure.model B.Measure.model };

    ghost lawful = { either_lawful A.Measure.model B.Measure.model A.Measure.lawful B.Measure.lawful };

    ghost ranked = { Prim.search rules };

    fn of_nil(&self) -> Self::Cost {
        match self {
            Either::One(m) => Either::One(m.of_nil()),
            Either::Other(m) => Either::Other(m.of_nil()),
        }
    }

    fn of_text(&self, bytes: u8, rest: Self::Cost) -> Self::Cost {
        match (self, rest) {
            (Either::One(m), Either::One(r)) => Either::One(m.of_text(bytes, r)),
            (Either::Other(m), Either::Other(r)) => Either::Other(m.of_text(bytes, r)),
            _ => unreachable(),
        }
    }

    fn of_node(&self, content: Self::Cost, rest: Self::Cost) -> Self::Cost {
        match (self, content, rest) {
            (Either::One(m), Either::One(c), Either::One(r)) => Either::One(m.of_node(c, r)),
            (Either::Other(m), Either::Other(c), Either::Other(r)) => Either::Other(m.of_node(
                c, r,
            )),
            _ => unreachable(),
        }
    }

    fn tied(&self) {
        match self {
            Either::One(m) => m.tied(),
            Either::Other(m) => m.tied(),
        }
    }
}
