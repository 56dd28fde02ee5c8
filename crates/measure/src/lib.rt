//! Measures: what a forest costs, and by which order.

#![tactic(auto)]

mod either;
mod filling;
mod flat;
mod length;

ghost use Rattle.std.specs.Prelude.{◌≡◌, ◌↔◌, IsTrue};
ghost use Rattle.measure.specs.Measure.{Ranking, Ordered, Costs, Lawful, Tied};
ghost use Rattle.measure.specs.Lengths.{LengthCountsBytes};
ghost use Rattle.measure.specs.Eithers.{CostsAlike};

pub use either::Either;
pub use filling::Filling;
pub use flat::Flat;
pub use length::Length;

/// No number that a cost has, and no told length, goes above it.
pub const CEILING: u32 = 1_000_000_000;

/// Tells of two values that it ranks whether the first is at most the second.
pub trait Order<C> {
    ghost ranking: { Self → Ranking C };

    fn at_most(&self, a: C, b: C) -> bool
        requires { (ranking self.now).ranks a × (ranking self.now).ranks b }
        ensures { IsTrue result ↔ (ranking self.now).le a b };

    ghost ordered: { (o : Self) → Ordered (ranking o).ranks (ranking o).le };
}

/// An order with three costs added: of the empty forest, of a text before a rest, of a node with its content before
/// a rest. Whoever adds a measure shows its laws.
pub trait Measure: Order<<Self as Measure>::Cost> {
    type Cost: Copy;

    /// Which values are costs, the measure's own order of them, and the three costs.
    ghost model: { Self → Costs Self.Cost };

    fn of_nil(&self) -> Self::Cost
        ensures { result ≡ (model self.now).rules.of_nil };

    fn of_text(&self, bytes: u8, rest: Self::Cost) -> Self::Cost
        requires { (model self.now).good rest }
        ensures { result ≡ (model self.now).rules.of_text bytes rest };

    fn of_node(&self, content: Self::Cost, rest: Self::Cost) -> Self::Cost
        requires { (model self.now).good content × (model self.now).good rest }
        ensures { result ≡ (model self.now).rules.of_node content rest };

    /// Promises that the measure's own order and the order it is built on say the same of any two costs.
    fn tied(&self)
        ensures { Tied (Self.Order.ranking self.now) (model self.now) };

    ghost lawful: { (m : Self) → Lawful (model m).good (model m).le (model m).rules };

    ghost ranked: { (m : Self) (c : Self.Cost) → (model m).good c → (Self.Order.ranking m).ranks c };
}

/// Promises that the length of a forest is the number of bytes it is written with, up to the ceiling.
pub fn length_counts_bytes()
    ensures { LengthCountsBytes }
{}

/// Promises that one of two measures, taken as one measure, costs what it costs alone.
pub fn either_costs_alike<A: Measure, B: Measure>()
    ensures { CostsAlike A.Measure.model B.Measure.model }
{}
