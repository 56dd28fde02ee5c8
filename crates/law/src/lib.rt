//! What the calls of a register answer and leave, and the law of every season of such calls.

#![tactic(auto)]

ghost use Rattle.std.specs.Prelude.{◌≡◌};
ghost use Rattle.law.specs.declared.Declined.TheVariants.{Refused};
ghost use Rattle.law.specs.Bounds.{CallBounds};
ghost use Rattle.law.specs.Calls.{Held};
ghost use Rattle.law.specs.Follows.{OneOutcome, SeasonFollows};
ghost use Rattle.law.specs.Law.{SeasonLaw};
ghost use Rattle.law.specs.Mixing.{Mixes};

use forest::Fault;
use loss::Loss;
use measure::{Measure, either_costs_alike};

/// Why a proposal is declined.
#[derive(Clone, Copy, PartialEq, Eq, Debug)]
pub enum Declined<C> {
    /// A refusal, with its number and place.
    Refused(Fault),
    /// Refusal 36: a cheapest forest that would be lost.
    Loses(Loss<C>),
}

/// A refusal of judging goes up unaltered.
impl<C> From<Fault> for Declined<C> {
    ghost from_gives = { λ f r. r ≡ Refused f };

    fn from(fault: Fault) -> Declined<C> {
        Declined::Refused(fault)
    }
}

/// Promises that every season is lawful: whatever calls are made of a new register, over any memory, with any inputs
/// and any measures of one kind. `L` is what working lists hold.
pub fn season_holds<M: Measure, L>()
    ensures { SeasonLaw M M.Cost L M.Measure.model }
{}

/// Promises what follows from the law alone, in every lawful history and so in every season: the newest edition reads
/// every record, numbers count up from 1 and keep what they number, no limit is passed, and two lawful answers to one
/// call are one answer.
pub fn season_follows<M: Measure, L>()
    ensures { SeasonFollows M M.Cost L M.Measure.model }
{}

/// Promises that a call of a register has one outcome, up to the working list and which of several cheapest losses is told.
pub fn calls_have_one_outcome<M: Measure, L>()
    ensures { (s : Held) → OneOutcome L M.Measure.model s }
{}

/// Promises where each bound of the calls lies and which check comes first, and what is shown of a loss.
pub fn calls_at_bounds<M: Measure, L>()
    ensures { CallBounds L M.Measure.model }
{}

/// Promises that a season may mix kinds of measure: a call with a measure of one kind is a call with it as one of two
/// kinds together, so that a season of several kinds is a season of one.
pub fn kinds_mix<A: Measure, B: Measure, L>()
    ensures { Mixes L A.Measure.model B.Measure.model }
{
    either_costs_alike::<A, B>();
}
