//! The cheapest lost forest, over any way in which forests fall into sorts and any measure.

#![tactic(auto)]

mod verdict;

ghost use Rattle.std.specs.Prelude.{length, slice_index_or};
ghost use Rattle.forest.specs.Forest.{Forest};
ghost use Rattle.loss.specs.Losing.{Sides, Tells};
ghost use Rattle.loss.specs.Firsts.{FirstLost};
ghost use Rattle.loss.specs.Verdict.{Judged};

use forest::{Fault, Refusal};
use measure::Measure;
use survey::{Sort, Sorting, Standings, survey};
pub use verdict::{Loss, Verdict};
use writer::show;

/// The most elements that a working list has.
pub const MOST: usize = 1024;

/// A sorting whose sorts tell which forests are lost and which are kept.
pub trait Losing: Sorting {
    ghost sides: { Self → Sides };

    /// Whether the forests of a sort are lost; else they are kept.
    fn is_lost(&self, standings: Standings) -> bool
        ensures { Tells (Self.Sorting.model self.now) (sides self.now) standings result };

    ghost apart: { (s : Self) (f : Forest) → (sides s).kept f → (sides s).lost f → ⊥ };
}

// The first element whose forests are lost.
fn first_lost<S: Losing, C: Copy>(sorting: &S, sorts: &[Sort<C>]) -> Option<usize>
    ensures { (d : Sort C) → FirstLost (S.Sorting.model sorting.now) (S.Losing.sides sorting.now) (λ k. slice_index_or sorts.now k d) (length sorts.now) result }
{
    sorts
        .iter()
        .position(|sort| sorting.is_lost(sort.standings))
}

/// Judges: no forest is lost, or one of least cost is told and, where it fits, shown. Refuses with 20 a list of 0 or
/// above 1,024 elements, before anything, and with 21 where there are more sorts than elements.
pub fn judge_by<S: Losing, M: Measure>(
    sorting: &S,
    measure: &M,
    list: &mut [Sort<M::Cost>],
    out: &mut [u8],
) -> Result<Verdict<M::Cost>, Fault>
    ensures { Judged (S.Sorting.model sorting.now) (S.Losing.sides sorting.now) (M.Measure.model measure.now) (length list.old) list.old list.new out.old out.new result }
{
    if list.is_empty() || list.len() > MOST {
        return Err(Fault {
            refusal: Refusal::ListSize,
            place: 0,
        });
    }
    let count = survey::<S, M>(sorting, measure, list)?;
    let Some(k) = first_lost::<S, M::Cost>(sorting, &list[..count]) else {
        return Ok(Verdict::AllAdmitted);
    };
    measure.tied();
    let cheapest = list[k];
    Ok(Verdict::Lost(Loss {
        cost: cheapest.cost,
        length: cheapest.length,
        shown: show(list, k, out),
    }))
}
