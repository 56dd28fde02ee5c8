//! Judging a new sheet against an old one.

#![tactic(auto)]

mod labels;
mod pair;
mod sorting;

ghost use Rattle.std.specs.Prelude.{length};
ghost use Rattle.sheet.specs.Held.{rows_of};
ghost use Rattle.judge.specs.Judged.{Judged, Unbegun};

use forest::Fault;
use loss::judge_by;
pub use loss::{Loss, Verdict};
use measure::Measure;
use pair::Pair;
use sheet::sound::SoundSheet;
pub use survey::Sort;

/// Judges a new sheet against an old one: every forest of the old sheet belongs to the new one, or one of least cost
/// that does not is told and, where it fits, shown. Refuses with 20 a working list of 0 or above 1,024 elements, before
/// anything, and with 21 where there are more sorts of forests than elements.
// Five inputs, as judging has them: a list and a buffer in one struct would be made for each call and taken apart again.
pub fn judge<M: Measure>(
    old: &SoundSheet,
    new: &SoundSheet,
    measure: &M,
    list: &mut [Sort<M::Cost>],
    show: &mut [u8],
) -> Result<Verdict<M::Cost>, Fault>
    ensures judged { Judged (M.Measure.model measure.now) (rows_of old.now) (rows_of new.now) (length list.old) result show.old show.new }
    ensures unbegun { Unbegun result list.old list.new }
{
    let pair = Pair::of(old, new);
    judge_by(&pair, measure, list, show)
}
