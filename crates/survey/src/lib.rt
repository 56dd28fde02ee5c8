//! The sorts of forests, each with a cheapest forest of it.

#![tactic(auto)]

mod hints;
mod list;
mod relax;
mod sorting;
mod trees;
mod types;

ghost use Rattle.std.specs.Prelude.{◌≡◌};
ghost use Rattle.survey.specs.Survey.{setting, Survey};

use forest::Fault;
use list::Listing;
use measure::Measure;
use relax::{Rules, relax_all};
pub use sorting::Sorting;
use trees::KeptTrees;
pub use types::{First, Leaves, Sort, Standings};

/// Lists the sorts that forests have, each with a cheapest forest of it, in ascending order of cost, and tells how
/// many there are; or refuses with 21 where there are more sorts than elements.
pub fn survey<S: Sorting, M: Measure>(
    sorting: &S,
    measure: &M,
    list: &mut [Sort<M::Cost>],
) -> Result<usize, Fault>
    ensures { Survey (setting (M.Measure.model measure.now) (S.Sorting.model sorting.now)) list.new result }
{
    measure.tied();
    let rules = Rules { sorting, measure };
    let empty = Sort {
        standings: sorting.of_nil(),
        cost: measure.of_nil(),
        length: 0,
        first: First::Nothing,
        content: 0,
        rest: 0,
    };
    let mut listing = Listing::new();
    listing.offer(measure, list, empty)?;
    let mut trees = KeptTrees::new();
    let mut done = 0;
    let mut whole = 0;
    // The list grows while it is gone through.
    while done < listing.len {
        listing.settle(measure, list, done);
        whole = relax_all(&rules, list, &mut listing, done, &mut trees, whole)?;
        done += 1;
    }
    Ok(listing.len)
}
