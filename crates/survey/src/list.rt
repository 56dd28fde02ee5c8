// Writing sorts into a list, and settling the cheapest.
ghost use Rattle.std.specs.Prelude.{◌≡◌, ◌<◌, ◌≤◌, length};
ghost use Rattle.survey.specs.Steps.{Found, LeastIn, AllGood, Offer, Settled};

use crate::hints::{Hints, key_of};
use crate::types::{Sort, Standings};
use forest::{Fault, Refusal};
use measure::{Measure, Order};

// How many sorts a list holds, and hints where each stands. The list stands beside this and not in it: from a slice
// that is lent by `&mut` in a field, the check does not cover the reads by which a hint is tried.
#[derive(Drop)]
pub struct Listing {
    pub len: usize,
    hints: Hints<2048>,
}

// One line here and one for the leaves of trees: a trait for the two would be longer.
fn key(standings: Standings) -> u64 {
    key_of(standings.old, standings.new)
}

// The place of the least cost from `from` on and before `to`, by an order alone. By index: the place is the answer,
// and each cost is compared with the one at the best place so far.
fn least<C: Copy, O: Order<C>>(order: &O, list: &[Sort<C>], from: usize, to: usize) -> usize
    requires bounds { (from < to) × (to ≤ length list.now) }
    requires ranked { AllGood (O.Order.ranking order.now).ranks list.now to }
    ensures low { from ≤ result }
    ensures high { result < to }
    ensures least { LeastIn (O.Order.ranking order.now).le list.now from to result }
{
    let mut best = from;
    for i in from + 1..to {
        if !order.at_most(list[best].cost, list[i].cost) {
            best = i;
        }
    }
    best
}

impl Listing {
    pub fn new() -> Listing
        ensures { result.len ≡ 0 }
    {
        Listing {
            len: 0,
            hints: Hints::new(),
        }
    }

    // Where a sort stands. What no hint tells is looked for and noted: where it is found, or else at the end, where it
    // will be written if there is room.
    fn find<C: Copy>(&mut self, list: &[Sort<C>], standings: Standings) -> Option<usize>
        requires { self.old.len ≤ length list.now }
        ensures same { self.new.len ≡ self.old.len }
        ensures found { Found list.now self.old.len standings result }
    {
        let len = self.len;
        let key = key(standings);
        let hinted = self
            .hints
            .find(key, |k| k < len && list[k].standings == standings);
        if hinted.is_some() {
            return hinted;
        }
        let found = list[..len]
            .iter()
            .position(|sort| sort.standings == standings);
        self.hints.note(key, found.unwrap_or(len));
        found
    }

    // Moves the cheapest of the entries from `done` on to `done`.
    pub fn settle<M: Measure>(&mut self, measure: &M, list: &mut [Sort<M::Cost>], done: usize)
        requires bounds { (done < self.old.len) × (self.old.len ≤ length list.old) }
        requires good { AllGood (M.Measure.model measure.now).good list.old self.old.len }
        ensures same { self.new.len ≡ self.old.len }
        ensures settled { (d : Sort M.Cost) → Settled (M.Measure.model measure.now).le d list.old done self.old.len list.new }
    {
        measure.tied();
        let place = least::<M::Cost, M>(measure, list, done, self.len);
        let cheapest = key(list[place].standings);
        let first = key(list[done].standings);
        self.hints.exchange(cheapest, place, first, done);
        list.swap(done, place);
    }

    // Writes a sort down if it is new, or cheaper than it was.
    pub fn offer<M: Measure>(
        &mut self,
        measure: &M,
        list: &mut [Sort<M::Cost>],
        sort: Sort<M::Cost>,
    ) -> Result<(), Fault>
        requires bounds { self.old.len ≤ length list.old }
        requires good { AllGood (M.Measure.model measure.now).good list.old self.old.len }
        requires fine { (M.Measure.model measure.now).good sort.cost }
        ensures { (d : Sort M.Cost) → Offer (M.Measure.model measure.now).le d list.old self.old.len sort list.new self.new.len result }
    {
        measure.tied();
        match self.find(list, sort.standings) {
            Some(k) => {
                if !measure.at_most(list[k].cost, sort.cost) {
                    list[k] = sort;
                }
            }
            None => {
                if self.len >= list.len() {
                    return Err(Fault {
                        refusal: Refusal::TooManySorts,
                        place: 0,
                    });
                }
                list[self.len] = sort;
                self.len += 1;
            }
        }
        Ok(())
    }
}
