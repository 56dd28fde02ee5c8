// What an entry that is settled newly allows: an empty text before it, kept trees before it, trees over it.
// What a list keeps stands in each contract, and not on a type: the list is lent beside its length (see Listing).
ghost use Rattle.std.specs.Prelude.{◌≡◌, ◌+◌, ◌≤◌, ◌⊎◌};
ghost use Rattle.survey.specs.Survey.{setting};
ghost use Rattle.survey.specs.Steps.{Keeps, Texted};
ghost use Rattle.survey.specs.KeptTrees.{TreeOver, TreesOver, Joins, Over, Before, Each, Beyond, JoinedTrees, New, Fresh, Table, Around};

use crate::list::Listing;
use crate::sorting::Sorting;
use crate::trees::KeptTrees;
use crate::types::{First, Sort, Tree};
use forest::Fault;
use measure::{Length, Measure};

// How forests fall into sorts, and what they cost.
#[derive(Clone, Copy)]
pub struct Rules<'a, S, M> {
    pub sorting: &'a S,
    pub measure: &'a M,
}

// An empty text before the entry settled last.
fn relax_text<S: Sorting, M: Measure>(
    rules: &Rules<S, M>,
    list: &mut [Sort<M::Cost>],
    listing: &mut Listing,
    last: usize,
) -> Result<(), Fault>
    requires { Keeps (setting (M.Measure.model rules.now.measure.now) (S.Sorting.model rules.now.sorting.now)) list.old (last + 1) listing.old.len }
    ensures { Texted (setting (M.Measure.model rules.now.measure.now) (S.Sorting.model rules.now.sorting.now)) list.old last listing.old.len list.new listing.new.len result }
{
    let below = list[last];
    match rules.sorting.of_text(below.standings) {
        None => Ok(()),
        Some(standings) => {
            let cost = rules.measure.of_text(0, below.cost);
            let length = Length.of_text(0, below.length);
            let sort = Sort {
                standings,
                cost,
                length,
                first: First::Text,
                content: 0,
                rest: last,
            };
            listing.offer(rules.measure, list, sort)
        }
    }
}

// A node before an entry, the entry or the node's content settled last.
fn relax_node<S: Sorting, M: Measure>(
    rules: &Rules<S, M>,
    list: &mut [Sort<M::Cost>],
    listing: &mut Listing,
    last: usize,
    tree: Tree,
    rest: usize,
) -> Result<(), Fault>
    requires kept { Keeps (setting (M.Measure.model rules.now.measure.now) (S.Sorting.model rules.now.sorting.now)) list.old (last + 1) listing.old.len }
    requires over { TreeOver (setting (M.Measure.model rules.now.measure.now) (S.Sorting.model rules.now.sorting.now)) list.old (last + 1) tree }
    requires bounds { rest ≤ last }
    requires new { (tree.content ≡ last) ⊎ (rest ≡ last) }
    ensures { Joins (setting (M.Measure.model rules.now.measure.now) (S.Sorting.model rules.now.sorting.now)) list.old last listing.old.len tree rest list.new listing.new.len result }
{
    let inner = list[tree.content];
    let after = list[rest];
    let standings = rules.sorting.before(tree.leaves, after.standings);
    let cost = rules.measure.of_node(inner.cost, after.cost);
    let length = Length.of_node(inner.length, after.length);
    let sort = Sort {
        standings,
        cost,
        length,
        first: First::Node(tree.label),
        content: tree.content,
        rest,
    };
    listing.offer(rules.measure, list, sort)
}

// A tree over the entry settled last, before each settled entry. By index: the list is written in between. The range
// ends before `last + 1`: that up to `last` ends in the middle of a step, which the proof would then have twice.
fn relax_over<S: Sorting, M: Measure>(
    rules: &Rules<S, M>,
    list: &mut [Sort<M::Cost>],
    listing: &mut Listing,
    last: usize,
    tree: Tree,
) -> Result<(), Fault>
    requires kept { Keeps (setting (M.Measure.model rules.now.measure.now) (S.Sorting.model rules.now.sorting.now)) list.old (last + 1) listing.old.len }
    requires over { TreeOver (setting (M.Measure.model rules.now.measure.now) (S.Sorting.model rules.now.sorting.now)) list.old (last + 1) tree }
    requires new { tree.content ≡ last }
    ensures { Over (setting (M.Measure.model rules.now.measure.now) (S.Sorting.model rules.now.sorting.now)) list.old last listing.old.len tree list.new listing.new.len result }
{
    for k in 0..last + 1 {
        relax_node(rules, list, listing, last, tree, k)?;
    }
    Ok(())
}

// The kept trees before the entry settled last.
fn relax_before<S: Sorting, M: Measure>(
    rules: &Rules<S, M>,
    list: &mut [Sort<M::Cost>],
    listing: &mut Listing,
    last: usize,
    trees: &[Tree],
) -> Result<(), Fault>
    requires kept { Keeps (setting (M.Measure.model rules.now.measure.now) (S.Sorting.model rules.now.sorting.now)) list.old (last + 1) listing.old.len }
    requires over { TreesOver (setting (M.Measure.model rules.now.measure.now) (S.Sorting.model rules.now.sorting.now)) list.old trees.now (last + 1) }
    ensures { Before (setting (M.Measure.model rules.now.measure.now) (S.Sorting.model rules.now.sorting.now)) list.old last listing.old.len trees.now list.new listing.new.len result }
{
    for &tree in trees {
        relax_node(rules, list, listing, last, tree, last)?;
    }
    Ok(())
}

// Each label over an entry, before the entry settled last.
fn relax_each<S: Sorting, M: Measure>(
    rules: &Rules<S, M>,
    list: &mut [Sort<M::Cost>],
    listing: &mut Listing,
    last: usize,
    content: usize,
) -> Result<(), Fault>
    requires kept { Keeps (setting (M.Measure.model rules.now.measure.now) (S.Sorting.model rules.now.sorting.now)) list.old (last + 1) listing.old.len }
    requires bounds { content ≤ last }
    ensures { Each (setting (M.Measure.model rules.now.measure.now) (S.Sorting.model rules.now.sorting.now)) list.old last listing.old.len content list.new listing.new.len result }
{
    let inner = list[content];
    for &label in rules.sorting.labels() {
        let leaves = rules.sorting.leaves(label, inner.standings);
        let tree = Tree {
            leaves,
            label,
            content,
        };
        relax_node(rules, list, listing, last, tree, last)?;
    }
    Ok(())
}

// Each label over the entries from `whole` on, before the entry settled last. By index: the list is written in between.
fn relax_rests<S: Sorting, M: Measure>(
    rules: &Rules<S, M>,
    list: &mut [Sort<M::Cost>],
    listing: &mut Listing,
    last: usize,
    whole: usize,
) -> Result<(), Fault>
    requires kept { Keeps (setting (M.Measure.model rules.now.measure.now) (S.Sorting.model rules.now.sorting.now)) list.old (last + 1) listing.old.len }
    requires bounds { whole ≤ last }
    ensures { Beyond (setting (M.Measure.model rules.now.measure.now) (S.Sorting.model rules.now.sorting.now)) list.old last listing.old.len whole list.new listing.new.len result }
{
    for c in whole..last {
        relax_each(rules, list, listing, last, c)?;
    }
    Ok(())
}

// A tree over the entry settled last: if no kept one is like it, before each settled entry, and kept if there is room.
// Tells whether a kept one is like it now: where none is there was no room, which is no failure.
fn relax_new<S: Sorting, M: Measure>(
    rules: &Rules<S, M>,
    list: &mut [Sort<M::Cost>],
    listing: &mut Listing,
    last: usize,
    trees: &mut KeptTrees,
    tree: Tree,
) -> Result<bool, Fault>
    requires kept { Keeps (setting (M.Measure.model rules.now.measure.now) (S.Sorting.model rules.now.sorting.now)) list.old (last + 1) listing.old.len }
    requires trees { JoinedTrees (setting (M.Measure.model rules.now.measure.now) (S.Sorting.model rules.now.sorting.now)) list.old trees.old (last + 1) listing.old.len }
    requires over { TreeOver (setting (M.Measure.model rules.now.measure.now) (S.Sorting.model rules.now.sorting.now)) list.old (last + 1) tree }
    requires new { tree.content ≡ last }
    ensures { New (setting (M.Measure.model rules.now.measure.now) (S.Sorting.model rules.now.sorting.now)) list.old last listing.old.len trees.old tree list.new listing.new.len trees.new result }
{
    if trees.has(tree.leaves) {
        return Ok(true);
    }
    relax_over(rules, list, listing, last, tree)?;
    Ok(trees.keep(tree))
}

// The trees over the entry settled last. Tells whether a kept one is like each of them now; else their nodes are tried
// again before each entry that is settled later.
fn relax_trees<S: Sorting, M: Measure>(
    rules: &Rules<S, M>,
    list: &mut [Sort<M::Cost>],
    listing: &mut Listing,
    last: usize,
    trees: &mut KeptTrees,
) -> Result<bool, Fault>
    requires kept { Keeps (setting (M.Measure.model rules.now.measure.now) (S.Sorting.model rules.now.sorting.now)) list.old (last + 1) listing.old.len }
    requires trees { JoinedTrees (setting (M.Measure.model rules.now.measure.now) (S.Sorting.model rules.now.sorting.now)) list.old trees.old (last + 1) listing.old.len }
    ensures { Fresh (setting (M.Measure.model rules.now.measure.now) (S.Sorting.model rules.now.sorting.now)) list.old last listing.old.len trees.old list.new listing.new.len trees.new result }
{
    let inner = list[last];
    let mut all_met = true;
    for &label in rules.sorting.labels() {
        let leaves = rules.sorting.leaves(label, inner.standings);
        let tree = Tree {
            leaves,
            label,
            content: last,
        };
        all_met &= relax_new(rules, list, listing, last, trees, tree)?;
    }
    Ok(all_met)
}

// All that the entry settled last newly allows. The trees over the contents before `whole` are all met by kept ones;
// tells before which they are then.
pub fn relax_all<S: Sorting, M: Measure>(
    rules: &Rules<S, M>,
    list: &mut [Sort<M::Cost>],
    listing: &mut Listing,
    last: usize,
    trees: &mut KeptTrees,
    whole: usize,
) -> Result<usize, Fault>
    requires kept { Keeps (setting (M.Measure.model rules.now.measure.now) (S.Sorting.model rules.now.sorting.now)) list.old (last + 1) listing.old.len }
    requires table { Table (setting (M.Measure.model rules.now.measure.now) (S.Sorting.model rules.now.sorting.now)) list.old trees.old whole last listing.old.len }
    ensures { Around (setting (M.Measure.model rules.now.measure.now) (S.Sorting.model rules.now.sorting.now)) list.old last listing.old.len list.new listing.new.len trees.new result }
{
    relax_text(rules, list, listing, last)?;
    relax_before(rules, list, listing, last, trees.as_slice())?;
    relax_rests(rules, list, listing, last, whole)?;
    let all_met = relax_trees(rules, list, listing, last, trees)?;
    if all_met && whole == last {
        return Ok(last + 1);
    }
    Ok(whole)
}
