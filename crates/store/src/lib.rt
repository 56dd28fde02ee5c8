//! Lists kept one after another in one piece of memory.

#![tactic(auto)]

ghost use Rattle.std.specs.Prelude.{◌≡◌, ◌≤◌, length, vec_len};
ghost use Rattle.store.specs.Packing.{Apart, cuts, total};

mod calls;
mod room;

/// There is no room for one more list.
#[derive(Clone, Copy, PartialEq, Eq, Debug)]
pub struct Full;

/// Where a list lies in the memory. (A `Range` is not `Copy`, and so cannot be repeated in an array.)
#[derive(Clone, Copy)]
pub struct Span {
    start: usize,
    end: usize,
}

/// At most `N` lists, each right after the one before, in the first `limit` items of the memory.
// The spans are an array with a count, since nothing is allocated.
#[derive(Drop)]
pub struct Store<T, const N: usize> {
    memory: Vec<T>,
    limit: usize,
    spans: [Span; N],
    count: usize,
    used: usize,
    ghost few: { (count ≤ N) × (length spans ≡ N) },
    ghost within: { (used ≤ vec_len memory) × (used ≤ limit) },
    ghost apart: { Apart spans count used },
    ghost filled: { used ≡ total (cuts memory.items spans count) },
}
