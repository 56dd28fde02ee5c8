// What a survey writes down.

/// The sort of a forest: its standing over each of two sheets, as a set of places.
#[derive(Clone, Copy, PartialEq, Eq)]
pub struct Standings {
    pub old: u64,
    pub new: u64,
}

/// The leaves that admit a tree, as a set of places of each of two sheets.
// A type beside Standings: a set of leaves is no standing, and may not pass for one.
#[derive(Clone, Copy, PartialEq, Eq)]
pub struct Leaves {
    pub old: u64,
    pub new: u64,
}

/// What a forest begins with: nothing, as it is empty, an empty text, or a node with this label.
#[derive(Clone, Copy)]
pub enum First {
    Nothing,
    Text,
    Node(u16),
}

/// A sort of forests, and a cheapest forest of it: its cost, its length, and what it begins with, before the forest
/// of the element at `rest`; a node's content is the forest of the element at `content`.
// Content and rest are plain numbers beside `first`, 0 where there is none: as such they are copied to the plain table
// that a loss is written from, and nothing may be allocated for parts of their own.
#[derive(Clone, Copy)]
pub struct Sort<C> {
    pub standings: Standings,
    pub cost: C,
    pub length: u32,
    pub first: First,
    pub content: usize,
    pub rest: usize,
}

// A node over the forest of an entry, and the leaves that admit it.
#[derive(Clone, Copy)]
pub struct Tree {
    pub leaves: Leaves,
    pub label: u16,
    pub content: usize,
}
