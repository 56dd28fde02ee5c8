//! What a sound sheet holds beside its rows, so that a standing is worked out by a few steps.

/// The three kinds of leaves.
#[derive(Clone, Copy)]
pub enum LeafKind {
    Text,
    Named,
    Any,
}

/// The tables of a sheet. Sets are sets of places, lists have an element for each place.
///
/// Three lists beside one another, since each is walked by itself, by `gather` or by `pick`.
#[derive(Clone, Copy)]
pub struct Tables {
    /// The standing of the empty forest.
    pub ends: u64,
    /// For each leaf, the places after which it can come.
    pub before: [u64; 64],
    /// The leaves for one text, for a node with a label, for a node of any label.
    pub texts: u64,
    pub named: u64,
    pub anys: u64,
    /// For each leaf with a label, the label.
    pub labels: [u16; 64],
    /// For each definition, the leaves that have it as their content.
    pub holders: [u64; 64],
    /// Definition 0.
    pub top: u64,
}
