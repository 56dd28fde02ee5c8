//! What an expression begins and ends with, worked out from its parts.

/// Whether a row admits the empty forest, and the leaves that can come first and last in it.
#[derive(Clone, Copy)]
pub struct Shape {
    pub empty: bool,
    pub opening: u64,
    pub closing: u64,
}
