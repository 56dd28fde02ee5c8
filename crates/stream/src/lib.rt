//! Streams of entries, and the lines that tell what became of each entry.

#![tactic(auto)]

pub mod buffer;
pub mod entry;
pub mod line;
#[cfg(test)]
mod tests;

pub use buffer::LineBuffer;
pub use entry::{Entry, Taken, take};
pub use line::Line;
