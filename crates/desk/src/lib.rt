//! The entries of a stream, handled by a register.

#![tactic(auto)]

mod entries;
mod progress;

pub use entries::Desk;
pub use progress::Progress;
