//! Sound sheets: checking, standings, and belonging.

#![tactic(auto)]

pub mod belong;
pub mod checked;
mod compile;
mod expression;
mod numbered;
mod sets;
pub mod shape;
pub mod sound;
pub mod standings;
pub mod tables;

pub use rows::{raw, read, row};
