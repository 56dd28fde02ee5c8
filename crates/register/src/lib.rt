//! A register of editions of sheets and of records filed under them.

#![tactic(auto)]

mod calls;
mod holding;
mod propose;
mod register;

pub use register::Register;
