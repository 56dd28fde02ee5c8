//! Forests of labelled nodes and texts, the bytes that they are written as, and the reading of records.

#![tactic(auto)]

pub mod event;
pub mod events;
pub mod fault;
pub mod laws;
mod marks;
mod read;
pub mod record;

pub use event::Event;
pub use events::Events;
pub use fault::{Fault, Refusal};
pub use marks::{CLOSING, OPENING, TEXT};
pub use record::Record;
