//! The rows of a sheet: reading them off a body, and checking them.

#![tactic(auto)]

mod check;
pub mod checked;
pub mod raw;
pub mod read;
pub mod row;
mod rules;
mod take;

pub use check::count_places;
pub use checked::CheckedRows;
pub use raw::RawRow;
pub use read::{MOST_ROWS, ReadSheet};
pub use row::Row;
