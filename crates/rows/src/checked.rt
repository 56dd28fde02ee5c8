//! Rows that passed the checks.

ghost use Rattle.rows.specs.Parts.{Numbers};
ghost use Rattle.rows.specs.Sheet.{Sound};
ghost use Rattle.std.specs.Prelude.{◌≡◌, ◌≤◌, take};

use super::read::MOST_ROWS;
use super::row::Row;

/// The rows of a sound sheet, `count` of them, and for each the number of its place: how many places stand below it.
///
/// Arrays with a count, since a sheet is held by value and no call allocates. The numbers stand beside the rows, since
/// the rows alone go on as one slice.
#[derive(Clone, Copy)]
pub struct CheckedRows {
    pub rows: [Row; MOST_ROWS],
    pub count: usize,
    pub numbers: [u8; MOST_ROWS],
    ghost short: { count ≤ 128 },
    ghost sound: { ∥ Sound (take count rows) ∥₁ },
    ghost numbered: { Numbers (take count rows) numbers },
}

impl CheckedRows {
    /// The rows of the sheet.
    pub fn rows(&self) -> &[Row]
        ensures { result.now ≡ take self.now.count self.now.rows }
    {
        &self.rows[..self.count]
    }
}
