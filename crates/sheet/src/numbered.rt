//! Rows whose places are numbered.

ghost use Rattle.rows.specs.Checked.{rows_in};
ghost use Rattle.rows.specs.Sheet.{Place, places};
ghost use Rattle.sheet.specs.Compiled.{AllThere};
ghost use Rattle.sheet.specs.Shapes.{Ready};
ghost use Rattle.std.specs.Prelude.{◌≡◌, ◌^◌, take};

use super::sets::bit;
use rows::{CheckedRows, Row};

/// The rows of a sound sheet, and for each the number of its place: what the tables are worked out from.
// Side by side, as checked rows have them, of which the rows alone go on as one slice.
#[derive(Clone, Copy)]
pub struct NumberedRows<'a> {
    pub(super) rows: &'a [Row],
    pub(super) numbers: &'a [u8],
    ghost ready: { Ready rows.now numbers.now },
    ghost there: { AllThere rows.now },
}

impl<'a> NumberedRows<'a> {
    /// The rows of a checked sheet.
    pub fn of(checked: &'a CheckedRows) -> NumberedRows<'a>
        ensures { result.rows.now ≡ rows_in checked.now }
    {
        NumberedRows {
            rows: checked.rows(),
            numbers: &checked.numbers,
        }
    }

    /// The place at row `e`, as a set.
    pub fn place(self, e: usize) -> u64
        requires { Place self.rows.now e }
        ensures { result ≡ 2 ^ places (take e self.entry.rows.now) }
    {
        bit(self.numbers[e])
    }
}
