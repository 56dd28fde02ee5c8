//! Checking a read sheet.

ghost use Rattle.rows.specs.Checked.{raws_of, rows_in};
ghost use Rattle.rows.specs.Checking.{AtMostOne};
ghost use Rattle.rows.specs.Sheet.{places};
ghost use Rattle.sheet.specs.Held.{Checking, only_empty, rows_of};
ghost use Rattle.std.specs.Prelude.{◌≡◌, length};

use super::numbered::NumberedRows;
use super::sound::SoundSheet;
use forest::Fault;
use rows::{CheckedRows, MOST_ROWS, ReadSheet, Row, count_places};

impl From<CheckedRows> for SoundSheet {
    ghost from_gives = { λ checked sheet. rows_of sheet ≡ rows_in checked };

    // Always inlined: a sheet takes two thousand bytes, and would be copied to where the call stands.
    #[inline(always)]
    fn from(checked: CheckedRows) -> SoundSheet {
        let tables = NumberedRows::of(&checked).tables();
        SoundSheet { checked, tables }
    }
}

impl SoundSheet {
    /// The sheet that admits only the empty forest.
    pub fn empty() -> SoundSheet
        ensures { rows_of result ≡ only_empty }
    {
        let mut rows = [Row::Empty; MOST_ROWS];
        rows[1] = Row::Def(0);
        SoundSheet::from(CheckedRows {
            rows,
            count: 2,
            numbers: [0; MOST_ROWS],
        })
    }

    // The caller holds a sound sheet from the first on: a passed check replaces it, and a refusal does not. Field by field,
    // since a whole sheet would be made beside it and copied.
    /// Holds the rows that were read from now on if they are a sound sheet; a refusal leaves what was held.
    pub fn check(&mut self, read: &ReadSheet) -> Result<(), Fault>
        ensures answer { Checking (raws_of read.now) self.old self.new result }
        ensures one { AtMostOne (raws_of read.now) }
    {
        self.checked = read.check()?;
        self.tables = NumberedRows::of(&self.checked).tables();
        Ok(())
    }

    /// The rows of the sheet.
    pub fn rows(&self) -> &[Row]
        ensures { result.now ≡ rows_of self.now }
    {
        self.checked.rows()
    }

    /// How many rows the sheet has.
    pub fn len(&self) -> usize
        ensures { result ≡ length (rows_of self.now) }
    {
        self.rows().len()
    }

    /// How many places it has.
    pub fn places(&self) -> usize
        ensures { result ≡ places (rows_of self.now) }
    {
        count_places(self.rows())
    }
}
