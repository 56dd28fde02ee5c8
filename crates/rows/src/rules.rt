//! The checks of a read sheet, in their order.

ghost use Rattle.forest.specs.Refusals.{number_of};
ghost use Rattle.std.specs.Prelude.{◌<◌, MatchResult};
ghost use Rattle.rows.specs.Checked.{Checked, raws_of};
ghost use Rattle.rows.specs.Checking.{AtMostOne, Due, WrongOverAll};
ghost use Rattle.rows.specs.Whole.{Whole};

use super::check::{TakenRows, contents_there, take_rows};
use super::checked::CheckedRows;
use super::read::{MOST_ROWS, ReadSheet};
use super::row::Row;
use forest::Fault;

impl<'a> TakenRows<'a> {
    /// The checks over the whole sheet, refusals 12 to 14; numbers the places.
    fn check_whole(self, numbers: &mut [u8; MOST_ROWS]) -> Result<(), Fault>
        ensures { MatchResult result
            (λ _. Whole self.entry.rows.now numbers.new)
            (λ f. WrongOverAll self.entry.rows.now (number_of f.refusal) f.place) }
    {
        self.parts_once()?;
        contents_there(self.rows)?;
        self.number_places(numbers)?;
        Ok(())
    }
}

impl ReadSheet {
    /// The rows that were read, if they are those of a sound sheet; refusals 10 to 14.
    #[tactic(auto, using(crate::proofs::Single::at_most_one))]
    pub fn check(&self) -> Result<CheckedRows, Fault>
        ensures answer { MatchResult result
            (λ checked. Checked (raws_of self.now) checked)
            (λ f. Due (raws_of self.now) (number_of f.refusal) f.place) }
        ensures one { AtMostOne (raws_of self.now) }
    {
        let count = self.count;
        let mut rows = [Row::Empty; MOST_ROWS];
        take_rows(&self.rows[..count], &mut rows)?;
        let mut numbers = [0u8; MOST_ROWS];
        let taken = TakenRows {
            rows: &rows[..count],
        };
        taken.check_whole(&mut numbers)?;
        Ok(CheckedRows {
            rows,
            count,
            numbers,
        })
    }
}
