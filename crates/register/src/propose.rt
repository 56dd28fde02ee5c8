//! Proposals.
ghost use Rattle.std.specs.Prelude.{◌≡◌, ◌<◌, ◌≤◌, length};
ghost use Rattle.sheet.specs.Held.{rows_of};
ghost use Rattle.law.specs.Calls.{Proposed, lent, newest};
ghost use Rattle.register.specs.Holding.{held, LeftIfRefused};
ghost use Rattle.register.specs.Inner.{Judging};

use crate::register::{Register, refused};
use forest::Refusal;
use judge::{Sort, Verdict, judge};
use law::Declined;
use loss::MOST;
use measure::Measure;
use sheet::sound::SoundSheet;

impl Register {
    /// Judges the newest edition against the sheet, which becomes the newest edition where no forest is lost, and tells
    /// its number.
    // The inputs of judging, as `judge` takes them.
    pub fn propose<M: Measure>(
        &mut self,
        sheet: &SoundSheet,
        measure: &M,
        list: &mut [Sort<M::Cost>],
        show: &mut [u8],
    ) -> Result<usize, Declined<M::Cost>>
        ensures told { Proposed (M.Measure.model measure.now) (held self.old) (rows_of sheet.now) (lent list.old show.old) result (lent list.new show.new) (held self.new) }
        ensures left { LeftIfRefused result self.old self.new }
    {
        // Here, and in judging once more: 20 comes before 30.
        if list.is_empty() || list.len() > MOST {
            return Err(Declined::Refused(refused(Refusal::ListSize)));
        }
        if !self.editions.takes(sheet.len()) {
            return Err(Declined::Refused(refused(Refusal::EditionsFull)));
        }
        self.judge_newest(sheet, measure, list, show)?;
        Ok(self.adopt(sheet))
    }

    /// Judges the newest edition, if there is one, against the sheet.
    fn judge_newest<M: Measure>(
        &self,
        sheet: &SoundSheet,
        measure: &M,
        list: &mut [Sort<M::Cost>],
        show: &mut [u8],
    ) -> Result<(), Declined<M::Cost>>
        requires { (0 < length list.old) × (length list.old ≤ 1024) }
        ensures { Judging (M.Measure.model measure.now) (rows_of sheet.now) (lent list.old show.old) (lent list.new show.new) (newest (held self.now).editions) result }
    {
        let Some(newest) = &self.newest else {
            return Ok(());
        };
        match judge(newest, sheet, measure, list, show)? {
            Verdict::Lost(loss) => Err(Declined::Loses(loss)),
            Verdict::AllAdmitted => Ok(()),
        }
    }
}
