//! What a register holds, read and written in its memory.
ghost use Rattle.std.specs.Prelude.{◌≡◌, ◌+◌, length};
ghost use Rattle.sheet.specs.Held.{rows_of};
ghost use Rattle.law.specs.Calls.{newest, numbered, with_edition, after_filing};
ghost use Rattle.register.specs.Holding.{held, LeftIfRefused};
ghost use Rattle.register.specs.Inner.{Admitting, Finding, Keeping, TakesEdition};

use crate::register::{Register, refused};
use forest::{Fault, Refusal};
use sheet::sound::SoundSheet;

impl Register {
    /// Refuses a body that stands for no record of the newest edition, and any body where there is no edition.
    pub(crate) fn admit(&self, body: &[u8]) -> Result<(), Fault>
        ensures { Admitting (newest (held self.now).editions) body.now result }
    {
        let newest = self.newest.as_ref().ok_or(refused(Refusal::NoEdition))?;
        if !newest.belongs(body)? {
            return Err(refused(Refusal::NotOfNewest));
        }
        Ok(())
    }

    /// One more record under the newest edition, where there is room for it. Tells its number.
    pub(crate) fn keep(&mut self, body: &[u8]) -> Result<usize, Fault>
        ensures told { Keeping (held self.old) body.now result }
        ensures leaves { held self.new ≡ after_filing (held self.old) body.now result }
        ensures left { LeftIfRefused result self.old self.new }
    {
        // No `or` or `map_err` with `?`: what is told and held after them did not prove.
        let Ok(index) = self.records.append(body) else {
            return Err(refused(Refusal::RecordsFull));
        };
        self.under[index] = self.editions.count();
        Ok(index + 1)
    }

    /// One more edition, the newest. Tells its number.
    pub(crate) fn adopt(&mut self, sheet: &SoundSheet) -> usize
        requires { TakesEdition (held self.old) (length (rows_of sheet.now)) }
        ensures number { result ≡ length (held self.old).editions + 1 }
        ensures held { held self.new ≡ with_edition (held self.old) (rows_of sheet.now) }
    {
        let index = self.editions.push(sheet.rows());
        self.newest = Some(*sheet);
        index + 1
    }

    /// The record of a number and its edition, where there is one.
    pub(crate) fn find(&self, number: usize) -> Option<(&[u8], usize)>
        ensures { Finding (numbered (held self.now).kept number) result }
    {
        let index = number.checked_sub(1)?;
        let body = self.records.get(index)?;
        Some((body, self.under[index]))
    }
}
