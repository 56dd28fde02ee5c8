//! Whether a record belongs to a sheet.

ghost use Rattle.std.specs.Prelude.{◌≡◌, ◌≤◌};
ghost use Rattle.sheet.specs.Belonging.{Belonging, GoneThrough};
ghost use Rattle.sheet.specs.Held.{rows_of};

use super::sound::SoundSheet;
use forest::{Event, Events, Fault, Record};

/// The standing of the forest that the events come to next, up to its end: the first tree before the standing of the rest.
#[tactic(auto, using(crate::proofs::Going::moved))]
fn standing(sheet: &SoundSheet, events: &mut Events) -> u64
    ensures same { events.new.body.now ≡ events.old.body.now }
    ensures onward { events.old.at ≤ events.new.at }
    ensures gone { GoneThrough (rows_of sheet.now) events.old.body.now events.old.at events.new.at result }
{
    let Some(event) = events.next() else {
        return sheet.of_empty();
    };
    match event {
        Event::Text { .. } => {
            let rest = standing(sheet, events);
            sheet.of_text(rest)
        }
        Event::Opening { label } => {
            let content = standing(sheet, events);
            let rest = standing(sheet, events);
            sheet.of_node(label, content, rest)
        }
        Event::Closing => sheet.of_empty(),
    }
}

impl SoundSheet {
    /// Whether the forest that the body stands for belongs to the sheet; refusals 3 to 8 of the body.
    pub fn belongs(&self, body: &[u8]) -> Result<bool, Fault>
        ensures { Belonging (rows_of self.now) body.now result }
    {
        let record = Record::read(body)?;
        let mut events = record.events();
        Ok(self.admits(standing(self, &mut events)))
    }
}
