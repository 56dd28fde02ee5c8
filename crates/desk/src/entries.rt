//! One entry of a stream: a sheet is checked and proposed, a record is filed, and the line of what became of it is made.
ghost use Rattle.forest.specs.Refusals.{number_of};
ghost use Rattle.std.specs.Prelude.{◌≡◌, ℕ, List, MatchResult};
ghost use Rattle.desk.specs.Handling.{Handled, Outcome, SameReferences, ending, holds, lends, of_filing, of_proposal};
ghost use Rattle.desk.specs.Seasons.{StaysASeason};
ghost use Rattle.desk.specs.Steps.{IsSheet, NotASheet};
ghost use Rattle.sheet.specs.Held.{rows_of};
ghost use Rattle.survey.specs.declared.types.Sort.{Sort};
ghost use Rattle.stream.specs.Line.{fields};
ghost use Rattle.stream.specs.Stream.{a_record, a_sheet, body_of, kind_of};

use crate::progress::Progress;
use forest::Fault;
use judge::Sort;
use law::Declined;
use measure::Length;
use register::Register;
use rows::ReadSheet;
use sheet::sound::SoundSheet;
use stream::{Entry, Line, LineBuffer, Taken, take};

/// A register, what it is lent to judge with, and the buffer of the line that tells what became of an entry.
#[derive(Drop)]
pub struct Desk<'a> {
    pub register: &'a mut Register,
    pub list: &'a mut [Sort<u32>],
    pub show: &'a mut [u8],
    pub line: &'a mut LineBuffer,
}

/// Reads and checks the body of a sheet, which `held` is from then on.
// No call of the sheets' crate: who checks a sheet holds a sound one before, and goes on in its own way if it is refused.
// Into `held`, since a sheet that came back in a `Result` would be copied at each `?`.
fn check_sheet(body: &[u8], held: &mut SoundSheet) -> Result<(), Fault>
    ensures { MatchResult result (λ _. IsSheet body.now (rows_of held.new)) (λ f. NotASheet body.now (number_of f.refusal) f.place) }
{
    let read = ReadSheet::read(body)?;
    held.check(&read)
}

/// What a line tells of a proposal.
// No `From`, as for a filing: both types are of other crates.
fn tell_proposal(answer: Result<usize, Declined<u32>>) -> Line
    ensures { (show : List ℕ) → fields result show ≡ of_proposal answer show }
{
    match answer {
        Ok(edition) => Line::Edition(edition),
        Err(Declined::Refused(fault)) => Line::Refused(fault),
        Err(Declined::Loses(loss)) => Line::Lost(loss),
    }
}

/// What a line tells of a filing.
// No `From`, as for a proposal.
fn tell_filing(answer: Result<usize, Fault>) -> Line
    ensures { (show : List ℕ) → fields result show ≡ of_filing answer }
{
    match answer {
        Ok(record) => Line::Record(record),
        Err(fault) => Line::Refused(fault),
    }
}

impl Desk<'_> {
    /// Checks the body of a sheet, and proposes the sheet.
    fn propose(&mut self, body: &[u8]) -> Result<usize, Declined<u32>>
        ensures outcome { Outcome (holds self.old) (lends self.old) a_sheet body.now (of_proposal result (lends self.new).show) (holds self.new) (lends self.new) }
        ensures same { SameReferences self.old self.new }
    {
        let mut sheet = SoundSheet::empty();
        check_sheet(body, &mut sheet)?;
        self.register.propose(&sheet, &Length, self.list, self.show)
    }

    /// Files the body of a record.
    fn file(&mut self, body: &[u8]) -> Result<usize, Fault>
        ensures outcome { Outcome (holds self.old) (lends self.old) a_record body.now (of_filing result) (holds self.new) (lends self.new) }
        ensures same { SameReferences self.old self.new }
    {
        self.register.file(body)
    }

    /// Proposes a sheet or files a record, and tells what became of it.
    fn enter(&mut self, entry: Entry<'_>) -> Line
        ensures outcome { Outcome (holds self.old) (lends self.old) (kind_of entry.entry) (body_of entry.entry)
            (fields result (lends self.new).show) (holds self.new) (lends self.new) }
        ensures same { SameReferences self.old self.new }
    {
        match entry {
            Entry::Sheet(body) => tell_proposal(self.propose(body)),
            Entry::Record(body) => tell_filing(self.file(body)),
        }
    }

    /// Handles the entry at the front of the input: its line, what the register holds then, and how the reading goes on.
    pub fn handle<'a>(&mut self, number: usize, input: &'a [u8]) -> Progress<'a>
        ensures handled { Handled (holds self.old) (lends self.old) self.old.line.now number input.now (ending result) (holds self.new) (lends self.new) self.new.line.now }
        ensures season { StaysASeason (Sort ℕ) (holds self.old) (holds self.new) }
        ensures same { SameReferences self.old self.new }
    {
        let (line, progress) = match take(input) {
            Ok(Some(Taken { entry, rest })) => (self.enter(entry), Progress::More(rest)),
            Ok(None) => return Progress::Done,
            Err(fault) => (Line::Refused(fault), Progress::Stopped),
        };
        let show = &mut *self.show;
        self.line.make(number, &line, show);
        progress
    }
}
