//! Records: bodies that were checked.
ghost use Rattle.forest.specs.Events.{Reading, ToCome};
ghost use Rattle.forest.specs.Forest.{Forest};
ghost use Rattle.forest.specs.Reading.{JustOne, StandsFor, walk};
ghost use Rattle.std.specs.Prelude.{◌≡◌, [], IfOk};

use super::events::Events;
use super::fault::{Fault, Refusal};
use super::read::read_forest;

const MOST_BYTES: usize = 4096;

const MOST_NESTING: usize = 64;

/// The body of a record. Every value of this type was checked.
#[derive(Clone, Copy, PartialEq, Eq, Debug)]
pub struct Record<'a> {
    body: &'a [u8],
    ghost checked: { ∥ ((f : Forest) × StandsFor body.now f) ∥₁ },
}

/// Looks at the whole body of a record.
fn check(body: &[u8]) -> Result<(), Fault>
    ensures { Reading body.now result }
{
    if body.len() > MOST_BYTES {
        return Err(Fault {
            refusal: Refusal::RecordTooLong,
            place: 0,
        });
    }
    let end = read_forest(body, 0, MOST_NESTING)?;
    if end < body.len() {
        return Err(Fault {
            refusal: Refusal::Unbalanced,
            place: end,
        });
    }
    Ok(())
}

impl<'a> Record<'a> {
    /// The record of the empty forest.
    pub fn empty() -> Record<'a>
        ensures { result.body.now ≡ [] }
    {
        Record { body: &[] }
    }

    /// The record that `body` is the body of.
    #[tactic(auto, using(crate::proofs::Parses::just_one_of))]
    pub fn read(body: &'a [u8]) -> Result<Record<'a>, Fault>
        ensures answer { Reading body.now result }
        ensures held { IfOk result (λ r. r.body.now ≡ body.now) }
        ensures just_one { JustOne body.now }
    {
        check(body)?;
        Ok(Record { body })
    }

    /// Everything that it is made of, to be handed out from the left.
    pub fn events(&self) -> Events<'a>
        ensures same { (result.body.now ≡ self.now.body.now) × (result.at ≡ 0) }
        ensures all { (f : Forest) → StandsFor self.now.body.now f → ToCome result.body.now result.at (walk f) }
    {
        Events {
            body: self.body,
            at: 0,
        }
    }
}
