//! Read sheets: the rows of a sheet body as they stand, not checked.

ghost use Rattle.forest.specs.Refusals.{number_of};
ghost use Rattle.std.specs.Prelude.{◌≡◌, ◌+◌, ◌*◌, ◌<◌, ◌≤◌, length, take, MatchResult};
ghost use Rattle.rows.specs.Raw.{Body, laid};

use super::raw::RawRow;
use forest::{Fault, Refusal};

/// The most rows that a sheet has.
pub const MOST_ROWS: usize = 128;

/// The most bytes that a body has: four for each row.
const MOST_BYTES: usize = 512;

/// 1 to 128 raw rows, as read from a body: an array with its count, since no call allocates.
#[derive(Clone, Copy)]
pub struct ReadSheet {
    pub(super) rows: [RawRow; MOST_ROWS],
    pub(super) count: usize,
    ghost filled: { 0 < count },
    ghost short: { count ≤ 128 },
}

impl ReadSheet {
    /// The rows of a body; refusal 9 where it is empty, above 512 bytes or no multiple of 4.
    pub fn read(body: &[u8]) -> Result<ReadSheet, Fault>
        ensures { MatchResult result
            (λ sheet. Body body.now × (laid (take sheet.count sheet.rows) ≡ body.now))
            (λ f. ((number_of f.refusal) ≡ 9) × (f.place ≡ 0) × (Body body.now → ⊥)) }
    {
        if body.is_empty() || body.len() > MOST_BYTES || body.len() % 4 != 0 {
            return Err(Fault {
                refusal: Refusal::SheetSize,
                place: 0,
            });
        }
        let mut rows = [RawRow {
            kind: 0,
            first: 0,
            second: 0,
            third: 0,
        }; MOST_ROWS];
        let count = fill(body, &mut rows);
        Ok(ReadSheet { rows, count })
    }

    /// How many rows there are.
    pub fn len(&self) -> usize
        ensures { result ≡ self.now.count }
    {
        self.count
    }
}

/// Lays the body's rows into the front of `rows`, and tells how many there are.
fn fill(body: &[u8], rows: &mut [RawRow]) -> usize
    requires { (Body body.now) × (length rows.old ≡ 128) }
    ensures laid { laid (take result rows.new) ≡ body.now }
    ensures many { 4 * result ≡ length body.now }
{
    let (raws, _) = body.as_chunks::<4>();
    // By index, since a proof knows no element that was written through `iter_mut`.
    for (i, raw) in raws.iter().enumerate() {
        rows[i] = RawRow::from(*raw);
    }
    raws.len()
}
