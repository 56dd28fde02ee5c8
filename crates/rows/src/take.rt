//! What a raw row says, over the rows below it.

ghost use Rattle.rows.specs.Parts.{NotTaken, Sits, Taken};
ghost use Rattle.std.specs.Prelude.{T, ◌↔◌, MatchResult};

use super::raw::RawRow;
use super::row::Row;
use forest::{Fault, Refusal};

/// Whether `part` is the number of a row below that is no definition.
fn is_part_below(below: &[Row], part: u8) -> bool
    ensures { T result ↔ Sits below.now part }
{
    below
        .get(usize::from(part))
        .is_some_and(|row| !row.is_definition())
}

/// The row that four bytes say; refusal 10 where they say none, 11 where a part is not lower or is a definition.
#[tactic(auto, using(crate::proofs::Taking::says_none, crate::proofs::Taking::as_empty, crate::proofs::Taking::as_text, crate::proofs::Taking::as_any, crate::proofs::Taking::as_seq, crate::proofs::Taking::as_alt, crate::proofs::Taking::as_many, crate::proofs::Taking::as_def))]
pub fn take_row(raw: RawRow, below: &[Row]) -> Result<Row, Fault>
    ensures { MatchResult result (Taken raw below.now) (NotTaken raw below.now) }
{
    let RawRow {
        kind,
        first,
        second,
        third,
    } = raw;
    let a = is_part_below(below, first);
    let b = is_part_below(below, second);
    match kind {
        0 if first == 0 && second == 0 && third == 0 => Ok(Row::Empty),
        1 if first == 0 && second == 0 && third == 0 => Ok(Row::Text),
        2 if first != 0 || second != 0 => {
            Ok(Row::Named(u16::from_be_bytes([first, second]), third))
        }
        3 if first == 0 && second == 0 => Ok(Row::Any(third)),
        4 if third == 0 && a && b => Ok(Row::Seq(first, second)),
        5 if third == 0 && a && b => Ok(Row::Alt(first, second)),
        6 if second == 0 && third == 0 && a => Ok(Row::Many(first)),
        7 if second == 0 && third == 0 && a => Ok(Row::Def(first)),
        4 | 5 if third == 0 => Err(Fault {
            refusal: Refusal::PartNotBelow,
            place: below.len(),
        }),
        6 | 7 if second == 0 && third == 0 => Err(Fault {
            refusal: Refusal::PartNotBelow,
            place: below.len(),
        }),
        _ => Err(Fault {
            refusal: Refusal::NoRow,
            place: below.len(),
        }),
    }
}
