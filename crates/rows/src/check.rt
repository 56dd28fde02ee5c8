//! Checking rows: refusals 10 to 14, in their order.

ghost use Rattle.forest.specs.Refusals.{number_of};
ghost use Rattle.std.specs.Prelude.{◌≡◌, ℕ, ◌+◌, ◌<◌, ◌≤◌, length, take, MatchResult, slice_index};
ghost use Rattle.rows.specs.Checking.{ContentThere, Due, GoodRows, OnceAPart, PartsFit};
ghost use Rattle.rows.specs.Parts.{Lowest, Numbers, PartsBelow, hit, hits, uses};
ghost use Rattle.rows.specs.Sheet.{Place, Row, definitions, places};
ghost use Rattle.std.proofs.Math.Option.{some};

use super::raw::RawRow;
use super::read::MOST_ROWS;
use super::row::Row;
use super::take::take_row;
use forest::{Fault, Refusal};

/// Rows that were taken in: at most 128, the parts of each below it and no definitions.
#[derive(Clone, Copy)]
pub struct TakenRows<'a> {
    pub(super) rows: &'a [Row],
    ghost fitting: { (e : ℕ) → PartsFit rows.now e },
    ghost short: { length rows.now ≤ 128 },
}

/// Takes the raw rows in one by one, into the front of `rows`; refusals 10 and 11.
pub fn take_rows(raws: &[RawRow], rows: &mut [Row]) -> Result<(), Fault>
    requires { length raws.now ≤ length rows.old }
    ensures { MatchResult result
        (λ _. GoodRows raws.now (take (length raws.now) rows.new))
        (λ f. Due raws.now (number_of f.refusal) f.place) }
{
    // By index: a row is taken over the rows below it, which a walk by `iter_mut` would hold.
    for (i, raw) in raws.iter().enumerate() {
        let row = take_row(*raw, &rows[..i])?;
        rows[i] = row;
    }
    Ok(())
}

/// Counts one use of `part` more.
fn mark(used: &mut [u16; MOST_ROWS], part: u8)
    requires { (part < 128) × (slice_index used.old part < 1000) }
    ensures { (a : ℕ) → slice_index used.new a ≡ slice_index used.old a + hit a part }
{
    used[usize::from(part)] += 1;
}

/// Adds the parts of one row to the tally.
fn tally_row(row: Row, used: &mut [u16; MOST_ROWS])
    requires below { PartsBelow row 128 }
    requires few { (a : ℕ) → slice_index used.old a ≤ 256 }
    ensures { (a : ℕ) → slice_index used.new a ≡ slice_index used.old a + hits a (some row) }
{
    match row {
        Row::Seq(a, b) | Row::Alt(a, b) => {
            mark(used, a);
            mark(used, b);
        }
        Row::Many(a) | Row::Def(a) => mark(used, a),
        Row::Empty | Row::Text | Row::Named(_, _) | Row::Any(_) => {}
    }
}

/// How many of the rows are definitions.
// One line for each of the two counts: one function with the test as a parameter would be as long.
fn count_definitions(rows: &[Row]) -> usize
    ensures { result ≡ definitions rows.now }
{
    rows.iter().filter(|row| row.is_definition()).count()
}

/// Refusal 13 at the lowest row that names a missing definition.
pub fn contents_there(rows: &[Row]) -> Result<(), Fault>
    ensures { MatchResult result
        (λ _. (p : ℕ) → p < length rows.now → ContentThere rows.now p)
        (λ f. ((number_of f.refusal) ≡ 13) × Lowest (length rows.now) (ContentThere rows.now) f.place) }
{
    let count = count_definitions(rows);
    let missing = rows.iter().position(
        |row| matches!(row, Row::Named(_, d) | Row::Any(d) if usize::from(*d) >= count),
    );
    match missing {
        Some(place) => Err(Fault {
            refusal: Refusal::NoDefinition,
            place,
        }),
        None => Ok(()),
    }
}

/// How many of the rows are places.
pub fn count_places(rows: &[Row]) -> usize
    ensures { result ≡ places rows.now }
{
    rows.iter().filter(|row| row.is_place()).count()
}

impl<'a> TakenRows<'a> {
    /// How often each row is a part.
    fn tally(self, used: &mut [u16; MOST_ROWS])
        requires { (a : ℕ) → slice_index used.old a ≡ 0 }
        ensures { (a : ℕ) → slice_index used.new a ≡ uses self.entry.rows.now (length self.entry.rows.now) a }
    {
        for row in self.rows {
            tally_row(*row, used);
        }
    }

    /// Refusal 12 at the lowest row that is neither a definition nor exactly once a part.
    pub fn parts_once(self) -> Result<(), Fault>
        ensures { MatchResult result
            (λ _. (a : ℕ) → a < length self.entry.rows.now → OnceAPart self.entry.rows.now a)
            (λ f. ((number_of f.refusal) ≡ 12) × Lowest (length self.entry.rows.now) (OnceAPart self.entry.rows.now) f.place) }
    {
        let mut used = [0u16; MOST_ROWS];
        self.tally(&mut used);
        // A loop, since `rows.iter().zip(&used).position(..)` was proved too, but by half as many lines again.
        for (a, row) in self.rows.iter().enumerate() {
            let once = used[a] == 1;
            if !once && !row.is_definition() {
                return Err(Fault {
                    refusal: Refusal::NotOnceAPart,
                    place: a,
                });
            }
        }
        Ok(())
    }

    /// Numbers the places in row order: each row gets the count of places below it. Refusal 14 at the 65th place.
    pub fn number_places(self, numbers: &mut [u8; MOST_ROWS]) -> Result<(), Fault>
        ensures { MatchResult result
            (λ _. (places self.entry.rows.now ≤ 64) × Numbers self.entry.rows.now numbers.new)
            (λ f. ((number_of f.refusal) ≡ 14) × Place self.entry.rows.now f.place × (places (take f.place self.entry.rows.now) ≡ 64)) }
    {
        // The rows that are places, as a set that is counted by its ones, as every set of places is.
        let mut set: u128 = 0;
        // By index: the row's number is its bit in the set, where its own number is written, and what is told.
        for (e, row) in self.rows.iter().enumerate() {
            let count = set.count_ones();
            // At most 64, so the cast keeps it.
            numbers[e] = count as u8;
            if row.is_place() {
                if count == 64 {
                    return Err(Fault {
                        refusal: Refusal::TooManyPlaces,
                        place: e,
                    });
                }
                set |= 1 << e;
            }
        }
        Ok(())
    }
}
