//! Writing out the forest that an element of a survey's list spells.

#![tactic(auto)]

mod parts;

ghost use Rattle.std.specs.Prelude.{◌≡◌, ℕ, ◌+◌, ◌/◌, ◌%◌, ◌<◌, ◌≤◌, List, [], ◌∷◌, ◌++◌, length, drop, slice_index_or};
ghost use Rattle.forest.specs.Forest.{bytes_of};
ghost use Rattle.survey.specs.declared.types.Sort.{Sort as Entry};
ghost use Rattle.survey.specs.Survey.{setting, entry, Surveyed};
ghost use Rattle.writer.specs.Tables.{Lower, forest as spelled};
ghost use Rattle.writer.specs.Shows.{Copied, Readable, Written, AllShown};

use forest::{CLOSING, OPENING, TEXT};
use measure::Measure;
pub use parts::Part;
use survey::{First, Sort, Sorting};

/// How many elements of a list, from the first on, have forests that can be written out.
pub const ROOM: usize = 1024;

// How many bytes of a show buffer are used.
const USED: usize = 65535;

// What a node with this label begins with.
fn opening(label: u16) -> [u8; 3]
    ensures { result ≡ 1 ∷ label / 256 ∷ label % 256 ∷ [] }
{
    let [high, low] = label.to_be_bytes();
    [OPENING, high, low]
}

// Writes the forest at `index` to the front of `out`, and says how many bytes it and the `before` bytes before it take.
// Told so, the rest is written by the function's last call, which is a loop when it runs; a sum after that call took a
// half more time.
fn write(table: &[Part], index: usize, out: &mut [u8], before: usize) -> usize
    requires within { index < length table.now }
    requires lower { Lower table.now index }
    requires room { length (bytes_of (spelled table.now index)) ≤ length out.old }
    requires few { before + length (bytes_of (spelled table.now index)) ≤ 65535 }
    ensures size { result ≡ before + length (bytes_of (spelled table.now index)) }
    ensures front { out.new ≡ bytes_of (spelled table.now index) ++ drop (length (bytes_of (spelled table.now index))) out.old }
{
    let part = table[index];
    match part.first {
        First::Nothing => before,
        First::Text => {
            out[..2].copy_from_slice(&[TEXT, 0]);
            write(table, part.rest, &mut out[2..], before + 2)
        }
        First::Node(label) => {
            out[..3].copy_from_slice(&opening(label));
            let end = write(table, part.content, &mut out[3..], 3);
            out[end] = CLOSING;
            write(table, part.rest, &mut out[end + 1..], before + end + 1)
        }
    }
}

// Copies first trees, contents and rests to a plain table.
fn fill<C: Copy>(sorts: &[Sort<C>], table: &mut [Part])
    requires { length sorts.now ≤ length table.old }
    ensures { (d : Sort C) → Copied (λ k. slice_index_or sorts.now k d) table.new (length sorts.now) }
{
    // By index, as a proof knows no element that is written through `iter_mut`.
    for (k, sort) in sorts.iter().enumerate() {
        table[k] = Part::from(sort);
    }
}

/// Writes the forest that the element at `index` of a survey's list spells to the front of `out`, if it fits the
/// first 65,535 bytes of it, and says whether it does. The other bytes stay.
pub fn show<C: Copy>(list: &[Sort<C>], index: usize, out: &mut [u8]) -> bool
    requires bounds { (index < length list.now) × (index < 1024) }
    requires readable { Readable list.now index }
    ensures { Written list.now index out.old out.new result }
{
    // By `as`: there is no `From` between the two.
    let size = list[index].length as usize;
    if size > out.len().min(USED) {
        return false;
    }
    let mut table = [Part {
        first: First::Nothing,
        content: 0,
        rest: 0,
    }; ROOM];
    fill(&list[..=index], &mut table);
    write(&table, index, out, 0);
    true
}

/// Promises that every element of a survey's list can be shown, and that what is written of it is a forest of its
/// sort, cost and length.
pub fn survey_is_shown<S: Sorting, M: Measure>(sorting: &S, measure: &M)
    ensures { (list : List (Entry M.Cost)) (n : ℕ) → Surveyed (setting (M.Measure.model measure.now) (S.Sorting.model sorting.now)) (entry (setting (M.Measure.model measure.now) (S.Sorting.model sorting.now)) list) n (length list) → AllShown (setting (M.Measure.model measure.now) (S.Sorting.model sorting.now)) list n }
{}
