//! Checking the bytes of a record from the left.
ghost use Rattle.forest.specs.Refusals.{number_of};
ghost use Rattle.std.specs.Prelude.{◌≡◌, ℕ, ◌+◌, ◌-◌, ◌<◌, ◌≤◌, length, MatchResult, ◌≢◌, slice_index};
ghost use Rattle.forest.specs.Steps.{Refused, Stops, Stretch};

use super::fault::{Fault, Refusal};
use super::marks::{CLOSING, OPENING, TEXT};

/// The end of the tree that begins at `at`, whose nodes may nest `nesting` deep.
#[cycle(read_forest_read_tree)]
fn read_tree(body: &[u8], at: usize, nesting: usize) -> Result<usize, Fault>
    requires { (at < length body.now) × ((nesting ≤ 64) × ((slice_index body.now at ≢ 2))) }
    ensures { MatchResult result (λ e. (at < e) × Stretch nesting body.now at e)
        (λ x. Refused (64 - nesting) body.now at (number_of x.refusal) x.place) }
{
    let here = |refusal| Fault { refusal, place: at };
    match &body[at..] {
        [OPENING, 0, 0, ..] => Err(here(Refusal::LabelZero)),
        [OPENING, _, _, ..] if nesting == 0 => Err(here(Refusal::NestedTooDeep)),
        [OPENING, _, _, ..] => {
            let end = read_forest(body, at + 3, nesting - 1)?;
            if end == body.len() {
                return Err(Fault {
                    refusal: Refusal::Unbalanced,
                    place: end,
                });
            }
            Ok(end + 1)
        }
        [TEXT, count, rest @ ..] if usize::from(*count) <= rest.len() => {
            Ok(at + 2 + usize::from(*count))
        }
        [OPENING | TEXT, ..] => Err(here(Refusal::TreeCutShort)),
        _ => Err(here(Refusal::NoTree)),
    }
}

/// The end of the forest that begins at `at`: at a closing or the end of the body.
#[cycle(read_forest_read_tree)]
pub fn read_forest(body: &[u8], at: usize, nesting: usize) -> Result<usize, Fault>
    requires { (at ≤ length body.now) × (nesting ≤ 64) }
    ensures { MatchResult result (λ e. Stretch nesting body.now at e × Stops body.now e)
        (λ x. Refused (64 - nesting) body.now at (number_of x.refusal) x.place) }
{
    // By offset: a tree tells where it ends, and a refusal where it stands.
    let mut at = at;
    while at < body.len() && body[at] != CLOSING {
        at = read_tree(body, at, nesting)?;
    }
    Ok(at)
}
