//! Entries: a two-byte mark, two bytes of length, high first, and a body.
ghost use Rattle.forest.specs.Refusals.{number_of};
ghost use Rattle.std.specs.Prelude.{◌≡◌, ◌+◌, ◌*◌, ◌<◌, ◌++◌, length, MatchResult};
ghost use Rattle.stream.specs.Stream.{Front, JustOneFront, answer};

use forest::{Fault, Refusal};

/// An entry of a stream, with its body.
#[derive(Clone, Copy, PartialEq, Eq, Debug)]
pub enum Entry<'a> {
    Sheet(&'a [u8]),
    Record(&'a [u8]),
}

/// An entry off the front of an input, and what the input goes on with.
#[derive(Clone, Copy, PartialEq, Eq, Debug)]
pub struct Taken<'a> {
    pub entry: Entry<'a>,
    pub rest: &'a [u8],
}

/// The input ends inside an entry.
const CUT_SHORT: Fault = Fault {
    refusal: Refusal::EntryCutShort,
    place: 0,
};
/// Two bytes that are no mark.
const NO_MARK: Fault = Fault {
    refusal: Refusal::NoMark,
    place: 0,
};

/// Splits what follows the length `hi`, `lo` into a body of that length and the rest.
fn split_body(hi: u8, lo: u8, after: &[u8]) -> Result<(&[u8], &[u8]), Fault>
    ensures { MatchResult result
        (λ p. (after.now ≡ p.0.now ++ p.1.now) × (length p.0.now ≡ hi * 256 + lo))
        (λ f. ((number_of f.refusal) ≡ 1) × (f.place ≡ 0) × (length after.now < hi * 256 + lo)) }
{
    let length = usize::from(u16::from_be_bytes([hi, lo]));
    after.split_at_checked(length).ok_or(CUT_SHORT)
}

/// Takes the entry off the front of the input; none at the input's end.
#[tactic(auto, using(crate::proofs::Fronts::fronts))]
pub fn take(input: &[u8]) -> Result<Option<Taken<'_>>, Fault>
    ensures tells { Front input.now (answer result) }
    ensures law { JustOneFront }
{
    match input {
        [] => Ok(None),
        [b'T', b'S', hi, lo, after @ ..] => {
            let (body, rest) = split_body(*hi, *lo, after)?;
            let entry = Entry::Sheet(body);
            Ok(Some(Taken { entry, rest }))
        }
        [b'R', b'C', hi, lo, after @ ..] => {
            let (body, rest) = split_body(*hi, *lo, after)?;
            let entry = Entry::Record(body);
            Ok(Some(Taken { entry, rest }))
        }
        [_] | [b'T', b'S', ..] | [b'R', b'C', ..] => Err(CUT_SHORT),
        _ => Err(NO_MARK),
    }
}
