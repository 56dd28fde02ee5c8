//! Entries taken off inputs: every pair of bytes as a mark, and an entry cut short at every place.
use crate::entry::{Entry, Taken, take};

/// The number of the refusal, as lines tell it: so the numbers are tested too.
fn refusal(input: &[u8]) -> Option<u8> {
    take(input).err().map(|fault| fault.refusal.number())
}

/// The lengths of a record entry's body and of what follows it.
fn lengths(input: &[u8]) -> Option<(usize, usize)> {
    match take(input) {
        Ok(
            Some(
                Taken {
                    entry: Entry::Record(body),
                    rest,
                },
            ),
        ) => Some((body.len(), rest.len())),
        _ => None,
    }
}

#[test]
fn marks(rt: HostRuntime) {
    for n in 0..=u16::MAX {
        let due = if n == 0x5453 || n == 0x5243 { 1 } else { 2 };
        assert!(rt; refusal(&n.to_be_bytes()) == Some(due));
    }
}

#[test]
fn cut_short(rt: HostRuntime) {
    let entry = b"RC\x00\x05\x03\x03two";
    for n in 1..entry.len() {
        assert!(rt; refusal(&entry[..n]) == Some(1));
    }
    assert_eq!(rt; lengths(entry), Some((5, 0)));
}

#[test]
fn followed(rt: HostRuntime) {
    assert!(rt; take(b"") == Ok(None));
    assert_eq!(rt; lengths(b"RC\x01\x00"), None);
    assert_eq!(rt; lengths(b"RC\x00\x02\x03\x00RC\x00"), Some((2, 3)));
}
