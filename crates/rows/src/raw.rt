//! The four bytes of a row.

ghost use Rattle.std.specs.Prelude.{◌≡◌, [], ◌∷◌};
ghost use Rattle.rows.specs.Raw.{laid};

/// A row as it is written: its kind, and three bytes that mean what the kind says.
#[derive(Clone, Copy)]
pub struct RawRow {
    // A byte and no enum of kinds, since any byte may stand here before the check.
    pub kind: u8,
    pub first: u8,
    pub second: u8,
    pub third: u8,
}

impl From<[u8; 4]> for RawRow {
    ghost from_gives = { λ bytes raw. laid (raw ∷ []) ≡ bytes };

    fn from(bytes: [u8; 4]) -> RawRow {
        let [kind, first, second, third] = bytes;
        RawRow {
            kind,
            first,
            second,
            third,
        }
    }
}
