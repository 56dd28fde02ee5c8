//! Sets of places as numbers, their members walked by trailing zeros.

ghost use Rattle.std.specs.Prelude.{◌≡◌, ℕ, ◌^◌, ◌<◌, ◌⊎◌, ◌↔◌, slice_index};
ghost use Rattle.std.specs.Iterator.{at_most};
ghost use Rattle.rows.specs.Parts.{KeptBelow};
ghost use Rattle.sheet.specs.Standing.{Bit, Walked};

/// The members of a set that are still to come, the lowest first.
#[derive(Drop)]
struct Members(u64);

impl Iterator for Members {
    type Item = usize;

    ghost next_gives = { λ set place rest. Walked set.0 place rest.0 };

    ghost remaining = { λ set. at_most set.0 };

    fn next(&mut self) -> Option<usize> {
        if self.0 == 0 {
            return None;
        }
        // By `as`: there is no `From` between the two.
        let place = self.0.trailing_zeros() as usize;
        self.0 &= self.0 - 1;
        Some(place)
    }
}

/// The set of one place.
pub fn bit(number: u8) -> u64
    requires { number < 64 }
    ensures { result ≡ 2 ^ number }
{
    1 << number
}

/// The union of what the table has for each member of `set`.
pub fn gather(table: &[u64; 64], set: u64) -> u64
    ensures { (i : ℕ) → Bit i result ↔ ((j : ℕ) × Bit j set × Bit i (slice_index table.now j)) }
{
    let mut all = 0;
    for place in Members(set) {
        all |= table[place];
    }
    all
}

/// Adds the members of `from` to what the table has for each member of `to`.
pub fn link(table: &mut [u64; 64], from: u64, to: u64)
    ensures bound { KeptBelow from table.old table.new }
    ensures bits { (i j : ℕ) → Bit i (slice_index table.new j) ↔ (Bit i (slice_index table.old j) ⊎ (Bit j to × Bit i from)) }
{
    for place in Members(to) {
        table[place] |= from;
    }
}

/// The members of `set` that the table has `label` for.
pub fn pick(table: &[u16; 64], set: u64, label: u16) -> u64
    ensures { (i : ℕ) → Bit i result ↔ (Bit i set × (slice_index table.now i ≡ label)) }
{
    let mut all = 0;
    for place in Members(set) {
        if table[place] == label {
            all |= 1 << place;
        }
    }
    all
}
