// Hints where something stands.
ghost use Rattle.std.specs.Prelude.{◌<◌, true, IfSome};

// How many slots are tried for a key.
const PROBES: usize = 16;

// A key for two sets of places.
pub fn key_of(old: u64, new: u64) -> u64 {
    old.wrapping_mul(0x9E37_79B9_7F4A_7C15)
        ^ new.wrapping_mul(0xC2B2_AE3D_27D4_EB4F).rotate_left(29)
}

// Places noted under keys. Nothing rests on them: what they say is only ever tried, and what they do not know is
// looked for. Slots are gone through by loops over the steps: chains of `map` and `find` took a tenth more instructions,
// and one function for what an empty slot and a noted place have in common a twentieth more.
#[derive(Clone, Copy)]
pub struct Hints<const N: usize> {
    // Each place and 1, or 0 where none is noted: an Option would take twice the memory. Nothing may be allocated, so
    // there is a fixed number of them.
    slots: [u16; N],
    ghost some: { 0 < N },
}

impl<const N: usize> Hints<N> {
    pub fn new() -> Hints<N>
        requires { 0 < N }
    {
        Hints { slots: [0; N] }
    }

    // The slot that is tried for a key at a step.
    fn slot(&self, key: u64, step: usize) -> usize {
        // By `as`: there is no `From` between the two.
        ((key >> 32) as usize).wrapping_add(step) % N
    }

    // The place in a slot.
    fn place(&self, slot: usize) -> Option<usize> {
        usize::from(*self.slots.get(slot)?).checked_sub(1)
    }

    // The slot that has a place under a key.
    fn noted(&self, key: u64, place: usize) -> Option<usize> {
        for step in 0..PROBES {
            let slot = self.slot(key, step);
            if self.place(slot) == Some(place) {
                return Some(slot);
            }
        }
        None
    }

    // Writes a place down in a slot. One past what a slot holds is not noted.
    fn write(&mut self, slot: usize, place: usize) {
        if slot < N && place < 65535 {
            self.slots[slot] = (place + 1) as u16;
        }
    }

    // Writes a place down under a key, over that in the key's first slot where none of its slots is empty.
    pub fn note(&mut self, key: u64, place: usize) {
        for step in 0..PROBES {
            let slot = self.slot(key, step);
            if self.place(slot).is_none() {
                self.write(slot, place);
                return;
            }
        }
        self.write(self.slot(key, 0), place);
    }

    // What stands at two places under keys changes places. A struct of a key and a place would be made for this alone.
    pub fn exchange(&mut self, key: u64, place: usize, other_key: u64, other: usize) {
        // Both are looked for before either is written, as keys can have slots in common.
        let slot = self.noted(key, place);
        let other_slot = self.noted(other_key, other);
        if let Some(slot) = slot {
            self.write(slot, other);
        }
        if let Some(slot) = other_slot {
            self.write(slot, place);
        }
    }

    // A place that is noted under a key and passes the test.
    pub fn find<F: Fn(usize) -> bool>(&self, key: u64, passes: F) -> Option<usize>
        requires { F.IsAlwaysCallable passes }
        ensures { IfSome result (λ place. F.post passes place true) }
    {
        for step in 0..PROBES {
            let place = self.place(self.slot(key, step))?;
            if passes(place) {
                return Some(place);
            }
        }
        None
    }
}
