// Which labels are tried for two sheets.
ghost use Rattle.std.specs.Prelude.{◌≡◌, ℕ, ◌+◌, ◌≤◌, ◌⊎◌, ◌↔◌, IsTrue, List, [], ◌∷◌, ◌++◌, length, take, Contains};
ghost use Rattle.forest.specs.Forest.{Label};
ghost use Rattle.judge.specs.Labels.{Mentions};

use rows::Row;
use std::marker::Model;

/// All the labels that two sheets name, and one that neither names.
const MOST_LABELS: usize = 257;

/// A list of labels. It stands in an array, since nothing is allocated.
// A type of its own: a list of any items over an array would owe at each call that its items fit in memory.
#[derive(Drop)]
pub struct Labels {
    all: [u16; MOST_LABELS],
    count: usize,
}

impl Model for Labels {
    ghost Value = { List ℕ };

    ghost view = { λ l. take l.count l.all };

    ghost invariant = { λ l. l.count ≤ 257 };
}

impl Labels {
    pub fn none() -> Labels
        ensures { result ≡ [] }
    {
        Labels {
            all: [0; MOST_LABELS],
            count: 0,
        }
    }

    pub fn listed(&self) -> &[u16]
        ensures { result.now ≡ self.now }
    {
        &self.all[..self.count]
    }

    // Whether the label is listed.
    fn has(&self, label: u16) -> bool
        ensures { IsTrue result ↔ Contains self.now label }
    {
        self.listed().contains(&label)
    }

    // Lists the label last.
    fn push(&mut self, label: u16)
        requires { length self.old + 1 ≤ 257 }
        ensures { self.new ≡ self.old ++ label ∷ [] }
    {
        self.all[self.count] = label;
        self.count += 1;
    }

    // Lists the label, unless it is.
    fn add(&mut self, label: u16)
        requires { length self.old + 1 ≤ 257 }
        ensures names { (l : ℕ) → Contains self.new l ↔ (Contains self.old l ⊎ (label ≡ l)) }
        ensures few { length self.new ≤ length self.old + 1 }
    {
        if !self.has(label) {
            self.push(label);
        }
    }

    /// Lists the labels that the rows name.
    pub fn add_named(&mut self, rows: &[Row])
        requires { length self.old + length rows.now ≤ 257 }
        ensures names { (l : ℕ) → Contains self.new l ↔ (Contains self.old l ⊎ Mentions rows.now l) }
        ensures few { length self.new ≤ length self.old + length rows.now }
    {
        for row in rows {
            if let Row::Named(label, _) = row {
                self.add(*label);
            }
        }
    }

    /// Lists, last, a label that is not listed.
    pub fn add_other(&mut self)
        requires { length self.old + 1 ≤ 257 }
        ensures { (l : ℕ) × (Label l × (Contains self.old l → ⊥) × (self.new ≡ self.old ++ l ∷ [])) }
    {
        // One of 257 labels is free. It is a loop: with `find`, what it says where it finds none stayed open.
        for label in 1..=257 {
            if !self.has(label) {
                self.push(label);
                return;
            }
        }
        unreachable()
    }
}
