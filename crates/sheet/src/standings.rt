//! Standings, worked out from the last tree of a forest backwards.

ghost use Rattle.std.specs.Prelude.{ℕ, T, ◌↔◌, List};
ghost use Rattle.forest.specs.Forest.{Forest, nil, node, text};
ghost use Rattle.sheet.specs.Held.{rows_of};
ghost use Rattle.sheet.specs.Leaves.{HasContent, HasLabel};
ghost use Rattle.sheet.specs.Meaning.{OfSheet};
ghost use Rattle.sheet.specs.Standing.{AreLeaves, IsStanding, SetOf, Tree, a_node, a_text, before};

use super::sets::{gather, pick};
use super::sound::SoundSheet;

impl SoundSheet {
    /// The standing of the empty forest.
    pub fn of_empty(&self) -> u64
        ensures { IsStanding (rows_of self.now) result nil }
    {
        self.tables.ends
    }

    /// The leaves that admit a text.
    pub fn text_leaves(&self) -> u64
        ensures { (t : List ℕ) → AreLeaves (rows_of self.now) result (a_text t) }
    {
        self.tables.texts
    }

    /// The leaves for nodes with the label.
    pub fn labelled(&self, label: u16) -> u64
        ensures { SetOf (rows_of self.now) result (HasLabel (rows_of self.now) label) }
    {
        self.tables.anys | pick(&self.tables.labels, self.tables.named, label)
    }

    /// The leaves for nodes whose content has the standing.
    pub fn holding(&self, content: u64) -> u64
        ensures { (c : Forest) → IsStanding (rows_of self.now) content c
            → SetOf (rows_of self.now) result (HasContent (rows_of self.now) c) }
    {
        gather(&self.tables.holders, content)
    }

    /// The leaves that admit a node with the label, whose content has the standing.
    pub fn node_leaves(&self, label: u16, content: u64) -> u64
        ensures { (c : Forest) → IsStanding (rows_of self.now) content c
            → AreLeaves (rows_of self.now) result (a_node label c) }
    {
        self.labelled(label) & self.holding(content)
    }

    /// The standing of a tree that these leaves admit before a rest of this standing.
    pub fn put_before(&self, leaves: u64, rest: u64) -> u64
        ensures { (t : Tree) (f : Forest) → AreLeaves (rows_of self.now) leaves t
            → IsStanding (rows_of self.now) rest f → IsStanding (rows_of self.now) result (before t f) }
    {
        gather(&self.tables.before, leaves & rest)
    }

    /// The standing of a text before a rest of this standing.
    pub fn of_text(&self, rest: u64) -> u64
        ensures { (t : List ℕ) (f : Forest) → IsStanding (rows_of self.now) rest f
            → IsStanding (rows_of self.now) result (text t f) }
    {
        self.put_before(self.text_leaves(), rest)
    }

    /// The standing of a node with the label and a content of this standing, before a rest of this standing.
    pub fn of_node(&self, label: u16, content: u64, rest: u64) -> u64
        ensures { (c f : Forest) → IsStanding (rows_of self.now) content c
            → IsStanding (rows_of self.now) rest f → IsStanding (rows_of self.now) result (node label c f) }
    {
        self.put_before(self.node_leaves(label, content), rest)
    }

    /// Whether a forest of this standing belongs to the sheet.
    pub fn admits(&self, standing: u64) -> bool
        ensures { (f : Forest) → IsStanding (rows_of self.now) standing f
            → T result ↔ OfSheet (rows_of self.now) f }
    {
        standing & self.tables.top != 0
    }
}
