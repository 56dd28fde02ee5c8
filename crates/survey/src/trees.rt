// The trees that are kept.
ghost use Rattle.std.specs.Prelude.{◌≡◌, ◌≤◌, ◌++◌, List, [], ◌∷◌, true, false, take, length};
ghost use Rattle.survey.specs.declared.types.Tree.{Tree};
ghost use Rattle.survey.specs.KeptTrees.{Alike};

use crate::hints::{Hints, key_of};
use crate::types::{Leaves, Tree};
use std::marker::Model;

// The most trees that are kept.
const ROOM: usize = 4096;

// Trees, and hints where each stands. As a rule there is one for each set of leaves; where a hint was lost, a second one
// with the same leaves may be kept. A fixed array, as nothing may be allocated.
#[derive(Drop)]
pub struct KeptTrees {
    trees: [Tree; ROOM],
    count: usize,
    hints: Hints<8192>,
}

impl Model for KeptTrees {
    ghost Value = { List Tree };

    ghost view = { λ kept. take kept.count kept.trees };

    ghost invariant = { λ kept. kept.count ≤ 4096 };
}

// One line here and one for the standings of sorts: a trait for the two would be longer.
fn key(leaves: Leaves) -> u64 {
    key_of(leaves.old, leaves.new)
}

impl KeptTrees {
    pub fn new() -> KeptTrees
        ensures { result ≡ [] }
    {
        let tree = Tree {
            leaves: Leaves { old: 0, new: 0 },
            label: 0,
            content: 0,
        };
        KeptTrees {
            trees: [tree; ROOM],
            count: 0,
            hints: Hints::new(),
        }
    }

    pub fn as_slice(&self) -> &[Tree]
        ensures { result.now ≡ self.now }
    {
        &self.trees[..self.count]
    }

    // Whether a tree with these leaves is known to be kept.
    pub fn has(&self, leaves: Leaves) -> bool
        ensures { result ≡ true → Alike self.now leaves }
    {
        let trees = self.as_slice();
        self.hints
            .find(
                key(leaves),
                |t| t < trees.len() && trees[t].leaves == leaves,
            )
            .is_some()
    }

    // Keeps a tree, and tells whether there was room for it. A survey goes on without, so this is no failure but a fact
    // that it takes into account.
    pub fn keep(&mut self, tree: Tree) -> bool
        ensures room { result ≡ true → self.new ≡ self.old ++ tree ∷ [] }
        ensures full { result ≡ false → self.new ≡ self.old }
    {
        if self.count == ROOM {
            return false;
        }
        self.hints.note(key(tree.leaves), self.count);
        self.trees[self.count] = tree;
        self.count += 1;
        true
    }
}
