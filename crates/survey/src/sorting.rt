// How forests fall into sorts.
ghost use Rattle.std.specs.Prelude.{◌≡◌};
ghost use Rattle.forest.specs.Forest.{nil, Label};
ghost use Rattle.survey.specs.Sorting.{Model, Sorts, TextSort, NodeLeaves, NodeSort};

use crate::types::{Leaves, Standings};

/// How forests fall into sorts: which forests count, and the sort of a whole from the sorts of its parts.
pub trait Sorting {
    ghost model: { Self → Model };

    /// The sort of the empty forest.
    fn of_nil(&self) -> Standings
        ensures { (model self.now).has nil result };

    /// The sort of a text before a rest, or `None` where no text may stand before it.
    fn of_text(&self, rest: Standings) -> Option<Standings>
        ensures { TextSort (model self.now) rest result };

    /// The leaves that admit a node.
    fn leaves(&self, label: u16, content: Standings) -> Leaves
        requires { Label label }
        ensures { NodeLeaves (model self.now) label content result };

    /// The sort of a node that these leaves admit before a rest.
    fn before(&self, leaves: Leaves, rest: Standings) -> Standings
        ensures { NodeSort (model self.now) leaves rest result };

    /// The labels to try.
    fn labels(&self) -> &[u16]
        ensures { result.now ≡ (model self.now).labels };

    ghost sorted: { (s : Self) → Sorts (model s) };
}
