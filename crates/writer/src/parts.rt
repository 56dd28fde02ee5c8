// An entry of a plain table of forests.
use survey::{First, Sort};

/// What a forest begins with, and where in the table the forests of its content and its rest stand.
// An arena of indices, as nothing here may allocate.
#[derive(Clone, Copy)]
pub struct Part {
    pub first: First,
    pub content: usize,
    pub rest: usize,
}

impl<C: Copy> From<&Sort<C>> for Part {
    ghost use Rattle.std.specs.Prelude.{◌≡◌};
    ghost use Rattle.writer.specs.Shows.{part_of};

    ghost from_gives = { λ sort part. part ≡ part_of sort.now };

    fn from(sort: &Sort<C>) -> Part {
        Part {
            first: sort.first,
            content: sort.content,
            rest: sort.rest,
        }
    }
}
