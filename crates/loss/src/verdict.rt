// What a judgement answers.

/// A lost forest of least cost: its cost and its length, and whether its bytes are shown.
#[derive(Clone, Copy, PartialEq, Eq, Debug)]
pub struct Loss<C> {
    pub cost: C,
    pub length: u32,
    // Beside the length and no Option round it: the length is told also of a loss that is not shown.
    pub shown: bool,
}

/// No forest is lost, or one of least cost is told.
// In the words of judging, and no Option: a caller reads which of the two answers it has.
#[derive(Clone, Copy, PartialEq, Eq, Debug)]
pub enum Verdict<C> {
    AllAdmitted,
    Lost(Loss<C>),
}
