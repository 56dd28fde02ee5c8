/// How the reading of a stream goes on.
#[derive(Clone, Copy, PartialEq, Eq, Debug)]
pub enum Progress<'a> {
    /// The input was at its end.
    Done,
    /// Refusal 1 or 2: nothing says where another entry would begin.
    Stopped,
    /// An entry was handled, and this comes next.
    More(&'a [u8]),
}
