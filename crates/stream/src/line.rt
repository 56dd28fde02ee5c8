//! Lines: what is told of each entry of a stream.
ghost use Rattle.std.specs.Prelude.{◌∷◌};
ghost use Rattle.stream.specs.Line.{Says, fields, loss, loss_if, shown, spaced};
ghost use Rattle.stream.specs.Writing.{Adds, HasRoom};
ghost use Rattle.stream.specs.Written.{HexStands, OneNumeral};

use crate::buffer::LineBuffer;
use forest::Fault;
use loss::Loss;

/// The most bytes of a lost record that a line shows.
const MOST_SHOWN: usize = 4096;

/// The number of the refusal of a sheet that would lose a record, which no fault has.
const LOSS: usize = 36;

/// What became of an entry.
#[derive(Clone, Copy, PartialEq, Eq, Debug)]
pub enum Line {
    /// A sheet is the edition of this number.
    Edition(usize),
    /// A record was kept under this number.
    Record(usize),
    Refused(Fault),
    /// A sheet would lose a record, which is at the front of the show buffer if it is shown.
    Lost(Loss<u32>),
}

/// Adds the bytes of a lost record: `-` where there are none, and `not shown` where there are too many.
fn add_bytes(buffer: &mut LineBuffer, bytes: &[u8])
    requires { HasRoom buffer.old 8193 }
    ensures { Adds buffer.old (0x20 ∷ shown (loss bytes.now)) buffer.new }
{
    if bytes.is_empty() {
        buffer.word(b"-");
    } else if bytes.len() > MOST_SHOWN {
        buffer.word(b"not shown");
    } else {
        buffer.byte(b' ');
        buffer.hex(bytes);
    }
}

/// Adds the bytes of a lost record as above if it is shown, and else `not shown`.
fn add_loss(buffer: &mut LineBuffer, loss: &Loss<u32>, show: &[u8])
    requires { HasRoom buffer.old 8193 }
    ensures { Adds buffer.old (0x20 ∷ shown (loss_if loss.now.shown loss.now.length show.now)) buffer.new }
{
    if loss.shown {
        // By `as`: there is no `From` between a `u32` and a `usize`.
        let end = show.len().min(loss.length as usize);
        add_bytes(buffer, &show[..end]);
    } else {
        buffer.word(b"not shown");
    }
}

impl Line {
    /// Adds the fields, and the line's end.
    #[tactic(auto, using(crate::proofs::Writes::short_loss))]
    fn add_fields(&self, buffer: &mut LineBuffer, show: &[u8])
        requires { HasRoom buffer.old 8300 }
        ensures { Adds buffer.old (spaced (fields self.now show.now)) buffer.new }
    {
        match self {
            Line::Edition(number) => {
                buffer.word(b"edition");
                buffer.number(*number);
            }
            Line::Record(number) => {
                buffer.word(b"record");
                buffer.number(*number);
            }
            Line::Refused(fault) => {
                buffer.word(b"refused");
                buffer.number(usize::from(fault.refusal.number()));
                buffer.number(fault.place);
            }
            Line::Lost(loss) => {
                buffer.word(b"refused");
                buffer.number(LOSS);
                // By `as`: there is no `From` between a `u32` and a `usize`.
                buffer.number(loss.cost as usize);
                buffer.number(loss.length as usize);
                add_loss(buffer, loss, show);
            }
        }
        buffer.byte(b'\n');
    }
}

impl LineBuffer {
    /// Makes the line for the entry of this number, in place of what was there.
    // A call of its own: where it was laid out in the program's loop, long losses took a tenth more time.
    #[inline(never)]
    #[tactic(auto, using(crate::proofs::Numerals::decimal_short))]
    pub fn make(&mut self, number: usize, line: &Line, show: &[u8])
        ensures says { Says self.new number (fields line.now show.now) }
        ensures numerals { OneNumeral }
        ensures digits { HexStands }
    {
        self.clear();
        self.digits(number);
        line.add_fields(self, show);
    }
}
