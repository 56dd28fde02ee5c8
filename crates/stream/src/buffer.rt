//! The array that a line is made in, and writing text into it from its front.
ghost use Rattle.std.specs.Prelude.{◌≡◌, ℕ, ◌+◌, ◌-◌, ◌*◌, ◌<◌, ◌≤◌, List, ◌∷◌, [], length, take, drop, replicate, decimal};
ghost use Rattle.stream.specs.Written.{hex, hex_digit};

/// The most bytes of a line's text.
const LONGEST: usize = 8320;

/// A line's text in the first `count` bytes, and 0 in the others.
// An array with its count: a line is made in fixed memory.
#[derive(Clone, Copy)]
pub struct LineBuffer {
    line: [u8; LONGEST],
    count: usize,
    ghost within: { count ≤ 8320 },
    ghost blank: { drop count line ≡ replicate (8320 - count) 0 },
}

/// The digit of base 16 for `d`.
fn hex_digit(d: u8) -> u8
    requires { d < 16 }
    ensures { result ≡ hex_digit d }
{
    if d < 10 { b'0' + d } else { b'A' - 10 + d }
}

// Text is not written by `write!`: it may answer an error, and then promises nothing, but a line is always made.
impl LineBuffer {
    ghost use Rattle.stream.specs.Line.{Field, Says, line_text};
    ghost use Rattle.stream.specs.Writing.{Adds, HasRoom};

    /// A buffer with no text.
    pub fn new() -> LineBuffer
        ensures { (result.line ≡ replicate 8320 0) × (result.count ≡ 0) }
    {
        LineBuffer {
            line: [0; LONGEST],
            count: 0,
        }
    }

    /// The text, without the zeros after it.
    pub fn text(&self) -> &[u8]
        ensures front { result.now ≡ take self.now.count self.now.line }
        ensures said { (n : ℕ) (fs : List Field) → Says self.now n fs → result.now ≡ line_text n fs }
    {
        &self.line[..self.count]
    }

    /// Takes the text away.
    pub(crate) fn clear(&mut self)
        ensures { self.new.count ≡ 0 }
    {
        let count = self.count;
        self.line[0..count].fill(0);
        self.count = 0;
    }

    pub(crate) fn byte(&mut self, b: u8)
        requires { HasRoom self.old 1 }
        ensures { Adds self.old (b ∷ []) self.new }
    {
        let count = self.count;
        self.line[count] = b;
        self.count = count + 1;
    }

    pub(crate) fn bytes(&mut self, text: &[u8])
        requires { HasRoom self.old (length text.now) }
        ensures { Adds self.old text.now self.new }
    {
        let count = self.count;
        let end = count + text.len();
        self.line[count..end].copy_from_slice(text);
        self.count = end;
    }

    #[tactic(auto, using(crate::proofs::Numerals::steps))]
    pub(crate) fn digits(&mut self, n: usize)
        requires { HasRoom self.old (length (decimal n)) }
        ensures { Adds self.old (decimal n) self.new }
    {
        if n >= 10 {
            self.digits(n / 10);
        }
        // By `as`: one digit fits.
        self.byte(b'0' + (n % 10) as u8);
    }

    /// Adds a space and a word.
    pub(crate) fn word(&mut self, letters: &[u8])
        requires { HasRoom self.old (1 + length letters.now) }
        ensures { Adds self.old (0x20 ∷ letters.now) self.new }
    {
        self.byte(b' ');
        self.bytes(letters);
    }

    /// Adds a space and a number.
    #[tactic(auto, using(crate::proofs::Numerals::decimal_short))]
    pub(crate) fn number(&mut self, n: usize)
        requires { HasRoom self.old 21 }
        ensures adds { Adds self.old (0x20 ∷ decimal n) self.new }
        ensures short { self.new.count ≤ self.old.count + 21 }
    {
        self.byte(b' ');
        self.digits(n);
    }

    /// Adds bytes as two digits each.
    #[tactic(auto, using(crate::proofs::Writes::hex_lengths))]
    pub(crate) fn hex(&mut self, bytes: &[u8])
        requires { HasRoom self.old (2 * length bytes.now) }
        ensures { Adds self.old (hex bytes.now) self.new }
    {
        for b in bytes {
            self.byte(hex_digit(*b / 16));
            self.byte(hex_digit(*b % 16));
        }
    }
}
