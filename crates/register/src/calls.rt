//! The calls of a register.
ghost use Rattle.std.specs.Prelude.{◌≡◌};
ghost use Rattle.law.specs.Calls.{Begun, Filed, Fetched};
ghost use Rattle.register.specs.Holding.{held, LeftIfRefused};

use crate::register::{BYTES, RECORDS, ROWS, Register, refused};
use forest::{Fault, Refusal};
use rows::Row;
use store::Store;

impl Register {
    /// A register that holds nothing, over memory of any size and contents.
    pub fn new(rows: Vec<Row>, bytes: Vec<u8>) -> Register
        ensures { Begun rows.items bytes.items (held result) }
    {
        Register {
            editions: Store::new(rows, ROWS),
            records: Store::new(bytes, BYTES),
            under: [0; RECORDS],
            newest: None,
        }
    }

    /// Files a record under the newest edition, and tells its number.
    pub fn file(&mut self, body: &[u8]) -> Result<usize, Fault>
        ensures told { Filed (held self.old) body.now result (held self.new) }
        ensures left { LeftIfRefused result self.old self.new }
    {
        self.admit(body)?;
        self.keep(body)
    }

    /// Copies a record to the front of the buffer, and tells its length and its edition.
    pub fn fetch(&self, number: usize, buffer: &mut [u8]) -> Result<(usize, usize), Fault>
        ensures { Fetched (held self.now) number buffer.old result buffer.new }
    {
        let (body, edition) = self.find(number).ok_or(refused(Refusal::NoRecord))?;
        let length = body.len();
        if buffer.len() < length {
            return Err(refused(Refusal::BufferTooShort));
        }
        buffer[..length].copy_from_slice(body);
        Ok((length, edition))
    }
}
