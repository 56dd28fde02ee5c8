//! What a register is made of.
ghost use Rattle.std.specs.Prelude.{◌≡◌, length};
ghost use Rattle.forest.specs.Refusals.{fault};
ghost use Rattle.store.specs.Stores.{lists};
ghost use Rattle.register.specs.Newest.{IsNewest};

use forest::{Fault, Refusal};
use rows::Row;
use sheet::sound::SoundSheet;
use store::Store;

/// The most editions.
pub const EDITIONS: usize = 16;

/// The most rows of the memory that are used.
pub const ROWS: usize = 2048;

/// The most records.
pub const RECORDS: usize = 256;

/// The most bytes of the memory that are used.
pub const BYTES: usize = 65536;

/// The editions and the records that were accepted, in memory that the caller handed over.
// No Model: clauses speak of `held`, and a refusal leaves the whole value, the free memory included.
#[derive(Drop)]
pub struct Register {
    /// The rows of each edition.
    pub(crate) editions: Store<Row, EDITIONS>,
    /// The bytes of each record.
    pub(crate) records: Store<u8, RECORDS>,
    /// The edition that each record was filed under.
    // It stands beside the store: in a store's spans it would be a number that the editions have no use for.
    pub(crate) under: [usize; RECORDS],
    /// The newest edition once more, ready to be used.
    pub(crate) newest: Option<SoundSheet>,
    ghost limits: { (editions.limit ≡ 2048) × (records.limit ≡ 65536) × (length under ≡ 256) },
    ghost last: { IsNewest newest (lists editions) },
}

/// A refusal that tells place 0.
pub(crate) fn refused(refusal: Refusal) -> Fault
    ensures { result ≡ fault refusal 0 }
{
    Fault { refusal, place: 0 }
}
