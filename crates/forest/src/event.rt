/// What a record hands out: an opening with its label, a text with the offset at which its bytes
/// begin, or a closing.
#[derive(Clone, Copy, PartialEq, Eq, Debug)]
pub enum Event<'a> {
    Opening { label: u16 },
    Text { bytes: &'a [u8], offset: usize },
    Closing,
}
