//! The bytes that openings, closings and texts begin with.

/// What an opening begins with.
pub const OPENING: u8 = 0x01;

/// What a closing is.
pub const CLOSING: u8 = 0x02;

/// What a text begins with.
pub const TEXT: u8 = 0x03;
