//! Limits of streams.

/// The greatest limit of a stream: no call is asked to take more bytes.
pub const MOST_BYTES: u64 = 1_099_511_627_776;

/// The bytes of a piece: encoding reads so many at a time, and so many bytes of lines wait together.
pub const PIECE: usize = 4096;
