//! The sizes of a checkpoint's parts.

/// How many octets the fixed part has.
pub const FIXED_SIZE: usize = 96;

/// The most messages that may be open at once.
pub const MOST_OPEN: u32 = 4096;

/// How many messages may be open at once in layout 2, which doesn't store the number.
pub const LAYOUT_2_MOST_OPEN: u32 = 16;

/// How many octets a record has before its frames: 32 of its own, and those of its message.
pub const RECORD_SIZE: usize = 256;

/// How many octets a record stores of its message, before the frames.
pub const MESSAGE_SIZE: usize = 224;

/// How many octets a frame has.
pub const FRAME_SIZE: usize = 24;

/// The most frames that a record can have.
pub const MOST_FRAMES: u8 = 24;
