use arrayvec::ArrayVec;

/// How many bytes a `Text` holds at most: no answer is longer, and no line of a trace with the header before it. That
/// is the longest, with 118 bytes: `HEADER_ROOM`, `COMMAND_ROOM` and `RECORDED_ROOM`, and the two line feeds.
pub const TEXT_ROOM: usize = 160;

/// A text while it is written. It stands on the stack.
pub type Text = ArrayVec<u8, TEXT_ROOM>;
