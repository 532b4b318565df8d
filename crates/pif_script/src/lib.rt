//! What all listeners of scripts and traces have in common: bytes are read chunk by chunk and cut into lines, a
//! listener hears each line, and what it answers is written.
//!
//! | Module | What it has |
//! |---|---|
//! | `listener` | the trait of those who answer lines, and the room for their answers |
//! | `scanner` | bytes as lines |
//! | `script` | a whole script, read and answered |
//! | `notices` | what is kept of the line that ends a script |
//! | `whole` | all the bytes of an input |
//! | `writing` | bytes that are written to the last |
#![tactic(auto)]

mod listener;
mod notices;
mod scanner;
mod script;
mod whole;
mod writing;

pub use listener::{
    ANSWER_ROOM, CHUNK, END_ROOM, FRONT_ROOM, LINE_ROOM, Listener, OUTPUT_ROOM, Output, REPLY_ROOM,
    ROW_ROOM, append, append_end,
};
pub use notices::Notice;
pub use pif_script_model::{CliFault, End, Ending, OpenFault, Stop};
pub use scanner::{MOST_BYTES, MOST_LINE, Scanner};
pub use script::{close, feed, read_on, read_script, stop};
pub use whole::read_all;
pub use writing::write_whole;
