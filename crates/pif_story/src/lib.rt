//! The texts of stories: their lines, the script that is left of one, its answers beside the lines that a run prints,
//! filling in, and the lines that say what a story comes to; the names of threads, and notes.
//!
//! A line of a story is a command of scripts, with ` = ` and its answer behind it or without, or it has no words. Words
//! stand between blanks, and `#` begins a comment. A CR at the end of a line and a byte order mark at the front are
//! passed over, and the last line needs no LF. All that is compared and run is the story with nothing but its words,
//! which has the same lines.
//!
//! | Module | What it has |
//! |---|---|
//! | `lines` | a text as lines, and what a line says |
//! | `plain` | a story with nothing but its words |
//! | `answers` | the answers that are written: what they say, and in which form |
//! | `scripts` | the script that is left of a story |
//! | `reading` | that script, of a story that is read |
//! | `comparing` | the answers that are written, beside the lines that are printed |
//! | `filling` | a story with the lines that are printed as its answers |
//! | `parts` | texts that are written part by part |
//! | `titles` | a story behind a comment with its name |
//! | `verdicts` | what a story comes to, as lines |
//! | `names`, `namings` | the names that a story gives its threads: a comment `# t1: low` gives t1 the name `low` |
//! | `missing` | what was added, and the first name in a command that nobody has |
//! | `notes` | the notes on the commands of a story, each name once |
//! | `places` | where in a line a name stands |
//! | `texts` | the lines in which notes are told |
//!
//! Commands name threads as ever; a name is for those who look on. A note says what a command names that nobody has, or
//! that a priority is out of range: a test that does so by mistake tests nothing, and is ok. A command with an answer
//! behind it wants that answer, and has no note.
#![tactic(auto)]

mod answers;
mod comparing;
mod filling;
mod lines;
mod missing;
mod names;
mod namings;
mod notes;
mod parts;
mod places;
mod plain;
mod reading;
mod scripts;
mod texts;
mod titles;
mod verdicts;

pub use comparing::{compare, count_commands};
pub use filling::filled_text;
pub use lines::{commentless, line_at_end, row_of, split_line, without_mark};
pub use missing::{Known, Missing, Note, noted, one_more};
pub use names::{name_of, names_in};
pub use notes::{MOST_NOTES, Notes, note_at, notes_beside};
pub use parts::printable;
pub use plain::{append_plain, plain_story};
pub use reading::{MOST, read_script_of_story};
pub use scripts::script_of;
pub use texts::{append_missing, write_notes};
pub use titles::titled_story;
pub use verdicts::verdict_text;
