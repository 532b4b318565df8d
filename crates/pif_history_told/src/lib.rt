//! What is told of a history: a run that shows it, and the verdict on it.
//!
//! A search names the steps of a run alone, by labels. One label may lead to several states, as that of a signal that
//! chooses. A step may need a rule that the history allows. So the states of a run are found here. It is told to a
//! person. And it and a verdict are told as lines of JSON, and as a page that shows them.
//!
//! | Module | What it has of a run |
//! |---|---|
//! | `leading` | where the steps of a label lead, and by which rule |
//! | `ways` | which of these a whole run takes |
//! | `likely` | which are followed at first |
//! | `following` | a run as a text: its lines, and between them what each move changes |
//! | `calls` | an open call, and how far it has come |
//! | `state_objects` | threads, mutexes and condition variables |
//! | `changes` | what a step changes of them |
//! | `run_lines` | a run step by step, as lines of JSON |
//! | `runs` | a whole run, by the labels of its steps |
//! | `unlisted` | answers that no page of POSIX has |
//!
//! | Module | What it has of a verdict |
//! |---|---|
//! | `places` | the lines of a history, and their numbers |
//! | `telling` | what is told in lines of an illegal line |
//! | `in_the_way` | what is in the way of an illegal line |
//! | `open_calls` | the calls that are open at the end |
//! | `ends` | what is told of them |
//! | `clues` | what is told after that: clues to what is wrong |
//! | `sets` | the sets of rules, in the order in which they are tried |
//! | `texts` | lines that name a set |
//! | `verdicts` | a verdict, as a line of JSON |
//! | `names` | the names and places that a history gives, beside numbers |
//! | `pages` | a page around such lines |
//! | `page_style`, `page_lanes` | how all pages look, and what all of them do |
//! | `page_body`, `page_script` | what a page with a verdict has, and does |
#![tactic(auto)]

mod calls;
mod changes;
mod clues;
mod ends;
mod following;
mod in_the_way;
mod leading;
mod likely;
mod names;
mod open_calls;
mod page_body;
mod page_lanes;
mod page_script;
mod page_style;
mod pages;
mod places;
mod run_lines;
mod runs;
mod sets;
mod state_objects;
mod telling;
mod texts;
mod unlisted;
mod verdicts;
mod ways;

pub use changes::{Change, append_changes};
pub use clues::{Clues, LegalIf, tell_clues};
pub use ends::{AtEnd, tell_at_end};
pub use following::{rules_of_run, witness_text};
pub use in_the_way::InTheWay;
pub use names::{beside_in_page, names_line, names_object, places_line, places_object};
pub use open_calls::open_at_end;
pub use pages::{PAGE_LINES, PageParts, append_page, append_page_with, first_shown};
pub use places::{line_at, number_at};
pub use run_lines::{Leap, append_move};
pub use runs::run_text;
pub use sets::{added, sets_of_size};
pub use telling::{began_before, began_of, tell_undecided, tell_why};
pub use texts::{
    calls_in, push_but_for, push_legal_with, push_needed, push_undecided_with, rule_names,
    tell_legal,
};
pub use unlisted::{Unlisted, first_unlisted};
pub use verdicts::{Began, Known, Unfound, append_illegal, append_legal, append_undecided};
