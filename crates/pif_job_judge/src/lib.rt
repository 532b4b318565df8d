//! `pif judge`: whether a history of an implementation is legal, told in lines, in lines of JSON or as a page; and
//! which rules it needs to be legal, in lines.
//!
//! | Module | What it has |
//! |---|---|
//! | `faults` | what was told of a history, and why it was not found to be legal |
//! | `forms` | how a history is judged, and in which form that is told |
//! | `holds` | what threads hold by the answers in lines |
//! | `known` | what is known of an illegal line |
//! | `terms` | by which rules and within which limits the lines of a history are searched |
//! | `signs` | which facts may be in the way of a line, by the lines before |
//! | `in_the_way` | what is in the way of an illegal line |
//! | `clues` | what is told after that: clues to what is wrong |
//! | `legal_if` | another answer, with which the lines would be legal |
//! | `fronts` | how far the lines are legal for certain |
//! | `unfound` | what is found of the first line for which no run was |
//! | `open_calls` | the calls that are open at the end, and whether any can be answered |
//! | `lines` | verdicts in lines for a person |
//! | `objects` | a history as lines of JSON: its verdict, and its run |
//! | `before` | the first line that those before it refuse |
//! | `missing` | what a mistake of the log names or asks for that isn't there |
//! | `mistakes` | mistakes of the log |
//! | `posix` | what POSIX says of a history that isn't legal |
//! | `undefined` | calls whose behaviour POSIX leaves undefined |
//! | `asked` | a verdict with what POSIX says, in each form |
//! | `shown` | names beside the numbers of what is told, and pages |
//! | `judging` | a history, read and judged |
//!
//! | Module | What it has of the rules that a history needs |
//! |---|---|
//! | `search` | the first set of rules with which lines are legal |
//! | `needed` | what is told of the rules that a history needs |
//! | `least` | a history, read and judged with sets of rules |
#![tactic(auto)]

mod asked;
mod before;
mod clues;
mod faults;
mod forms;
mod fronts;
mod holds;
mod in_the_way;
mod judging;
mod known;
mod least;
mod legal_if;
mod lines;
mod missing;
mod mistakes;
mod needed;
mod objects;
mod open_calls;
mod posix;
mod search;
mod shown;
mod signs;
mod terms;
mod undefined;
mod unfound;

pub use faults::JudgeFault;
pub use forms::{Form, Judging};
pub use judging::judge;
pub use least::judge_least;
pub use pif_search::{Unwatched, WatchLines};
