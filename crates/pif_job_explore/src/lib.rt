//! `pif explore`: all outcomes of a small program that locks, told in lines; and which of them its programs come to when
//! they are played on [`Core`](pif_core::Core).
//!
//! A core need not do all that the machine of exploring does. So schedules are drawn, and each is played on a core of its
//! own. What is kept is which outcomes they came to, and which claims they broke.
//!
//! ```text
//!     sheet, plan, start ──> player: a core, and where each thread is in its program
//!                               │ schedules, drawn from a fixed seed
//!                               └──> of each outcome whether it was seen, of each claim whether it was broken
//! ```
//!
//! What was not seen is not claimed to be impossible.
//!
//! | Module | What it has |
//! |---|---|
//! | `faults` | why a program was not found to keep its claims |
//! | `starts` | what the text of a file stands for: a plan and its start |
//! | `rulings`, `delays` | what is found of the claims of a file, and of the delays that it asks for |
//! | `forms` | what is told of what was found, in a form |
//! | `exploring` | a file, read and explored |
//! | `player` | a core, and where each thread is in its program |
//! | `standing`, `meeting` | the outcome to which the programs have come, and which claims are broken |
//! | `schedules` | what is drawn |
//! | `playing`, `telling` | `play`, and what is told of it |
#![tactic(auto)]

mod delays;
mod exploring;
mod faults;
mod forms;
mod meeting;
mod player;
mod playing;
mod rulings;
mod schedules;
mod standing;
mod starts;
mod telling;

pub use exploring::{Exploring, explore_text};
pub use faults::ExploreFault;
pub use forms::Form;
pub use pif_explore_told::{Lines, schedules_are_runs};
pub use pif_reach::WatchStates;
