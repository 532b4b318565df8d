//! What was found of a program, as lines of JSON, and as a page around them.
//!
//! The lines have the program first, then its claims, delays, faults and outcomes, each with the schedule of a state,
//! and counts. A step of a schedule is told by the line that it has, or by the thread that moves or ends, and by what is
//! other in the state after it.
//!
//! | Module | What it has |
//! |---|---|
//! | `elements` | the comma between elements of an array |
//! | `texts` | texts as strings |
//! | `steps` | a step |
//! | `schedules` | the steps by which a state was found |
//! | `program` | the program, and the state in which it starts |
//! | `claims`, `delays`, `faults`, `outcomes` | what was found of each |
//! | `objects` | all of it |
//! | `laws` | a law, which its function states |
//! | `pages` | a page around such lines |
//! | `page_body`, `page_script` | what the page has and does, beside what all pages do |
#![tactic(auto)]

mod claims;
mod delays;
mod elements;
mod faults;
mod laws;
mod objects;
mod outcomes;
mod page_body;
mod page_script;
mod pages;
mod program;
mod schedules;
mod steps;
mod texts;

pub use laws::schedules_have_these_steps;
pub use objects::push_objects;
pub use pages::push_page;
