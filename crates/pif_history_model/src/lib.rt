//! Histories of an implementation, as definitions: lines of what its threads began and were answered while their calls
//! overlapped, and whether the POSIX machine has a run that shows them. The definitions are in `specs/`; the types here
//! are those that they and the code speak of. `proofs/` has the lemmas on them, which the crates above cite.
//!
//! | Type | What it is |
//! |---|---|
//! | `Line` | one line of a history |
//! | `Fact` | what may be so in a state, of which a search is asked |
//! | `Protocol` | what those that wait for a mutex lend to its owner |
//! | `HistoryLimits` | how much the machine takes |
//! | `LineRefusal` | why no run has a line, whatever was answered |
//! | `Label` | one step of the machine that is searched: a line, or a move that no line shows |
//!
//! What a search of a history may leave out, or do first, is here, too:
//!
//! - all lines stand, so that states are left out in which an open call can't be answered any more as the lines to come
//!   say (`Known`, `Tested`), and trylocks fail at once that are known to fail (`AtOnce`);
//! - which waits the lines can have woken: those that were open together with a signal or a broadcast of their variable
//!   (`Wakeups`);
//! - which lines are shown before a hidden step is taken (`Lazy`).
//!
//! The functions do nothing, and state laws in their contracts: the machine that is searched shows what runs show, no
//! run shows a line that is refused, and a search may keep one of several states that no step tells apart.
#![tactic(auto)]

mod allowed_laws;
mod always_laws;
mod facts;
mod known_laws;
mod labels;
mod laws;
mod lazy_laws;
mod lines;
mod refusals;
mod wakeups_laws;

pub use allowed_laws::{
    first_lines_are_shown, more_rules_show_more, only_extra_lines_are_gated,
    only_what_lends_nothing_is_gated, without_rules_lines_are_plain,
};
pub use always_laws::what_is_never_otherwise_is_always_so;
pub use facts::Fact;
pub use known_laws::{
    failing_trylocks_are_taken_at_once, known_answers_are_kept_thread_by_thread,
    known_answers_forget_as_much, known_answers_judge_all_lines, known_answers_show_as_much,
    refuted_lines_end_in_the_illegal_one,
};
pub use labels::Label;
pub use laws::{
    notes_show_nothing_more, refused_lines_are_not_shown, refused_lines_are_not_shown_by_rules,
    searched_lines_are_shown, shown_answers_are_answers, shown_lines_are_searched,
    shown_priorities_are_priorities, waiters_show_nothing_more, what_no_step_sees_is_forgotten,
};
pub use lazy_laws::lines_come_before_hidden_steps;
pub use lines::{Line, Protocol};
pub use pif_posix_steps::HistoryLimits;
pub use refusals::LineRefusal;
pub use wakeups_laws::waits_return_once_woken;
