//! Robust lists: which robust mutexes each thread holds, so that what it leaves behind when it ends can be passed on.
//!
//! ```text
//!  thread t            the entries of its mutexes, each in one list at most
//!  ┌─────────────┐      next            next            next
//!  │ first     ──┼───▶ [m5] ─────────▶ [m2] ─────────▶ [m9] ──▶ none
//!  │             │ none ◀─ previous ◀── previous ◀──── previous
//!  │ half_linked ┼───▶ [m7] ─ next ─▶ m5: its link is written, and `first` doesn't name it yet
//!  │ pending   ──┼───▶  m7: the mutex that t is just taking or releasing
//!  └─────────────┘
//! ```
//!
//! Each of the calls that write is one write of one word of user memory, so that a thread may end between any two:
//!
//! - `set_pending` and `clear_pending` write the pending field (`list_op_pending` of `struct robust_list_head`);
//! - `link_next` writes the link of the new entry, which is half-linked from then on;
//! - `link_head` writes the head of the list, which names the new entry from then on;
//! - `unlink` writes the one link, or the head, that led to the entry.
//!
//! The links back are the library's own, and let `unlink` find the entry before at once. The end of a thread goes along
//! its list by `walk_first` and `walk_next`, and then calls `forget`. (The Linux documents 'robust futexes' and 'The
//! robust futex ABI'; get_robust_list(2), set_robust_list(2).)
#![tactic(auto)]

mod links;
mod lists;

pub use lists::RobustLists;
