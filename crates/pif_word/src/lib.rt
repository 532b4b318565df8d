//! Words of 32 bits, as futex(2) has them: one for each mutex, what their bits say, and the accesses of one word at a
//! time; and for each mutex a health word, and for each condition variable a word that counts its uses.
//!
//! ```text
//!       31         30       29                              0
//!  ┌─────────┬────────────┬─────────────────────────────────┐
//!  │ WAITERS │ OWNER_DIED │ number of the owner, 0 for none │
//!  └─────────┴────────────┴─────────────────────────────────┘
//! ```
//!
//! | Word | Mutex |
//! |---|---|
//! | `0x00000000` | free |
//! | `0x00000003` | held by thread 3, which may release it with no kernel call |
//! | `0x80000003` | held by thread 3, and threads wait for it, or did when it was handed over |
//! | `0x40000000` | free, and its last owner ended |
//! | `0xc0000003` | held by thread 3 with both flags |
//!
//! | Health word | Robust mutex |
//! |---|---|
//! | 0 | fine, or its owner ended and nobody has taken it since |
//! | 1 | inconsistent |
//! | 2 | unusable |
//!
//! | Condition word | Variable |
//! |---|---|
//! | n | its signals and broadcasts were n together |
#![tactic(auto)]

mod bits;
mod cells;
mod words;

pub use bits::{
    OWNER_DIED, TID_MASK, WAITERS, hand_word, has_waiters, health_in, health_word, inherit_word,
    mark_word, number, orphan_word, owner_died, release_word, take_word, taken_word,
};
pub use cells::Cell;
pub use words::Words;
