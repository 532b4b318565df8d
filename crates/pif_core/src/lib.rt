//! A core: threads, mutexes and condition variables under limits, the calls on them, and the kernel below. One event is
//! one step.
//!
//! An event, and an addition, is refused by the first of these that holds, and nothing changes then:
//!
//! | What is asked | Refused by | If |
//! |---|---|---|
//! | `Begin` | `NoSuch` | the thread was never added |
//! | | `Dead` | the thread has ended |
//! | | `Busy` | the thread has a call open |
//! | | `NoSuch` | the call names a mutex or a condition variable that was never added |
//! | `Go` | `NoSuch` | the thread was never added |
//! | | `Dead` | the thread has ended |
//! | | `Idle` | the thread has no call open |
//! | `End` | `NoSuch` | the thread was never added |
//! | | `Dead` | the thread has ended |
//! | `Tick` | `Past` | the time is before the present one |
//! | `add_thread` | `BadPrio` | the priority is outside 1 to 99 |
//! | | `TooMany` | as many threads were added as the limits allow |
//! | `add_mutex` | `TooMany` | as many mutexes were added as the limits allow |
//! | `add_cond` | `NoSuch` | the mutex was never added |
//! | | `TooMany` | as many condition variables were added as the limits allow |
//!
//! Each event with its answer is an entry of the core's history, also a refused one, and so is each addition that is
//! made. A refused addition is none. The contracts say what a core shows after a history: that the history is one that
//! POSIX allows, and what each reader answers then.
//!
//! `cores` has the events, the additions and the readers of words, health and priorities. `calls` has whole calls: a
//! thread begins one and goes on until it is answered or waits. `readers` has those of what a person looks at: what
//! each thread does, its open call and its base priority, the kind and the owner of a mutex, who comes next, and next
//! but one, at a mutex, at a condition variable and on the processor (`nth` goes to these three by an `Order`), and for
//! whom a thread waits, with all for whom that one waits (`path`). Each of these readers has a clause `value`, over
//! what the core keeps, and clauses in the words of POSIX over each state in which it may stand.
#![tactic(auto)]

mod calls;
mod cores;
mod readers;

pub use calls::MORE_STEPS;
pub use cores::Core;
pub use pif_model::{Entry, Event, Order, Seen, Status, Woken};
