//! The quick path: words with a value each, of which one pass at a time has the value. A free word is taken, and given
//! back, by one compare-exchange; a pass that finds it taken may wait for it. None of it goes through the core: there
//! are no POSIX answers and no priorities, and nobody helps when a thread that holds a value ends.
//!
//! One caller, of two threads that add to one value. The program `pif_demo` has it whole.
//!
//! ```text
//! fn add_up<R: Wait>(rt: &R, quick: &Quick<u64>, pass: &mut Pass<u64>)
//!     requires { IsPassOf quick.now pass.old × IsIdle pass.old × (0 < word_count quick.now) }
//!     ensures { IsPassOf quick.now pass.new × IsIdle pass.new }
//! {
//!     for number in 0..LAST {
//!         let mut held = quick.lock(rt, pass, 0);
//!         let value = held.value_mut();
//!         *value = value.wrapping_add(number + 1);
//!         quick.unlock(rt, pass, held);
//!     }
//! }
//!
//! let (quick, mut passes) = Quick::open(alloc, [0].to_vec(alloc)?, 2)?;
//! // each pass goes to a thread of `join`, which calls `add_up` and gives it back
//! quick.meet(&mut one, &mut two);
//! let held = quick.lock(rt, &mut one, 0);
//! let sum = *held.value();
//! quick.unlock(rt, &mut one, held);
//! ```
//!
//! What holds of the words, the values and all passes between any two steps stands in `specs/Rule.antt`; what callers
//! know, in `specs/Quick.antt`.
#![tactic(auto)]

mod laws;
mod parking;
mod place;
mod quick;
mod rule;

pub use laws::no_word_has_two_holders;
pub use quick::{Held, Pass, Quick};
