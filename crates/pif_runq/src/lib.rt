//! A run queue as sched(7) describes it for SCHED_FIFO: 99 levels, each a list of a node table, and a mask of the
//! levels that have a thread. In one point it departs from that page: a thread whose priority is lowered joins the end
//! of its new level, not the front. No call takes memory, and each takes constant time, but for `nth`, which goes
//! through the levels and the threads before a place.
//!
//! ```text
//!  mask     bits 99 and 10 are set                level 99 │ t3
//!  pick     t3: the greatest bit, then            level 10 │ t1, t2
//!           the first of that level               others   │ (empty)
//!  nth      t3, t1, t2 at places 0, 1 and 2
//! ```
//!
//! | Call | From the picture |
//! |---|---|
//! | `add` t4 at 10 | level 10 has t1, t2, t4: it joins the end |
//! | `move_if_queued` t1 at 20 | level 20 has t1, level 10 has t2 |
//! | `move_if_queued` t1 at 10 | nothing changes: on its own level a thread keeps its place |
//! | `move_if_queued` t4 at 20 | nothing changes: t4 is on no level |
//! | `take_out` t3 | level 99 is empty, its bit is clear, and `pick` is t1 |
//!
//! Level p is the list `first_list` + p - 1 of the table, and thread t the node `first_node` + t - 1.
#![tactic(auto)]

mod masks;
mod queue;

pub use queue::{LEVELS, RunQueue};
