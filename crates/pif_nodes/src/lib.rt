//! One table of nodes that stand in doubly linked lists. Nodes and lists are numbers, all of a table's memory is taken
//! when it is made, and every later call takes constant time.
//!
//! ```text
//!  list 0   first ──> [4] ⇄ [6] ⇄ [2] <── last      list 1   first ──> [5] ⇄ [1] <── last      list 2   (empty)
//!  keys               30,1  20,2  20,3                                 0,0   0,0
//!
//!  [0] and [3] are in no list; a key is a priority and a ticket
//! ```
//!
//! A node is in one list at most, and once; it knows its list and its two neighbours, and a list knows its two ends.
//! Contracts see each list as the numbers of its nodes in order, and a key for each node, never a link.
#![tactic(auto)]

mod linking;
mod numbers;
mod slots;
mod table;

pub use numbers::{List, Node};
pub use pif_nodes_model::Key;
pub use table::NodeTable;
