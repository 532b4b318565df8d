//! The state behind each command of a story, as lines of JSON: of the command, its answer, each thread, mutex and
//! condition variable, the run queue, and the chains of waiting. And who waits for whom at the end of a story, as a graph
//! in the language of Graphviz (DOT). What a line says, and what the graph says, are definitions over what the readers of
//! a core answer (`specs/States.antt`, `specs/Graphs.antt`).
//!
//! | Module | What it has |
//! |---|---|
//! | `answers` | what a command was answered |
//! | `threads` | a thread |
//! | `mutexes` | a mutex |
//! | `conds` | a condition variable |
//! | `chains` | the chains of waiting |
//! | `lines` | a command, its answer, and the state behind it |
//! | `states` | the states behind all commands of a story |
//! | `pieces` | nodes and edges |
//! | `lists` | what is written for each of some numbers |
//! | `nodes` | the node of a thread |
//! | `edges` | what a thread waits for |
//! | `cores` | the graph of a core |
//! | `graphs` | the graph at the end of a story |
#![tactic(auto)]

mod answers;
mod chains;
mod conds;
mod cores;
mod edges;
mod graphs;
mod holds;
mod lines;
mod lists;
mod mutexes;
mod nodes;
mod numbers;
mod pieces;
mod queues;
mod states;
mod threads;

pub use graphs::graph_of;
pub use states::states_of;
