//! Tests of all that reads and writes texts, of the jobs between two streams, and of what `pif judge` stands on: of
//! searches, of the POSIX machine as a program, and of the searches of histories. They are in a crate of their own. A
//! crate with tests is proved twice by the gate, and these are proved once, all together.
//!
//! | Module | Tests of |
//! |---|---|
//! | `sizes` | `pif_script` and `pif_job_replay`: scripts and traces that are too large, and the longest chain |
//! | `reading` | `pif_script` and `pif_job_run`: when is read and written |
//! | `traces` | `pif_job_run`: traces of scripts; `pif_job_replay`: traces whose input fails as if it had ended |
//! | `notices` | what a notice keeps of a script, a trace or a story, by each job |
//! | `messages` | `pif_cli_messages`: what is told of faults that no job can be brought to |
//! | `random` | `pif_job_random`: what follows an end in a random script |
//! | `streams` | none: the stream, which moves few bytes a call or fails once where it is told to |
//! | `searches` | `pif_search`: verdicts and numbers of states that were worked out by hand |
//! | `told` | none: what a search tells `searches` and `plays` |
//! | `counters` | none: the machine of `searches`, a counter with a lamp |
//! | `beside` | `pif_posix`: the machine beside a core, on random events |
//! | `numbers` | none: the threads, mutexes and variables of numbers |
//! | `cloud` | none: all states in which the POSIX machine may be, after what was seen |
//! | `plays` | `pif_history`: how often a player plays lines until it finds a run, and which open calls make few states |
//!
//! What words, an input and a stream that fails can ask is a transcript.
#![tactic(auto)]

#[cfg(test)]
mod beside;
#[cfg(test)]
mod cloud;
#[cfg(test)]
mod counters;
#[cfg(test)]
mod messages;
#[cfg(test)]
mod notices;
#[cfg(test)]
mod numbers;
#[cfg(test)]
mod plays;
#[cfg(test)]
mod random;
#[cfg(test)]
mod reading;
#[cfg(test)]
mod searches;
#[cfg(test)]
mod sizes;
#[cfg(test)]
mod streams;
#[cfg(test)]
mod told;
#[cfg(test)]
mod traces;
