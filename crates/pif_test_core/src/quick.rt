//! What no clause says: that calls succeed, that a pass takes a word that becomes free while it comes for it, that a
//! pass that waits sleeps and is served in its turn, also if the word is unlocked as soon as it is marked, and that sums
//! over many turns are exact.
mod passes;
mod stress;
mod tries;
mod turns;
mod waits;
