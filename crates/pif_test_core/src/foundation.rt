//! What kernels and calls stand on: types, words, and lists.
//!
//! | Module | Tests of |
//! |---|---|
//! | `numbers` | `pif_types`: the numbers of errors, and what they say |
//! | `words` | `pif_word`: words that are taken and released, which no kernel does |
//! | `sorted_lists` | `pif_plist`: the order of a list, and keys that change |
//! | `run_queue` | `pif_runq`: who is picked |
//! | `buckets` | `pif_queue`: a word that is forgotten, which no kernel does by its word |
//! | `robust_lists` | `pif_robust`: what its readers say, and the walk at an end as a list |
mod buckets;
mod numbers;
mod robust_lists;
mod run_queue;
mod sorted_lists;
mod words;
