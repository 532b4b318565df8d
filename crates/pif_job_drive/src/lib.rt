//! A drive: clients in threads of their own, at one desk of `pif_desk`, lock and unlock one mutex, 100 times each. Its
//! book says that each of their calls was answered, and that no other was made.
#![tactic(auto)]

mod drives;

pub use drives::{DriveFault, Ending, Served, drive_book, end_of};
