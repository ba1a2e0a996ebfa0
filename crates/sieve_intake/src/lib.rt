//! The scripts that Pigeonhole keeps for a user, from a tar archive of its files.
#![tactic(auto)]

mod intake;
mod names;
mod sorting;

pub use intake::Intake;
pub use sorting::{LeftOut, LeftOutFile, SortedFiles, TakenScript};
