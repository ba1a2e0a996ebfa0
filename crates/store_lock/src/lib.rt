//! Keeps a store between two calls: in a file with a lock beside it, or in memory.
#![tactic(auto)]

pub mod cause;
mod file;
mod held_store;
mod identity;
mod keeper;
mod memory;
mod note;

pub use file::FileKeeper;
pub use held_store::HeldStore;
pub use keeper::{Keeper, StoreUnavailable};
pub use memory::MemoryKeeper;
