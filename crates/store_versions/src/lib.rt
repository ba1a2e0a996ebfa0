//! The tables of versions 1 and 2 in an SQL database, and their migration to those of version 3.
#![tactic(auto)]

mod migration;
mod moving;
mod opening;
mod schema;
mod statement;
mod third;
mod upgrade;
mod version;

pub use opening::{Layout, layout_of, open_known};
