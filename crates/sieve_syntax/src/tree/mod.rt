//! The tree of a script: its commands and their tests (RFC 5228, 8.2).
pub mod action;
pub mod checks;
pub mod command;
pub mod test;
