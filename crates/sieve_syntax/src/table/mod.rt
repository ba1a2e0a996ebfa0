//! The tables of the base language: a file for each table, or for the arguments of one of its elements.
pub mod command;
pub mod comparators;
pub mod keep;
pub mod keyword;
pub mod positional;
pub mod redirect;
pub mod tag;
pub mod tag_group;
pub mod tag_values;
pub mod tagged;
pub mod test;
pub mod test_arguments;
pub mod utf8;
