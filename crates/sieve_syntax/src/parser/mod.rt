//! From tokens to a tree, by the grammar (RFC 5228, 8.2).
pub mod argument;
pub mod command_parser;
pub mod lexeme;
pub mod reader;
pub mod require;
pub mod test_parser;
