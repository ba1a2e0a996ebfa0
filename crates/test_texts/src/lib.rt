//! The cases whose answers need no store: texts, addresses and heads of messages, scripts that are read, responses of
//! `vacation`, and what ManageSieve's clients send and are told.
#![tactic(auto)]

mod account_file;
mod address;
mod answering;
mod ascii;
mod comparison;
mod date;
mod date_part;
mod decision;
mod fault;
mod flag;
mod head;
mod item;
mod kept;
mod line;
mod login;
mod reply;
mod response;
mod table;
mod token;
mod trial;
mod vacation;
mod word;

pub use table::TextTable;
pub use trial::Trial;
