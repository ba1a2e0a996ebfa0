//! The files of cases whose answers need no store.
use crate::{
    account_file, address, ascii, comparison, date_part, fault, flag, head, item, kept, line,
    login, reply, token, vacation, word,
};
use octets::Octets;
use std::alloc::{AllocError, Global};
use test_files::{Answers, CaseTally, try_rows};

/// A file of cases whose answers need no store: in tables a line is a case, and its last column is what is wanted.
#[derive(Clone, Copy)]
pub enum TextTable {
    Ascii,
    Addresses,
    Targets,
    Bare,
    Spellings,
    Comparisons,
    Globs,
    Lines,
    Words,
    Texts,
    Tokens,
    Faults,
    Kept,
    Items,
    Replies,
    Logins,
    Heads,
    Dates,
    Flags,
    Vacations,
    AccountFiles,
}

impl TextTable {
    /// The file's name.
    pub fn file(self) -> &'static str {
        match self {
            TextTable::Ascii => "ascii.cases",
            TextTable::Addresses => "addresses.cases",
            TextTable::Targets => "targets.cases",
            TextTable::Bare => "bare.cases",
            TextTable::Spellings => "spellings.cases",
            TextTable::Comparisons => "comparisons.cases",
            TextTable::Globs => "globs.cases",
            TextTable::Lines => "lines.cases",
            TextTable::Words => "words.cases",
            TextTable::Texts => "texts.cases",
            TextTable::Tokens => "tokens.cases",
            TextTable::Faults => "faults.cases",
            TextTable::Kept => "kept.cases",
            TextTable::Items => "items.cases",
            TextTable::Replies => "replies.cases",
            TextTable::Logins => "logins.cases",
            TextTable::Heads => "heads.cases",
            TextTable::Dates => "dates.cases",
            TextTable::Flags => "flags.cases",
            TextTable::Vacations => "vacations.cases",
            TextTable::AccountFiles => "accountfiles.cases",
        }
    }

    /// Tries each case of the file.
    pub fn try_all(
        self,
        alloc: Global,
        tally: &mut CaseTally,
        file: &str,
    ) -> Result<(), AllocError> {
        match self {
            TextTable::Heads => head::try_heads(alloc, tally, file),
            TextTable::Vacations => vacation::try_vacations(alloc, tally, file),
            _ => try_rows(alloc, tally, &mut Rows(self), file),
        }
    }

    fn of_one(self, alloc: Global, out: &mut Octets, text: &[u8]) -> Result<(), AllocError> {
        match self {
            TextTable::Addresses => address::add_addresses(alloc, out, text),
            TextTable::Targets => address::add_target(alloc, out, text),
            TextTable::Bare => address::add_bare(alloc, out, text),
            TextTable::Words => word::add_decoded(alloc, out, text),
            TextTable::Texts => word::add_encoded(alloc, out, text),
            TextTable::Tokens => token::add_tokens(alloc, out, text),
            TextTable::Faults => fault::add_fault(alloc, out, text),
            TextTable::AccountFiles => account_file::add_account(alloc, out, text),
            _ => out.extend_from_slice(b"not that many columns"),
        }
    }

    fn of_two(
        self,
        alloc: Global,
        out: &mut Octets,
        text: &[u8],
        other: &[u8],
    ) -> Result<(), AllocError> {
        match self {
            TextTable::Ascii => ascii::answer_ascii(alloc, out, text, other),
            TextTable::Lines => line::answer_about_line(alloc, out, text, other),
            TextTable::Spellings => address::add_address_spelling(alloc, out, text, other),
            TextTable::Comparisons => comparison::add_comparison(out, text, other),
            TextTable::Globs => comparison::add_matches(out, text, other),
            TextTable::Kept => kept::add_places(alloc, out, text, other),
            TextTable::Items => item::add_first(alloc, out, text, other),
            _ => out.extend_from_slice(b"not that many columns"),
        }
    }
}

/// A table whose rows know nothing of each other.
#[derive(Drop)]
struct Rows(TextTable);

impl Answers for Rows {
    fn answer(
        &mut self,
        alloc: Global,
        out: &mut Octets,
        given: &[Octets],
    ) -> Result<(), AllocError> {
        let table = self.0;
        match (table, given) {
            (TextTable::Replies, _) => reply::add_reply_spelling(alloc, out, given),
            (TextTable::Logins, _) => login::answer_login(alloc, out, given),
            (TextTable::Flags, _) => flag::add_flags(alloc, out, given),
            (TextTable::Dates, [text, zone, part]) => date_part::add_part(
                out,
                text.as_slice(),
                zone.as_slice(),
                part.as_slice(),
            ),
            (_, [text]) => table.of_one(alloc, out, text.as_slice()),
            (_, [text, other]) => table.of_two(alloc, out, text.as_slice(), other.as_slice()),
            _ => out.extend_from_slice(b"not that many columns"),
        }
    }
}
