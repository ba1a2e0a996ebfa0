//! What a server offers.
ghost use Rattle.std.specs.Prelude.{◌≡◌, ◌≤◌, length, drop};
ghost use Rattle.smtp_dialogue.specs.Extensions as s;

use crate::mailbox::length_before;
use lmtp_dialogue::{Found, find_line};

/// What a server offers in its reply to EHLO (RFC 5321, section 4.1.1.1), of what is used here.
#[derive(Clone, Copy, Debug, PartialEq, Eq)]
pub struct Extensions {
    /// `SIZE`: how many octets a message has may be announced (RFC 1870).
    pub size: bool,
    /// `8BITMIME`: a message may have octets over 127 (RFC 6152).
    pub eight_bit_mime: bool,
    /// `SMTPUTF8`: an address may have them (RFC 6531).
    pub smtputf8: bool,
}

impl Extensions {
    /// None of them.
    pub fn none() -> Extensions
        ensures { result ≡ s.no_extensions }
    {
        Extensions {
            size: false,
            eight_bit_mime: false,
            smtputf8: false,
        }
    }

    // What a line offers more.
    fn with_line(self, line: &[u8]) -> Extensions
        ensures { result ≡ s.with_line self line.now }
    {
        let keyword = keyword_of(line);
        Extensions {
            size: self.size || names(keyword, b"size"),
            eight_bit_mime: self.eight_bit_mime || names(keyword, b"8bitmime"),
            smtputf8: self.smtputf8 || names(keyword, b"smtputf8"),
        }
    }

    // What lines offer more, if these octets are lines.
    fn with_lines(self, octets: &[u8]) -> Extensions
        ensures { s.OffersMore octets.now self result }
    {
        let mut left = octets;
        let mut offered = self;
        while let Found::Line(count) = find_line(left) {
            let (line, behind) = left.split_at(count);
            offered = offered.with_line(line);
            left = behind_end(behind);
        }
        offered
    }
}

// What follows a CRLF.
fn behind_end(octets: &[u8]) -> &[u8]
    requires { 2 ≤ length octets.now }
    ensures { result.now ≡ drop 2 octets.now }
{
    let (_, behind) = octets.split_at(2);
    behind
}

/// What is offered in a reply, of all its octets: its lines after the first are keywords and what belongs to them, in upper or lower
/// case. Time is linear in its octets; no memory is taken.
pub fn read_extensions(reply: &[u8]) -> Extensions
    ensures { s.OffersExtensions reply.now result }
{
    match find_line(reply) {
        Found::Line(count) => {
            let (_, behind) = reply.split_at(count);
            Extensions::none().with_lines(behind_end(behind))
        }
        _ => Extensions::none(),
    }
}

// The first word after the code and its mark.
fn keyword_of(line: &[u8]) -> &[u8]
    ensures { result.now ≡ s.ehlo_keyword_of line.now }
{
    word_of(behind_code(line))
}

fn behind_code(line: &[u8]) -> &[u8]
    ensures { result.now ≡ drop 4 line.now }
{
    if line.len() < 4 {
        return &line[line.len()..];
    }
    &line[4..]
}

fn word_of(text: &[u8]) -> &[u8]
    ensures { result.now ≡ s.first_word_of text.now }
{
    let count = length_before(text, b' ');
    &text[..count]
}

pub(crate) fn names(keyword: &[u8], word: &[u8]) -> bool
    ensures { result ≡ s.is_same_word word.now keyword.now }
{
    keyword.eq_ignore_ascii_case(word)
}
