//! The commands' words.
ghost use Rattle.std.specs.Prelude.{◌≡◌, ◌≤◌, ℕ, List, IfSome, IfNone, length};
ghost use Rattle.std.specs.List.{prefix_len};
ghost use Rattle.lmtp_dialogue.specs.declared.verb.LmtpVerb.{LmtpVerb as VerbValue};
ghost use Rattle.lmtp_dialogue.specs.Commands as s;

use octets::trim_blanks;

/// The word of a command (RFC 5321, section 4.1.1; RFC 2033, section 4.1). `HELO` and `EHLO` are SMTP's; LMTP doesn't have them.
#[derive(Clone, Copy, Debug, PartialEq, Eq)]
pub enum LmtpVerb {
    Lhlo,
    Mail,
    Rcpt,
    Data,
    Rset,
    Noop,
    Vrfy,
    Help,
    Quit,
    Helo,
    Ehlo,
}

/// A command's word, and what follows it.
#[derive(Clone, Copy)]
pub struct LmtpCommandLine<'a> {
    pub verb: LmtpVerb,
    /// What follows the word, without blanks at its ends.
    pub argument: &'a [u8],
}

/// The command that a line is, without its CRLF; none if its first word is none. One pass; takes no memory.
pub fn read_line(line: &[u8]) -> Option<LmtpCommandLine<'_>>
    ensures found { IfSome result (λ command. s.IsCommandLine line.now command.verb command.argument.now) }
    ensures none { IfNone result ((verb : VerbValue) (argument : List ℕ) → s.IsCommandLine line.now verb argument → ⊥) }
{
    let count = word_length(line);
    match verb_of(&line[..count]) {
        Some(verb) => Some(LmtpCommandLine {
            verb,
            argument: argument_of(&line[count..]),
        }),
        None => None,
    }
}

// How many octets the first word has.
pub(crate) fn word_length(line: &[u8]) -> usize
    ensures value { result ≡ prefix_len s.is_unspaced line.now }
    ensures within { result ≤ length line.now }
{
    line.iter().take_while(|octet| **octet != b' ').count()
}

// What follows the word: nothing, or what comes after the SP.
fn argument_of(tail: &[u8]) -> &[u8]
    ensures { result.now ≡ s.argument_in tail.now }
{
    match tail.split_first() {
        Some((_, rest)) => trim_blanks(rest),
        None => tail,
    }
}

fn verb_of(word: &[u8]) -> Option<LmtpVerb>
    ensures found { IfSome result (λ verb. s.IsSameWord (s.verb_word verb) word.now) }
    ensures none { IfNone result ((verb : VerbValue) → s.IsSameWord (s.verb_word verb) word.now → ⊥) }
{
    if word.eq_ignore_ascii_case(b"LHLO") {
        return Some(LmtpVerb::Lhlo);
    }
    if word.eq_ignore_ascii_case(b"MAIL") {
        return Some(LmtpVerb::Mail);
    }
    if word.eq_ignore_ascii_case(b"RCPT") {
        return Some(LmtpVerb::Rcpt);
    }
    if word.eq_ignore_ascii_case(b"DATA") {
        return Some(LmtpVerb::Data);
    }
    if word.eq_ignore_ascii_case(b"RSET") {
        return Some(LmtpVerb::Rset);
    }
    if word.eq_ignore_ascii_case(b"NOOP") {
        return Some(LmtpVerb::Noop);
    }
    if word.eq_ignore_ascii_case(b"VRFY") {
        return Some(LmtpVerb::Vrfy);
    }
    if word.eq_ignore_ascii_case(b"HELP") {
        return Some(LmtpVerb::Help);
    }
    if word.eq_ignore_ascii_case(b"QUIT") {
        return Some(LmtpVerb::Quit);
    }
    if word.eq_ignore_ascii_case(b"HELO") {
        return Some(LmtpVerb::Helo);
    }
    if word.eq_ignore_ascii_case(b"EHLO") {
        return Some(LmtpVerb::Ehlo);
    }
    None
}
