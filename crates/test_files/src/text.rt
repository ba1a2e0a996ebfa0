//! How octets are written in the files: `%` and two digits of base 16 are an octet, and `%{TEXT*N}` is a text N times.
use octets::{Octets, Texts, parse_decimal, write_decimal};
use percent_encoding::percent_decode;
use std::alloc::{AllocError, Global};
use std::str;

/// What comes before a text's first separator, and what after it: the whole text and nothing if it has none.
pub fn split_at_first<'a>(text: &'a str, separator: &str) -> (&'a str, &'a str) {
    text.split_once(separator).unwrap_or((text, ""))
}

/// The text that these octets are, or the empty one if they are no UTF-8.
pub fn text_in(octets: &[u8]) -> &str {
    str::from_utf8(octets).unwrap_or("")
}

/// The columns of a line. One tab or more is between two; `-` alone is the empty text.
pub fn columns(alloc: Global, line: &str) -> Result<Texts, AllocError> {
    let mut found = Texts::new(alloc);
    for column in line.split('\t') {
        add_column(alloc, &mut found, column)?;
    }
    Ok(found)
}

fn add_column(alloc: Global, found: &mut Texts, column: &str) -> Result<(), AllocError> {
    match column {
        "" => Ok(()),
        "-" => found.push(Octets::new(alloc)),
        _ => {
            let octets = decode_cell(alloc, column)?;
            found.push(octets)
        }
    }
}

/// The octets that a text of a file stands for. In the text of a repetition `%#` is the number of the turn, from 0; its
/// first `*` ends it, so a star within it is written `%2A`.
pub fn decode_cell(alloc: Global, text: &str) -> Result<Octets, AllocError> {
    let (front, more) = split_at_first(text, "%{");
    let mut out = Octets::new(alloc);
    add_plain(alloc, &mut out, front)?;
    add_repeated(alloc, &mut out, more)?;
    Ok(out)
}

/// Appends what comes after the first `%{` of a text.
fn add_repeated(alloc: Global, out: &mut Octets, more: &str) -> Result<(), AllocError> {
    for piece in more.split("%{") {
        add_piece(alloc, out, piece)?;
    }
    Ok(())
}

/// Appends what is between one `%{` and the next: a repetition and a text, or a text alone.
fn add_piece(alloc: Global, out: &mut Octets, piece: &str) -> Result<(), AllocError> {
    let (part, more) = split_at_first(piece, "*");
    let (count, rest) = split_at_first(more, "}");
    match parse_decimal(count.as_bytes()) {
        Some(count) => {
            add_times(alloc, out, part, count)?;
            add_plain(alloc, out, rest)
        }
        None => add_plain(alloc, out, piece),
    }
}

/// Appends a text that many times.
fn add_times(alloc: Global, out: &mut Octets, part: &str, count: u64) -> Result<(), AllocError> {
    for turn in 0..count {
        add_turn(alloc, out, part, turn)?;
    }
    Ok(())
}

/// Appends a text with the number of the turn in it.
fn add_turn(alloc: Global, out: &mut Octets, part: &str, turn: u64) -> Result<(), AllocError> {
    let (front, rest) = split_at_first(part, "%#");
    add_plain(alloc, out, front)?;
    if front.len() < part.len() {
        write_decimal(out, turn)?;
    }
    add_plain(alloc, out, rest)
}

/// Appends a text without repetitions.
fn add_plain(alloc: Global, out: &mut Octets, text: &str) -> Result<(), AllocError> {
    let mut octets = Vec::new(alloc);
    percent_decode(text.as_bytes()).append_to(&mut octets)?;
    out.extend_from_slice(octets.as_slice())
}

/// Words with a blank between two of them; `F` stands for the path, and `F.d` for the path with `.d` after it. Two blanks
/// have an empty word between them.
pub fn words_of(alloc: Global, text: &[u8], path: &str) -> Result<Vec<Octets>, AllocError> {
    let mut words = Vec::new(alloc);
    if text.is_empty() {
        return Ok(words);
    }
    for word in text.split(|octet| *octet == b' ') {
        words.push(word_of(alloc, word, path)?)?;
    }
    Ok(words)
}

fn word_of(alloc: Global, word: &[u8], path: &str) -> Result<Octets, AllocError> {
    let (path, rest) = match word {
        b"F" => (path, ""),
        b"F.d" => (path, ".d"),
        _ => return Octets::from_slice(alloc, word),
    };
    let mut octets = Octets::from_slice(alloc, path.as_bytes())?;
    octets.extend_from_slice(rest.as_bytes())?;
    Ok(octets)
}

/// The text without blanks and line ends at its end.
pub fn trim_end(text: &[u8]) -> &[u8] {
    text.trim_ascii_end()
}

/// The octets that a text of a file stands for, with each LF as CRLF if that is wanted.
pub fn with_ends(alloc: Global, text: &str, crlf: bool) -> Result<Octets, AllocError> {
    let octets = decode_cell(alloc, text)?;
    if crlf {
        with_crlf(alloc, octets.as_slice())
    } else {
        Ok(octets)
    }
}

fn with_crlf(alloc: Global, text: &[u8]) -> Result<Octets, AllocError> {
    let mut out = Octets::new(alloc);
    for octet in text {
        add_octet(&mut out, *octet)?;
    }
    Ok(out)
}

/// Appends an octet, a LF as CRLF.
fn add_octet(out: &mut Octets, octet: u8) -> Result<(), AllocError> {
    match octet {
        b'\n' => out.extend_from_slice(b"\r\n"),
        _ => out.push(octet),
    }
}
