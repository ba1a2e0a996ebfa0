//! The pieces of a value, from the beginning.
ghost use Rattle.std.specs.Prelude.{◌≡◌, ℕ, false, ◌+◌, ◌<◌, ◌≤◌, [], length, MatchOption, IfSome};
ghost use Rattle.std.specs.List.{prefix_len};
ghost use Rattle.mail_address.specs.Pieces as spec;
ghost use Rattle.mail_address.specs.Reading as reading;

/// What a piece of a value is.
#[derive(Clone, Copy)]
pub enum AddrPieceKind {
    /// Octets of no other kind, as many as follow each other.
    Atom,
    /// A quoted string with its quotation marks.
    Quoted,
    /// A domain literal with its brackets.
    Literal,
    /// A comment with its parentheses, and with the comments in it.
    Comment,
    /// SP or TAB.
    Blank,
    /// `<`
    Less,
    /// `>`
    Greater,
    /// `@`
    At,
    /// `,`
    Comma,
    /// `:`
    Colon,
    /// `;`
    Semicolon,
    /// `.`
    Dot,
    /// An octet that may not be there, or a quoted string, a comment or a literal that isn't closed.
    Bad,
}

/// A piece of a value as it is written.
#[derive(Clone, Copy)]
pub struct AddrToken<'a> {
    pub kind: AddrPieceKind,
    pub text: &'a [u8],
}

/// The kind of piece that begins with this octet.
fn kind_of(octet: u8) -> AddrPieceKind
    ensures { result ≡ spec.piece_kind_of octet }
{
    match octet {
        b'"' => AddrPieceKind::Quoted,
        b'(' => AddrPieceKind::Comment,
        b'[' => AddrPieceKind::Literal,
        b'<' => AddrPieceKind::Less,
        b'>' => AddrPieceKind::Greater,
        b'@' => AddrPieceKind::At,
        b',' => AddrPieceKind::Comma,
        b':' => AddrPieceKind::Colon,
        b';' => AddrPieceKind::Semicolon,
        b'.' => AddrPieceKind::Dot,
        b' ' | b'\t' => AddrPieceKind::Blank,
        b')' | b']' | b'\\' | 127 => AddrPieceKind::Bad,
        0..=32 => AddrPieceKind::Bad,
        _ => AddrPieceKind::Atom,
    }
}

/// Each octet that may be in an atom is at its own index, and a comma is at every other index.
static ATOM_OCTETS: [u8; 256] = *b"\
    ,,,,,,,,,,,,,,,,,,,,,,,,,,,,,,,,\
    ,!,#$%&',,*+,-,/0123456789,,,=,?\
    ,ABCDEFGHIJKLMNOPQRSTUVWXYZ,,,^_\
    `abcdefghijklmnopqrstuvwxyz{|}~,\
    \x80\x81\x82\x83\x84\x85\x86\x87\x88\x89\x8a\x8b\x8c\x8d\x8e\x8f\
    \x90\x91\x92\x93\x94\x95\x96\x97\x98\x99\x9a\x9b\x9c\x9d\x9e\x9f\
    \xa0\xa1\xa2\xa3\xa4\xa5\xa6\xa7\xa8\xa9\xaa\xab\xac\xad\xae\xaf\
    \xb0\xb1\xb2\xb3\xb4\xb5\xb6\xb7\xb8\xb9\xba\xbb\xbc\xbd\xbe\xbf\
    \xc0\xc1\xc2\xc3\xc4\xc5\xc6\xc7\xc8\xc9\xca\xcb\xcc\xcd\xce\xcf\
    \xd0\xd1\xd2\xd3\xd4\xd5\xd6\xd7\xd8\xd9\xda\xdb\xdc\xdd\xde\xdf\
    \xe0\xe1\xe2\xe3\xe4\xe5\xe6\xe7\xe8\xe9\xea\xeb\xec\xed\xee\xef\
    \xf0\xf1\xf2\xf3\xf4\xf5\xf6\xf7\xf8\xf9\xfa\xfb\xfc\xfd\xfe\xff";

/// Whether the octet may be in an atom. One look into a table.
#[inline(always)]
pub(crate) fn is_atom(octet: u8) -> bool
    ensures { result ≡ spec.is_atom_octet octet }
{
    ATOM_OCTETS[octet as usize] != b','
}

/// How many octets there are up to and including the closing octet; a backslash escapes the next octet.
fn enclosed_len(inside: &[u8], close: u8) -> Option<usize>
    ensures { result ≡ reading.len_before inside.now (reading.after_close close false inside.now) }
{
    let mut escaped = false;
    for (i, octet) in inside.iter().enumerate() {
        if escaped {
            escaped = false;
        } else if *octet == close {
            return Some(i + 1);
        } else if *octet == b'\\' {
            escaped = true;
        }
    }
    None
}

/// How many octets there are up to and including the closing parenthesis of the comment whose inside this is.
fn comment_len(inside: &[u8]) -> Option<usize>
    ensures { result ≡ reading.len_before inside.now (reading.after_comment 0 false inside.now) }
{
    let mut depth: usize = 0;
    let mut escaped = false;
    for (i, octet) in inside.iter().enumerate() {
        if escaped {
            escaped = false;
        } else if *octet == b'\\' {
            escaped = true;
        } else if *octet == b'(' {
            depth += 1;
        } else if *octet == b')' {
            if depth == 0 {
                return Some(i + 1);
            }
            depth -= 1;
        }
    }
    None
}

#[inline(always)]
fn atom_len(text: &[u8]) -> usize
    ensures is { result ≡ prefix_len spec.is_atom_octet text.now }
    ensures within { result ≤ length text.now }
{
    text.iter().take_while(|octet| is_atom(**octet)).count()
}

/// A piece that is closed after that many more octets, or is bad up to the end.
fn closed(kind: AddrPieceKind, others: &[u8], len: Option<usize>) -> (AddrPieceKind, usize)
    requires { IfSome len (λ n. n ≤ length others.now) }
    ensures { result ≡ reading.closed kind others.now len }
{
    match len {
        Some(len) => (kind, 1 + len),
        None => (AddrPieceKind::Bad, 1 + others.len()),
    }
}

/// The kind of the piece that begins with this octet, and how many octets it has.
#[inline(always)]
fn first_piece(first: u8, others: &[u8]) -> (AddrPieceKind, usize)
    ensures is { result ≡ reading.front first others.now }
    ensures some { 0 < result.1 }
    ensures within { result.1 ≤ 1 + length others.now }
{
    if is_atom(first) {
        return (AddrPieceKind::Atom, 1 + atom_len(others));
    }
    let kind = kind_of(first);
    match kind {
        AddrPieceKind::Quoted => closed(kind, others, enclosed_len(others, b'"')),
        AddrPieceKind::Literal => closed(kind, others, enclosed_len(others, b']')),
        AddrPieceKind::Comment => closed(kind, others, comment_len(others)),
        _ => (kind, 1),
    }
}

/// The first piece of a text, and what follows it.
#[inline(always)]
pub(crate) fn next_token(text: &[u8]) -> Option<(AddrToken<'_>, &[u8])>
    ensures { MatchOption result (reading.pieces text.now ≡ []) (λ r. reading.IsNextAddrPiece text.now r.0.kind r.0.text.now r.1.now) }
{
    let (first, others) = text.split_first()?;
    let (kind, len) = first_piece(*first, others);
    let (text, rest) = text.split_at(len);
    Some((AddrToken { kind, text }, rest))
}
