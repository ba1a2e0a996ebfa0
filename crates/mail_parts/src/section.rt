//! Boundary lines and the sections between them (RFC 2046, section 5.1.1).
ghost use Rattle.std.specs.Prelude.{◌≡◌, ◌<◌, false, length, IfOk, option_copied};
ghost use Rattle.std.specs.List.{list_all};
ghost use Rattle.octets.specs.Ascii as ascii;
ghost use Rattle.mail_parts.specs.Sections as sections;
ghost use Rattle.mail_parts.specs.Cutting as cutting;
ghost use Rattle.mail_parts.specs.Cutting.{CutsSection, IsFirstInside, MarksFirst};

use mail_head::{first_line, without_end};
use memchr::memmem::Finder;
use octets::{Octets, is_blank};
use std::alloc::{AllocError, Global};

/// What a line is to a multipart.
#[derive(Clone, Copy)]
pub enum LineMark {
    /// No boundary line.
    Inside,
    /// A section follows.
    Delimiter,
    /// The end of the last section: what follows is the epilogue.
    Close,
}

/// A section at the beginning of a text.
#[derive(Clone, Copy)]
pub(crate) struct SectionCut<'t> {
    pub(crate) section: &'t [u8],
    /// The boundary line that ends it; `Inside` if none does.
    pub(crate) mark: LineMark,
    /// What follows that line.
    pub(crate) after: &'t [u8],
}

fn are_blanks(text: &[u8]) -> bool
    ensures { result ≡ list_all ascii.is_blank text.now }
{
    text.iter().all(|octet| is_blank(*octet))
}

fn is_padding(text: &[u8]) -> bool
    ensures { result ≡ sections.is_padding text.now }
{
    are_blanks(without_end(text))
}

// What stands behind a text at the beginning of another.
fn behind<'t>(text: &'t [u8], front: &[u8]) -> Option<&'t [u8]>
    ensures { option_copied result ≡ sections.behind front.now text.now }
{
    text.strip_prefix(front)
}

// What a line is, by what stands behind the boundary.
fn mark_behind(tail: &[u8]) -> LineMark
    ensures { result ≡ sections.mark_behind tail.now }
{
    if is_padding(tail) {
        return LineMark::Delimiter;
    }
    match behind(tail, b"--") {
        Some(text) => {
            if is_padding(text) {
                LineMark::Close
            } else {
                LineMark::Inside
            }
        }
        None => LineMark::Inside,
    }
}

// What a line is to a multipart with this boundary.
fn mark(line: &[u8], boundary: &[u8]) -> LineMark
    ensures { result ≡ sections.line_mark boundary.now line.now }
{
    let Some(after) = behind(line, b"--") else {
        return LineMark::Inside;
    };
    match behind(after, boundary) {
        Some(tail) => mark_behind(tail),
        None => LineMark::Inside,
    }
}

fn is_section_mark(mark: LineMark) -> bool
    ensures { result ≡ sections.is_section_mark mark }
{
    match mark {
        LineMark::Inside => true,
        LineMark::Delimiter | LineMark::Close => false,
    }
}

// Whether padding, a line end or two hyphens may begin with an octet.
fn may_follow(octet: u8) -> bool
    ensures { result ≡ cutting.may_follow octet }
{
    is_blank(octet) || octet == b'\r' || octet == b'\n' || octet == b'-'
}

// Whether the first line of a text may be a boundary line, by the octet that would follow the boundary, where one line would hold both.
fn may_divide(text: &[u8], boundary: &[u8]) -> bool
    ensures { result ≡ false → IsFirstInside boundary.now text.now }
{
    let place = boundary.len() + 2;
    if text.len() <= place || text[place - 1] == b'\n' {
        return true;
    }
    may_follow(text[place])
}

/// How each boundary line but one at the beginning begins, with the line end before it: what to look for (`dash-boundary`).
pub(crate) fn dash_boundary(alloc: Global, boundary: &[u8]) -> Result<Octets, AllocError>
    ensures { IfOk result (λ front. front ≡ sections.dash_boundary boundary.now) }
{
    let mut front = Octets::from_slice(alloc, b"\n--")?;
    front.extend_from_slice(boundary)?;
    Ok(front)
}

// What the first line of a text is, and what follows a boundary line.
fn first_mark<'t>(text: &'t [u8], boundary: &[u8]) -> (LineMark, &'t [u8])
    requires { 0 < length text.now }
    ensures { MarksFirst boundary.now text.now result.0 result.1.now }
{
    if !may_divide(text, boundary) {
        return (LineMark::Inside, text);
    }
    let (line, after) = first_line(text);
    (mark(line, boundary), after)
}

/// Cuts off the section that a text begins with, by a finder of the boundary's `dash_boundary`. One pass up to the boundary line that
/// ends it, which looks only at lines that begin as boundary lines do.
pub(crate) fn cut_section<'t>(
    text: &'t [u8],
    boundary: &[u8],
    finder: &Finder<'_>,
) -> SectionCut<'t>
    requires { finder.now ≡ sections.dash_boundary boundary.now }
    ensures { CutsSection boundary.now text.now result }
{
    let mut rest = text;
    'lines: while !rest.is_empty() {
        let (mark, after) = first_mark(rest, boundary);
        if !is_section_mark(mark) {
            return SectionCut {
                section: without_end(text.split_at(text.len() - rest.len()).0),
                mark,
                after,
            };
        }
        rest = match finder.find(rest) {
            Some(at) => rest.split_at(at + 1).1,
            None => rest.split_at(rest.len()).1,
        };
    }
    SectionCut {
        section: text,
        mark: LineMark::Inside,
        after: rest,
    }
}
