//! The lines of a user's queue and notices.
ghost use Rattle.std.specs.Prelude.{◌≡◌, ◌++◌, IfOk, OnOk};
ghost use Rattle.cli_reports.specs.Listings.{kind_word, notice_line, notice_listing, queue_line, queue_listing};
ghost use Rattle.cli_reports.specs.Reports.{ended_line};

use crate::address::add_address;
use octets::{Octets, write_decimal};
use std::alloc::{AllocError, Global};
use store_accounts::{Notice, QueuedEnvelope, QueuedKind};

/// A line for each message on its way out, in order: `1 redirect <bob@example.net> <c@example.com> 18`, which are its
/// number, kind, sender, target and size in octets. In an address an octet up to 32, 127, `<`, `>` or `\` is
/// written as `\` and two hexadecimal digits in lower case, so that a line has five words, and determines the row.
pub fn list_queue(alloc: Global, rows: &[QueuedEnvelope]) -> Result<Octets, AllocError>
    ensures { IfOk result (λ text. text ≡ queue_listing rows.now) }
{
    let mut text = Octets::new(alloc);
    for row in rows {
        add_queue_line(&mut text, row)?;
    }
    Ok(text)
}

/// A line for each notice, in order: `1700000000 vacation executed twice`, which are its moment in seconds since 1970 and
/// its text.
pub fn list_user_notices(alloc: Global, notices: &[Notice]) -> Result<Octets, AllocError>
    ensures { IfOk result (λ text. text ≡ notice_listing notices.now) }
{
    let mut text = Octets::new(alloc);
    for notice in notices {
        add_notice_line(&mut text, notice)?;
    }
    Ok(text)
}

/// Appends the line of a message on its way out. Lack of memory is the only error.
pub fn add_queue_line(text: &mut Octets, row: &QueuedEnvelope) -> Result<(), AllocError>
    ensures { OnOk result (text.new ≡ text.old ++ ended_line (queue_line row.now)) }
{
    write_decimal(text, row.id)?;
    text.extend_from_slice(b" ")?;
    text.extend_from_slice(word_of(row.kind))?;
    text.extend_from_slice(b" <")?;
    add_address(text, row.sender.as_slice())?;
    text.extend_from_slice(b"> <")?;
    add_address(text, row.target.as_slice())?;
    text.extend_from_slice(b"> ")?;
    write_decimal(text, row.len)?;
    text.push(b'\n')
}

/// The word for why a message goes out.
fn word_of(kind: QueuedKind) -> &'static [u8]
    ensures { result.now ≡ kind_word kind }
{
    match kind {
        QueuedKind::Redirect => b"redirect",
        QueuedKind::Reply => b"reply",
    }
}

/// Appends the line of a notice. Lack of memory is the only error.
pub fn add_notice_line(text: &mut Octets, notice: &Notice) -> Result<(), AllocError>
    ensures { OnOk result (text.new ≡ text.old ++ ended_line (notice_line notice.now)) }
{
    write_decimal(text, notice.moment)?;
    text.extend_from_slice(b" ")?;
    text.extend_from_slice(notice.text.as_slice())?;
    text.push(b'\n')
}
