//! What all users have that has to be looked after: messages on their way out, and what went wrong in deliveries.
ghost use Rattle.std.specs.Prelude.{◌≡◌, ◌++◌, map, OnOk};
ghost use Rattle.cli_reports.specs.Listings.{notice_line, queue_line};
ghost use Rattle.cli_reports.specs.Reports.{ended_line};
ghost use Rattle.cli_run.specs.AllUsers.{named_line, named_lines};

use crate::all_users::AccountLines;
use cli_reports::{add_notice_line, add_queue_line};
use octets::Octets;
use sqlite::Alter;
use std::alloc::AllocError;
use store_accounts::{Notice, QueuedEnvelope, Refusal, Store};

/// A line for each message on its way out, behind the user's name; of a closed account none.
#[derive(Clone, Copy)]
pub struct QueueLines;

/// A line for each notice, behind the user's name; of a closed account none.
#[derive(Clone, Copy)]
pub struct NoticeLines;

impl AccountLines for QueueLines {
    ghost use Rattle.cli_run.specs.AllUsers.{named_queue};

    ghost lines = { λ listed name a. named_queue name a };

    fn add<S: Alter>(
        &self,
        store: &mut Store<S>,
        name: &[u8],
        text: &mut Octets,
    ) -> Result<(), Refusal> {
        let read = store.queue_heads(name);
        if let Err(Refusal::NoUser) = read {
            return Ok(());
        }
        let rows = read?;
        add_queue(name, rows.as_slice(), text)?;
        Ok(())
    }
}

impl AccountLines for NoticeLines {
    ghost use Rattle.cli_run.specs.AllUsers.{named_notices};

    ghost lines = { λ listed name a. named_notices name a };

    fn add<S: Alter>(
        &self,
        store: &mut Store<S>,
        name: &[u8],
        text: &mut Octets,
    ) -> Result<(), Refusal> {
        let read = store.notices(name);
        if let Err(Refusal::NoUser) = read {
            return Ok(());
        }
        let notices = read?;
        add_notices(name, notices.as_slice(), text)?;
        Ok(())
    }
}

/// Appends a line for each of the messages, behind the user's name.
fn add_queue(name: &[u8], rows: &[QueuedEnvelope], text: &mut Octets) -> Result<(), AllocError>
    ensures { OnOk result (text.new ≡ text.old ++ named_lines name.now (map queue_line rows.now)) }
{
    for row in rows {
        add_named_row(name, row, text)?;
    }
    Ok(())
}

/// Appends the line of a message, behind the user's name.
fn add_named_row(name: &[u8], row: &QueuedEnvelope, text: &mut Octets) -> Result<(), AllocError>
    ensures { OnOk result (text.new ≡ text.old ++ ended_line (named_line name.now (queue_line row.now))) }
{
    text.extend_from_slice(name)?;
    text.push(b' ')?;
    add_queue_line(text, row)
}

/// Appends a line for each of the notices, behind the user's name.
fn add_notices(name: &[u8], notices: &[Notice], text: &mut Octets) -> Result<(), AllocError>
    ensures { OnOk result (text.new ≡ text.old ++ named_lines name.now (map notice_line notices.now)) }
{
    for notice in notices {
        add_named_notice(name, notice, text)?;
    }
    Ok(())
}

/// Appends the line of a notice, behind the user's name.
fn add_named_notice(name: &[u8], notice: &Notice, text: &mut Octets) -> Result<(), AllocError>
    ensures { OnOk result (text.new ≡ text.old ++ ended_line (named_line name.now (notice_line notice.now))) }
{
    text.extend_from_slice(name)?;
    text.push(b' ')?;
    add_notice_line(text, notice)
}
