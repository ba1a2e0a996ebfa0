//! The octets of a response (RFC 5230, 5; RFC 3834, 3).
ghost use Rattle.std.specs.Prelude.{◌≡◌, ◌≤◌, ◌++◌, codes, IfOk, OnOk};
ghost use Rattle.sieve_vacation.specs.Dates.{IsUtcDateText};
ghost use Rattle.sieve_vacation.specs.Layout as layout;

use crate::body::write_body;
use crate::date::{MAX_MOMENT, write_date};
use crate::from::write_from;
use crate::subject::write_subject;
use mail_address::Addr;
use octets::Octets;
use sieve_exec::Mail;
use sieve_syntax::VacationArgs;
use std::alloc::{AllocError, Global};

/// Returns the response of the user with this address to a mail at this moment: a header of at most eight lines, and a body.
///
/// A moment is in seconds since 1 January 1970, up to [`MAX_MOMENT`]. Linear in the arguments and in the mail's header;
/// lack of memory is the only error.
pub fn reply_bytes(
    alloc: Global,
    args: &VacationArgs,
    mail: &Mail<'_>,
    own: &Addr,
    moment: u64,
) -> Result<Octets, AllocError>
    requires { moment ≤ MAX_MOMENT }
    ensures { IfOk result (layout.IsVacationReply args.now mail.now own.now moment) }
{
    let mut reply = Octets::new(alloc);
    write_from(alloc, &mut reply, &args.from, own)?;
    write_to(&mut reply, mail.from())?;
    write_subject(alloc, &mut reply, args, mail)?;
    write_date_line(&mut reply, moment)?;
    write_body(alloc, &mut reply, args, mail)?;
    Ok(reply)
}

/// Appends what precedes a value, the value and what follows it.
pub(crate) fn push_parts(
    out: &mut Octets,
    front: &[u8],
    value: &[u8],
    back: &[u8],
) -> Result<(), AllocError>
    ensures { OnOk result (out.new ≡ out.old ++ (front.now ++ (value.now ++ back.now))) }
{
    out.extend_from_slice(front)?;
    out.extend_from_slice(value)?;
    out.extend_from_slice(back)
}

/// Appends the line To.
fn write_to(out: &mut Octets, sender: &[u8]) -> Result<(), AllocError>
    ensures { OnOk result (out.new ≡ out.old ++ layout.to_line sender.now) }
{
    push_parts(out, b"To: <", sender, b">\r\n")
}

/// Appends the line Date.
fn write_date_line(out: &mut Octets, moment: u64) -> Result<(), AllocError>
    requires { moment ≤ MAX_MOMENT }
    ensures { OnOk result (layout.WritesLine (codes "Date: ") (IsUtcDateText moment) out.old out.new) }
{
    out.extend_from_slice(b"Date: ")?;
    write_date(out, moment)?;
    out.extend_from_slice(b"\r\n")
}
