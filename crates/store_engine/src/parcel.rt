//! Messages for users, as they are handed in to be delivered.
ghost use Rattle.std.specs.Prelude.{◌≡◌, IfOk};
ghost use Rattle.std.specs.List.{AllZip};
ghost use Rattle.store_engine.specs.Deliveries.{IsOpened};

use crate::limits::limit_refusal;
use sieve_exec::{Envelope, Mail, When};
use sieve_plan::has_long_header;
use std::alloc::{AllocError, Global};
use store_accounts::Refusal;

/// A message for one user.
#[derive(Drop)]
pub struct Parcel<'a> {
    /// The user's name.
    pub user: &'a [u8],
    pub envelope: Envelope,
    /// The octets that were received.
    pub message: &'a [u8],
}

/// A parcel that was looked at, before the store is asked.
#[derive(Drop)]
pub(crate) enum OpenedParcel<'a> {
    /// This limit stands against it.
    Limited(Refusal),
    /// No limit does. The mail, unless its header has more than 1,048,576 octets.
    Accepted(Option<Mail<'a>>),
}

/// Looks at a parcel: at its sizes and addresses, and at its header if that isn't too long. Lack of memory is the only error.
fn open_parcel<'a>(
    alloc: Global,
    parcel: &Parcel<'a>,
    when: When,
) -> Result<OpenedParcel<'a>, AllocError>
    ensures { IfOk result (IsOpened when parcel.now) }
{
    if let Some(refusal) = limit_refusal(&parcel.envelope, parcel.message, when.moment) {
        return Ok(OpenedParcel::Limited(refusal));
    }
    if has_long_header(parcel.message) {
        return Ok(OpenedParcel::Accepted(None));
    }
    let envelope = parcel.envelope.try_clone(alloc)?;
    let mail = Mail::read(alloc, parcel.message, envelope, when)?;
    Ok(OpenedParcel::Accepted(Some(mail)))
}

/// Looks at each parcel, in order. Lack of memory is the only error.
pub(crate) fn open_parcels<'a>(
    alloc: Global,
    parcels: &[Parcel<'a>],
    when: When,
) -> Result<Vec<OpenedParcel<'a>>, AllocError>
    ensures { IfOk result (λ opened. AllZip (IsOpened when) parcels.now opened.items) }
{
    let mut opened = Vec::new(alloc);
    for parcel in parcels {
        opened.push(open_parcel(alloc, parcel, when)?)?;
    }
    Ok(opened)
}
