//! The mailboxes that a run has filed the message into.
ghost use Rattle.std.specs.Prelude.{◌≡◌, nat_eq, OnOk};
ghost use Rattle.std.specs.List.{position};
ghost use Rattle.std.specs.Cmp.Lexicographic.{pointwise};
ghost use Rattle.sieve_syntax.specs.RunState.{is_filed as is_filed_in, has_room as has_room_for, with_filed};

use mail_flags::Placement;
use std::alloc::AllocError;

/// The most mailboxes into which a run files a message, including that of the implicit keep. Each costs a row of the store and
/// a file of a Maildir, and without this limit only the length of a script would limit them; nobody sorts one message into this many.
const MAX_MAILBOXES: usize = 100;

/// Whether the message may go into a mailbox: one more is allowed, or it goes there already. At most 100 comparisons of names.
pub(crate) fn has_room(filed: &[Placement], mailbox: &[u8]) -> bool
    ensures { result ≡ has_room_for filed.now mailbox.now }
{
    filed.len() < MAX_MAILBOXES || is_filed(filed, mailbox)
}

/// Whether a mailbox has a copy.
fn is_filed(filed: &[Placement], mailbox: &[u8]) -> bool
    ensures { result ≡ is_filed_in filed.now mailbox.now }
{
    filed.iter().any(|there| is_in(there, mailbox))
}

/// Adds a copy; if its mailbox has one already, this one replaces it. At most 100 comparisons of names.
pub(crate) fn file(filed: &mut Vec<Placement>, one: Placement) -> Result<(), AllocError>
    ensures { OnOk result (filed.new.items ≡ with_filed filed.old.items one) }
{
    match place_of(filed.as_slice(), one.mailbox.as_slice()) {
        Some(place) => {
            filed[place] = one;
            Ok(())
        }
        None => {
            filed.push(one)?;
            Ok(())
        }
    }
}

/// The index of the copy that is in a mailbox, if one is.
fn place_of(filed: &[Placement], mailbox: &[u8]) -> Option<usize>
    ensures { result ≡ position (λ there. pointwise nat_eq there.mailbox mailbox.now) filed.now }
{
    filed.iter().position(|there| is_in(there, mailbox))
}

/// Whether a copy is in a mailbox.
fn is_in(there: &Placement, mailbox: &[u8]) -> bool
    ensures { result ≡ pointwise nat_eq there.now.mailbox mailbox.now }
{
    there.mailbox.as_slice() == mailbox
}
