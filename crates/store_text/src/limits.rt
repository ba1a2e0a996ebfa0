//! What a text can have: numbers that were given, and fields of any length.
ghost use Rattle.std.specs.Prelude.{◌≡◌, ◌<◌, ◌^◌, ◌↔◌, true, IsTrue, option_copied, option_to_list};
ghost use Rattle.store_text.specs.Fields.{owner_fields, flags_fields};
ghost use Rattle.store_text.specs.Limits.{MayHave, part_texts};
ghost use Rattle.store_text.specs.Netstring.{AreFields, IsNetstringField};
ghost use Rattle.store_text.specs.Order.{are_numbers as are_numbers_in};
ghost use Rattle.store_text.specs.Text.{IsHead};

use crate::head::{AccountHead, AccountOwner, Numbers};
use crate::netstring::MAX_FIELD;
use crate::order::{are_numbers, fits};
use crate::part::Part;
use octets::Octets;

/// Whether a text can have this head: its counters are at least 1 and below 2^63. No field is too long: none in memory has 2^63 octets.
pub fn is_head(head: &AccountHead) -> bool
    ensures { IsTrue result ↔ IsHead head.now }
{
    has_counters(head.numbers) && has_owner_fields(&head.owner)
}

/// Whether the counters are at least 1 and below 2^63.
fn has_counters(numbers: Numbers) -> bool
    ensures { IsTrue result ↔ ((numbers.rounds < 2 ^ 32) × (are_numbers_in numbers ≡ true)) }
{
    are_numbers(numbers)
}

/// Whether the text of an account with these numbers can have the part: the account gave its numbers, and its moment is below 2^63.
/// No field is too long: none in memory has 2^63 octets.
pub fn may_have(numbers: Numbers, part: &Part) -> bool
    ensures { IsTrue result ↔ MayHave numbers part.now }
{
    fits(&numbers, part) && has_texts(part)
}

fn is_field(text: &Octets) -> bool
    ensures { IsTrue result ↔ IsNetstringField text.now }
{
    text.len() as u64 <= MAX_FIELD
}

fn has_owner_fields(owner: &AccountOwner) -> bool
    ensures { IsTrue result ↔ AreFields (owner_fields owner.now) }
{
    is_field(&owner.name)
        && is_field(&owner.address)
        && is_field(&owner.salt)
        && is_field(&owner.digest)
        && is_name(owner.active.as_ref())
}

/// Whether the name, if there is one, fits a field.
fn is_name(name: Option<&Octets>) -> bool
    ensures { IsTrue result ↔ AreFields (option_to_list (option_copied name.entry)) }
{
    match name {
        Some(name) => is_field(name),
        None => true,
    }
}

/// Whether the flags, if there are any, fit a field.
fn are_flags(flags: &Octets) -> bool
    ensures { IsTrue result ↔ AreFields (flags_fields flags.now) }
{
    is_field(flags)
}

/// Whether no text of the part is too long for a field. A number never is.
fn has_texts(part: &Part) -> bool
    ensures { IsTrue result ↔ AreFields (part_texts part.now) }
{
    match part {
        Part::Script { name, text } => is_field(name) && is_field(text),
        Part::Reply { handle, sender, .. } => is_field(handle) && is_field(sender),
        Part::Mail {
            folder,
            message,
            flags,
            ..
        } => is_field(folder) && is_field(message) && are_flags(flags),
        Part::Copy { folder, flags, .. } => is_field(folder) && are_flags(flags),
        Part::Letter {
            sender,
            target,
            message,
            ..
        } => is_field(sender) && is_field(target) && is_field(message),
        Part::Notice { text, .. } => is_field(text),
    }
}
