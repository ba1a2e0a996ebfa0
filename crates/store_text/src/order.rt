//! The order of the parts of an account, and which part may follow which.
ghost use Rattle.std.specs.Prelude.{◌≡◌, ◌^◌, nat_lt, option_copied};
ghost use Rattle.std.specs.List.{list_any};
ghost use Rattle.store_text.specs.Order.{part_rank, part_number as number_in, part_key as key_in, part_second as second_in, part_cmp, has_come as has_come_in, joins as joins_in, follows as follows_in, fits as fits_in, is_given as is_given_by, are_numbers as are_numbers_in, is_counter as is_counter_of, has_active as has_active_in, is_script as is_script_of};

use crate::head::Numbers;
use crate::part::Part;
use octets::Octets;
use std::cmp::Ordering;

/// Scripts come first, then moments, messages in folders, messages on their way out, notices.
fn rank(part: &Part) -> u8
    ensures { result ≡ part_rank part.now }
{
    match part {
        Part::Script { .. } => 0,
        Part::Reply { .. } => 1,
        Part::Mail { .. } | Part::Copy { .. } => 2,
        Part::Letter { .. } => 3,
        Part::Notice { .. } => 4,
    }
}

fn number(part: &Part) -> u64
    ensures { result ≡ number_in part.now }
{
    match part {
        Part::Script { .. } | Part::Reply { .. } => 0,
        Part::Mail { number, .. } => *number,
        Part::Copy { number, .. } => *number,
        Part::Letter { id, .. } => *id,
        Part::Notice { number, .. } => *number,
    }
}

/// The name of a script, or the handle of a moment.
fn key(part: &Part) -> &[u8]
    ensures { result.now ≡ key_in part.now }
{
    match part {
        Part::Script { name, .. } => name.as_slice(),
        Part::Reply { handle, .. } => handle.as_slice(),
        _ => &[],
    }
}

/// The sender of a moment.
fn second(part: &Part) -> &[u8]
    ensures { result.now ≡ second_in part.now }
{
    match part {
        Part::Reply { sender, .. } => sender.as_slice(),
        _ => &[],
    }
}

/// Compares by rank, by number, by the octets of the name or the handle, and by those of the sender.
fn compare(a: &Part, b: &Part) -> Ordering
    ensures { result ≡ part_cmp a.now b.now }
{
    rank(a)
        .cmp(&rank(b))
        .then(number(a).cmp(&number(b)))
        .then(key(a).cmp(key(b)))
        .then(second(a).cmp(second(b)))
}

/// Whether the part before is a copy of the same message.
fn has_come(first: u64, last: Option<&Part>) -> bool
    ensures { result ≡ has_come_in first (option_copied last.entry) }
{
    match last {
        Some(Part::Mail { number, .. }) => *number == first,
        Some(Part::Copy { first: other, .. }) => *other == first,
        _ => false,
    }
}

/// Whether a copy comes after its message or another copy of it.
fn joins(last: Option<&Part>, part: &Part) -> bool
    ensures { result ≡ joins_in (option_copied last.entry) part.now }
{
    match part {
        Part::Copy { first, .. } => has_come(*first, last),
        _ => true,
    }
}

/// Whether the part may come after the last one.
pub(crate) fn follows(last: Option<&Part>, part: &Part) -> bool
    ensures { result ≡ follows_in (option_copied last.entry) part.now }
{
    let is_later = match last {
        Some(last) => compare(last, part).is_lt(),
        None => true,
    };
    is_later && joins(last, part)
}

/// Whether a counter that gives `next` next has given the number.
fn is_given(next: u64, number: u64) -> bool
    ensures { result ≡ is_given_by next number }
{
    1 <= number && number < next
}

/// Whether a database can hold the moment.
fn is_moment(moment: u64) -> bool
    ensures { result ≡ nat_lt moment (2 ^ 63) }
{
    moment < 1 << 63
}

/// Whether the account gave the part's numbers, and a database can hold its moment.
pub(crate) fn fits(numbers: &Numbers, part: &Part) -> bool
    ensures { result ≡ fits_in numbers.now part.now }
{
    match part {
        Part::Script { .. } => true,
        Part::Reply { moment, .. } => is_moment(*moment),
        Part::Mail { number, .. } => is_given(numbers.next_copy, *number),
        Part::Copy { number, first, .. } => {
            is_given(numbers.next_copy, *number) && is_given(numbers.next_copy, *first)
        }
        Part::Letter { id, .. } => is_given(numbers.next_out, *id),
        Part::Notice { number, moment, .. } => {
            is_given(numbers.next_notice, *number) && is_moment(*moment)
        }
    }
}

fn is_counter(next: u64) -> bool
    ensures { result ≡ is_counter_of next }
{
    1 <= next && next < 1 << 63
}

/// Whether a database can hold the counters.
pub(crate) fn are_numbers(numbers: Numbers) -> bool
    ensures { result ≡ are_numbers_in numbers }
{
    is_counter(numbers.next_copy) && is_counter(numbers.next_out) && is_counter(numbers.next_notice)
}

/// Whether the part is the script with the name.
fn is_script(name: &[u8], part: &Part) -> bool
    ensures { result ≡ is_script_of name.now part.now }
{
    match part {
        Part::Script { name: other, .. } => name == other.as_slice(),
        _ => false,
    }
}

/// Whether the active script, if there is one, is one of the scripts.
pub(crate) fn has_active(active: Option<&Octets>, parts: &[Part]) -> bool
    ensures { result ≡ has_active_in (option_copied active.entry) parts.now }
{
    match active {
        Some(name) => has_script(name.as_slice(), parts),
        None => true,
    }
}

/// Whether one of the parts is the script with the name.
fn has_script(name: &[u8], parts: &[Part]) -> bool
    ensures { result ≡ list_any (is_script_of name.now) parts.now }
{
    parts.iter().any(|part| is_script(name, part))
}
