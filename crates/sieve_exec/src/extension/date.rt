//! `date`: the tests of the date in a field and of the moment of delivery, `date` and `currentdate` (RFC 5260, 4 and 5).
ghost use Rattle.std.specs.Prelude.{◌≡◌, ◌↔◌, ◌+◌, ◌*◌, IsTrue, None, Some, MatchOption, IfOk, IfSome, codes, nat_eq};
ghost use Rattle.std.specs.Option.{option_and_then};
ghost use Rattle.std.specs.Cmp.Lexicographic.{pointwise};
ghost use Rattle.mail_dates.specs.declared.date_time.DateTime.{DateTime};
ghost use Rattle.mail_dates.specs.DateTimes.{IsDateTime, IsZone, IsMoment, IsSameMoment};
ghost use Rattle.mail_dates.specs.Finding.{date_of};
ghost use Rattle.sieve_exec.specs.Indexes.{raws_keyed};
ghost use Rattle.sieve_exec.specs.Sizes.{IsLeft, text_size, short_sizes, keys_work};
ghost use Rattle.sieve_exec.specs.Extension.Date.{IsDateShown, date_part_of, date_matches, first_size, date_work, current_work};
ghost use Rattle.sieve_exec.specs.Extension.Date as spec;

use crate::extension::relational::is_count;
use crate::mail::Mail;
use crate::matching::{count_matches, matches_some};
use crate::work::{SHORT, spend, spend_keys, spend_text};
use mail_dates::{DateTime, read_date, write_part};
use mail_head::unfold_value;
use memchr::memrchr;
use octets::{Octets, lowered};
use sieve_syntax::{Collation, CurrentDate, DatePart, DateTest, DateZone, Matching};
use std::alloc::{AllocError, Global};

/// Whether `date` holds (RFC 5260, 4). Linear in the value of the one field that is read.
pub(crate) fn date_holds(
    alloc: Global,
    mail: &Mail<'_>,
    test: &DateTest,
) -> Result<bool, AllocError>
    ensures { IfOk result (λ holds. holds ≡ spec.date_holds mail.now test.now) }
{
    let found = field_date(alloc, mail, test.field.as_slice())?;
    if is_count(test.matching) {
        return Ok(count_matches(
            test.comparator,
            test.matching,
            test.keys.as_slice(),
            u128::from(found.is_some()),
        ));
    }
    match found {
        Some(date) => shown_matches(alloc, mail, test, date),
        None => Ok(false),
    }
}

/// Whether `currentdate` holds (RFC 5260, 5).
pub(crate) fn current_holds(
    alloc: Global,
    mail: &Mail<'_>,
    test: &CurrentDate,
) -> Result<bool, AllocError>
    ensures { IfOk result (λ holds. holds ≡ spec.current_holds mail.now test.now) }
{
    if is_count(test.matching) {
        return Ok(count_matches(test.comparator, test.matching, test.keys.as_slice(), 1));
    }
    let zone = test.zone.unwrap_or(mail.zone());
    match at_moment(mail.moment(), zone) {
        Some(date) => part_matches(
            alloc,
            test.comparator,
            test.matching,
            test.keys.as_slice(),
            test.part,
            &date,
        ),
        None => Ok(false),
    }
}

/// Whether the part of a date matches some key, by the clock of the zone that the test asks for.
fn shown_matches(
    alloc: Global,
    mail: &Mail<'_>,
    test: &DateTest,
    date: DateTime,
) -> Result<bool, AllocError>
    requires { IsDateTime date }
    ensures { IfOk result (λ holds. holds ≡ spec.shown_passes mail.now test.now.zone (date_matches test.now.comparator test.now.matching test.now.keys test.now.part) date) }
{
    match shown(mail, test.zone, date) {
        Some(date) => part_matches(
            alloc,
            test.comparator,
            test.matching,
            test.keys.as_slice(),
            test.part,
            &date,
        ),
        None => Ok(false),
    }
}

/// Whether the part of a date matches some key.
fn part_matches(
    alloc: Global,
    comparator: Collation,
    matching: Matching,
    keys: &[Octets],
    part: DatePart,
    date: &DateTime,
) -> Result<bool, AllocError>
    requires { IsDateTime date.now }
    ensures { IfOk result (λ holds. holds ≡ date_matches comparator matching keys.now part date.now) }
{
    let mut text = Octets::new(alloc);
    write_part(&mut text, part, date)?;
    Ok(matches_some(comparator, matching, keys, text.as_slice()))
}

/// A date by the clock of the zone that a test asks for; `None` if its year there isn't from 0 to 9999.
fn shown(mail: &Mail<'_>, zone: DateZone, date: DateTime) -> Option<DateTime>
    requires { IsDateTime date }
    ensures exact { MatchOption result ((other : DateTime) → IsDateShown mail.now zone date other → ⊥) (λ other. IsDateShown mail.now zone date other) }
    ensures valid { IfSome result IsDateTime }
{
    match zone {
        DateZone::Host => in_zone(date, mail.zone()),
        DateZone::Given(minutes) => in_zone(date, minutes),
        DateZone::Original => Some(date),
    }
}

/// Whether these minutes are less than a day.
fn is_zone(minutes: i16) -> bool
    ensures { IsTrue result ↔ IsZone minutes }
{
    -1440 < minutes && minutes < 1440
}

/// The same moment in another zone; `None` if that isn't a zone, or if the year there isn't from 0 to 9999.
fn in_zone(date: DateTime, zone: i16) -> Option<DateTime>
    requires { IsDateTime date }
    ensures { MatchOption result ((other : DateTime) → IsSameMoment date zone other → ⊥) (λ other. IsSameMoment date zone other) }
{
    if !is_zone(zone) {
        return None;
    }
    date.in_zone(zone)
}

/// The date of a moment in a zone; `None` if that isn't a zone, or if the year there is past 9999.
fn at_moment(moment: u64, zone: i16) -> Option<DateTime>
    ensures { MatchOption result ((date : DateTime) → IsMoment moment zone date → ⊥) (λ date. IsMoment moment zone date) }
{
    if !is_zone(zone) {
        return None;
    }
    DateTime::from_moment(moment, zone)
}

/// The date in the first field with a name, whose ASCII case is ignored. Linear in its value.
fn field_date(alloc: Global, mail: &Mail<'_>, name: &[u8]) -> Result<Option<DateTime>, AllocError>
    ensures is { IfOk result (λ found. found ≡ spec.field_date mail.now name.now) }
    ensures valid { IfOk result (λ found. IfSome found IsDateTime) }
{
    let key = lowered(alloc, name)?;
    match mail.first_raw(&key) {
        Some(raw) => {
            let value = unfold_value(alloc, raw)?;
            Ok(date_in(key.as_slice(), value.as_slice()))
        }
        None => Ok(None),
    }
}

/// The date in the value of a field whose name in lower case is the key. Linear; takes no memory.
fn date_in(key: &[u8], value: &[u8]) -> Option<DateTime>
    ensures is { result ≡ option_and_then date_of (date_part_of (pointwise nat_eq key.now (codes "received")) value.now) }
    ensures valid { IfSome result IsDateTime }
{
    if key == b"received".as_slice() {
        read_date(after_last(value)?)
    } else {
        read_date(value)
    }
}

/// What follows the last semicolon of a text (RFC 5322, 3.6.7). Linear; takes no memory.
fn after_last(text: &[u8]) -> Option<&[u8]>
    ensures { MatchOption result (spec.after_last text.now ≡ None) (λ behind. spec.after_last text.now ≡ Some behind.now) }
{
    let at = memrchr(b';', text)?;
    Some(text.split_at(at + 1).1)
}

/// What `date` leaves.
pub(crate) fn spend_date(
    alloc: Global,
    mail: &Mail<'_>,
    test: &DateTest,
    left: u64,
) -> Result<Option<u64>, AllocError>
    ensures { IfOk result (IsLeft left (date_work mail.now test.now)) }
{
    let key = lowered(alloc, test.field.as_slice())?;
    Ok(spend_first(mail, test, &key, left))
}

/// What `date` leaves, given the field's name in lower case.
fn spend_first(mail: &Mail<'_>, test: &DateTest, key: &Octets, left: u64) -> Option<u64>
    ensures { IsLeft left (16 * (text_size test.now.field + first_size (raws_keyed mail.now.fields key.now)) + keys_work 1 test.now.matching short_sizes test.now.keys) result }
{
    let read = spend_read(left, mail, test.field.as_slice(), key)?;
    spend_keys(read, 1, test.matching, SHORT, test.keys.as_slice())
}

/// What looking up a field, whose name in lower case is the key, and reading its first value leaves.
fn spend_read(left: u64, mail: &Mail<'_>, field: &[u8], key: &Octets) -> Option<u64>
    ensures { IsLeft left (16 * (text_size field.now + first_size (raws_keyed mail.now.fields key.now))) result }
{
    let named = spend_text(left, field)?;
    let read = match mail.first_raw(key) {
        Some(raw) => spend_text(named, raw)?,
        None => named,
    };
    spend(left, (left - read).checked_mul(16)?)
}

/// What `currentdate` leaves.
pub(crate) fn spend_current(test: &CurrentDate, left: u64) -> Option<u64>
    ensures { IsLeft left (current_work test.now) result }
{
    spend_keys(left, 1, test.matching, SHORT, test.keys.as_slice())
}
