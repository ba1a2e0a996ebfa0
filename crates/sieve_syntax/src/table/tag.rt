//! The names of tags (RFC 5228, 2.6.2).
ghost use Rattle.std.specs.Prelude.{◌≡◌};
ghost use Rattle.sieve_syntax.specs.Lexemes.{tag_of};

use crate::table::keyword::is_name;

/// A tag.
#[derive(Clone, Copy)]
pub enum Tag {
    Over,
    Under,
    Comparator,
    Is,
    Contains,
    Matches,
    Value,
    Count,
    All,
    LocalPart,
    Domain,
    User,
    Detail,
    Days,
    Seconds,
    Subject,
    From,
    Addresses,
    Mime,
    Handle,
    Copy,
    Create,
    Zone,
    OriginalZone,
    Flags,
    /// A tag of no command and no test.
    Other,
}

/// The tag with this name.
pub(crate) fn tag_named(name: &[u8]) -> Tag
    ensures { result ≡ tag_of name.now }
{
    if is_name(name, b"over") {
        Tag::Over
    } else if is_name(name, b"under") {
        Tag::Under
    } else if is_name(name, b"comparator") {
        Tag::Comparator
    } else if is_name(name, b"is") {
        Tag::Is
    } else if is_name(name, b"contains") {
        Tag::Contains
    } else if is_name(name, b"matches") {
        Tag::Matches
    } else if is_name(name, b"value") {
        Tag::Value
    } else if is_name(name, b"count") {
        Tag::Count
    } else if is_name(name, b"all") {
        Tag::All
    } else if is_name(name, b"localpart") {
        Tag::LocalPart
    } else if is_name(name, b"domain") {
        Tag::Domain
    } else if is_name(name, b"user") {
        Tag::User
    } else if is_name(name, b"detail") {
        Tag::Detail
    } else if is_name(name, b"days") {
        Tag::Days
    } else if is_name(name, b"seconds") {
        Tag::Seconds
    } else if is_name(name, b"subject") {
        Tag::Subject
    } else if is_name(name, b"from") {
        Tag::From
    } else if is_name(name, b"addresses") {
        Tag::Addresses
    } else if is_name(name, b"mime") {
        Tag::Mime
    } else if is_name(name, b"handle") {
        Tag::Handle
    } else if is_name(name, b"copy") {
        Tag::Copy
    } else if is_name(name, b"create") {
        Tag::Create
    } else if is_name(name, b"zone") {
        Tag::Zone
    } else if is_name(name, b"originalzone") {
        Tag::OriginalZone
    } else if is_name(name, b"flags") {
        Tag::Flags
    } else {
        Tag::Other
    }
}
