//! Paths: the addresses of MAIL and RCPT.
ghost use Rattle.std.specs.Prelude.{◌≡◌, ◌↔◌, ◌≤◌, ◌+◌, ◌∷◌, ℕ, List, IsTrue, IfSome, IfNone, length, take, drop};
ghost use Rattle.std.specs.List.{prefix_len};
ghost use Rattle.lmtp_dialogue.specs.declared.path.Quoting.TheVariants.{Outside as outside};
ghost use Rattle.lmtp_dialogue.specs.Paths as s;

/// Whether the next octet of an address is between quotation marks.
#[derive(Clone, Copy, Debug, PartialEq, Eq)]
pub enum Quoting {
    /// It isn't.
    Outside,
    /// It is.
    Inside,
    /// It is, after a backslash.
    Escaped,
}

impl Quoting {
    // Whether this octet ends the address.
    fn ends_at(self, octet: u8) -> bool
        ensures { IsTrue result ↔ ((self ≡ outside) × (octet ≡ 62)) }
    {
        match self {
            Quoting::Outside => octet == b'>',
            Quoting::Inside | Quoting::Escaped => false,
        }
    }

    // The state after this octet; none if this octet may not come here.
    pub(crate) fn after(self, octet: u8) -> Option<Quoting>
        ensures { s.AddressStepsTo self octet result }
    {
        match (self, octet) {
            (Quoting::Outside, b'"') => Some(Quoting::Inside),
            (Quoting::Outside, _) if is_plain(octet) => Some(Quoting::Outside),
            (Quoting::Inside, b'"') => Some(Quoting::Outside),
            (Quoting::Inside, b'\\') => Some(Quoting::Escaped),
            (Quoting::Inside | Quoting::Escaped, _) if is_shown(octet) => Some(Quoting::Inside),
            _ => None,
        }
    }
}

// A printable octet, or one over 127.
fn is_shown(octet: u8) -> bool
    ensures { result ≡ s.is_address_octet octet }
{
    octet >= 32 && octet != 127
}

// An octet that may be outside quotation marks.
fn is_plain(octet: u8) -> bool
    ensures { result ≡ s.is_unquoted_octet octet }
{
    is_shown(octet) && !matches!(octet, b' ' | b'"' | b'<' | b'>' | b'\\')
}

// How many octets the address has that a text begins with, up to the first `>` outside quotation marks; none if it begins with
// none.
fn address_length(text: &[u8]) -> Option<usize>
    ensures found { IfSome result (λ count. (count + 1 ≤ length text.now) × s.EndsAddress text.now (take count text.now) (drop (count + 1) text.now)) }
    ensures none { IfNone result ((address rest : List ℕ) → s.EndsAddress text.now address rest → ⊥) }
{
    let mut quoting = Quoting::Outside;
    for (at, octet) in text.iter().enumerate() {
        if quoting.ends_at(*octet) {
            return Some(at);
        }
        let Some(next) = quoting.after(*octet) else {
            return None;
        };
        quoting = next;
    }
    None
}

/// A path and what follows it.
#[derive(Clone, Copy)]
pub struct Path<'a> {
    /// The address between `<` and `>`, as it is written; empty for `<>`. A source route is left out.
    pub address: &'a [u8],
    /// The octets after `>`.
    pub rest: &'a [u8],
}

/// The path that a text begins with (RFC 5321, section 4.1.2); none if it begins with none. One pass; takes no memory.
pub fn read_path(text: &[u8]) -> Option<Path<'_>>
    ensures found { IfSome result (λ path. s.IsPath text.now path.address.now path.rest.now) }
    ensures none { IfNone result ((address rest : List ℕ) → s.IsPath text.now address rest → ⊥) }
{
    let Some(inner) = strip(text, b'<') else {
        return None;
    };
    let Some(bare) = after_route(inner) else {
        return None;
    };
    let Some(count) = address_length(bare) else {
        return None;
    };
    Some(Path {
        address: &bare[..count],
        rest: &bare[count + 1..],
    })
}

// What follows a route, or all if there is none; none if an `@` at the start begins no route, or follows one.
fn after_route(text: &[u8]) -> Option<&[u8]>
    ensures found { IfSome result (λ bare. s.FollowsRoute text.now bare.now) }
    ensures none { IfNone result ((bare : List ℕ) → s.FollowsRoute text.now bare → ⊥) }
{
    let Some(hops) = strip(text, b'@') else {
        return Some(text);
    };
    let count = hop_length(hops);
    let Some(bare) = strip(&hops[count..], b':') else {
        return None;
    };
    match strip(bare, b'@') {
        Some(_) => None,
        None => Some(bare),
    }
}

// What follows that octet at the start.
pub(crate) fn strip(text: &[u8], wanted: u8) -> Option<&[u8]>
    ensures found { IfSome result (λ rest. text.now ≡ wanted ∷ rest.now) }
    ensures none { IfNone result ((rest : List ℕ) → text.now ≡ wanted ∷ rest → ⊥) }
{
    match text.split_first() {
        Some((octet, rest)) if *octet == wanted => Some(rest),
        _ => None,
    }
}

// How many octets at the start may be in a route's hops.
fn hop_length(text: &[u8]) -> usize
    ensures value { result ≡ prefix_len s.is_hop text.now }
    ensures within { result ≤ length text.now }
{
    text.iter().take_while(|octet| is_hop(**octet)).count()
}

// One that may be in a route's hops.
fn is_hop(octet: u8) -> bool
    ensures { result ≡ s.is_hop octet }
{
    is_plain(octet) && octet != b':'
}
