//! How a pattern spells its items.
ghost use Rattle.std.specs.Prelude.{◌≡◌, ◌+◌, ◌<◌, ◌≤◌, ◌∷◌, length, drop, slice_index};
ghost use Rattle.sieve_match.specs.Glob.{unquoted_item, items};

/// The octet that spells a star.
pub(crate) const ANY_RUN: u8 = b'*';

/// The octet that spells any one octet.
pub(crate) const ANY_OCTET: u8 = b'?';

/// The octet that makes the next one stand for itself.
pub(crate) const QUOTE: u8 = b'\\';

/// An item of a pattern.
#[derive(Clone, Copy, Debug)]
pub enum GlobItem {
    /// `*`: any number of octets, also none.
    Star,
    /// `?`: any one octet.
    One,
    /// One octet with the image of this one.
    Exact(u8),
}

impl GlobItem {
    ghost use Rattle.sieve_match.specs.Segments.{item_octet};

    // The octet that an item is written with.
    #[inline(always)]
    pub(crate) fn octet(self) -> u8
        ensures { result ≡ item_octet self }
    {
        match self {
            GlobItem::Star => ANY_RUN,
            GlobItem::One => ANY_OCTET,
            GlobItem::Exact(octet) => octet,
        }
    }
}

// The item that an octet spells without a backslash before it.
#[inline(always)]
fn unquoted(octet: u8) -> GlobItem
    ensures { result ≡ unquoted_item octet }
{
    if octet == ANY_RUN {
        return GlobItem::Star;
    }
    if octet == ANY_OCTET {
        return GlobItem::One;
    }
    GlobItem::Exact(octet)
}

// The item at a place of a pattern, and the place after it.
#[inline(always)]
pub(crate) fn read_item(pattern: &[u8], place: usize) -> (GlobItem, usize)
    requires { place < length pattern.now }
    ensures later { place < result.1 }
    ensures within { result.1 ≤ length pattern.now }
    ensures item { items (drop place pattern.now) ≡ result.0 ∷ items (drop result.1 pattern.now) }
    ensures star { result.0 ≡ GlobItem.Star → result.1 ≡ place + 1 }
    ensures asterisk { result.0 ≡ GlobItem.Star → slice_index pattern.now place ≡ ANY_RUN }
    ensures question { result.0 ≡ GlobItem.One → slice_index pattern.now place ≡ ANY_OCTET }
{
    let octet = pattern[place];
    if octet == QUOTE && place + 1 < pattern.len() {
        return (GlobItem::Exact(pattern[place + 1]), place + 2);
    }
    (unquoted(octet), place + 1)
}
