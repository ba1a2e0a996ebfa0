//! What a search looks for: octets that are read one after the other, as a text spells them.
ghost use Rattle.std.specs.Prelude.{◌≡◌, ℕ, ◌+◌, ◌<◌, length, slice_index};
ghost use Rattle.sieve_match.specs.declared.spelling.KeyCursor.{KeyCursor};

/// A position in a key: the index of an octet, and where the key's text spells it.
#[derive(Clone, Copy, Debug)]
pub struct KeyCursor {
    /// The index of the octet in the key, from 0.
    pub index: usize,
    /// Where it is spelled: an index into the key's text, from 0.
    pub place: usize,
}

/// A list of octets that is read from the beginning, or from a spot that was search_end before.
pub trait Key {
    // The number of octets.
    ghost size: { Self → ℕ };

    // The octet at an index.
    ghost octet_at: { Self → ℕ → ℕ };

    // The octet at the spot's index is spelled at the spot's place.
    ghost is_spot: { Self → KeyCursor → Type 0 };

    /// The number of octets.
    fn len(&self) -> usize
        ensures { result ≡ size self.now };

    /// Where the first octet is spelled.
    fn first(&self) -> KeyCursor
        ensures index { result.index ≡ 0 }
        ensures spot { is_spot self.now result };

    /// The octet at a spot.
    fn octet(&self, spot: KeyCursor) -> u8
        requires below { spot.index < size self.now }
        requires spot { is_spot self.now spot }
        ensures { result ≡ octet_at self.now spot.index };

    /// Where the next octet is spelled; after the last one, the end.
    fn next(&self, spot: KeyCursor) -> KeyCursor
        requires below { spot.index < size self.now }
        requires spot { is_spot self.now spot }
        ensures index { result.index ≡ spot.index + 1 }
        ensures spot { is_spot self.now result };
}

/// A key whose text is the key itself.
#[derive(Clone, Copy, Debug)]
pub struct PlainKey<'a> {
    /// The octets.
    pub octets: &'a [u8],
}

impl Key for PlainKey<'_> {
    ghost size = { λ key. length key.octets.now };

    ghost octet_at = { λ key k. slice_index key.octets.now k };

    ghost is_spot = { λ key spot. spot.place ≡ spot.index };

    #[inline(always)]
    fn len(&self) -> usize {
        self.octets.len()
    }

    #[inline(always)]
    fn first(&self) -> KeyCursor {
        KeyCursor { index: 0, place: 0 }
    }

    #[inline(always)]
    fn octet(&self, spot: KeyCursor) -> u8 {
        self.octets[spot.place]
    }

    #[inline(always)]
    fn next(&self, spot: KeyCursor) -> KeyCursor {
        KeyCursor {
            index: spot.index + 1,
            place: spot.place + 1,
        }
    }
}
