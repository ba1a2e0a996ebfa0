//! The sizes of what a test looks at.
ghost use Rattle.std.specs.Prelude.{◌+◌, ◌^◌, ◌≤◌, ◌<◌};
ghost use Rattle.std.specs.Option.{SomeIff};
ghost use Rattle.sieve_exec.specs.Sizes.{AreSizesWithin, sizes_of, sizes_and};

use octets::Octets;

/// How large values are.
#[derive(Clone, Copy)]
pub struct Sizes {
    /// Their octets, and eight more for each.
    pub octets: u64,
    /// The number of values.
    pub count: u64,
}

impl Sizes {
    /// The sizes of no values.
    pub(crate) const NONE: Sizes = Sizes {
        octets: 0,
        count: 0,
    };

    /// These and others together, or `None` if that is more than `most` octets.
    pub(crate) fn and(self, other: Sizes, most: u64) -> Option<Sizes>
        requires here { self.count ≤ self.octets }
        requires there { other.count ≤ other.octets }
        requires room { self.octets ≤ most }
        ensures { AreSizesWithin most (sizes_and self other) result }
    {
        if most - self.octets < other.octets {
            return None;
        }
        Some(Sizes {
            octets: self.octets + other.octets,
            count: self.count + other.count,
        })
    }

    /// These and one more text of this length, or `None` if that is more than `most` octets.
    pub(crate) fn and_text(self, len: usize, most: u64) -> Option<Sizes>
        requires here { self.count ≤ self.octets }
        requires room { self.octets ≤ most }
        ensures { AreSizesWithin most (sizes_and self (record { octets = len + 8; count = 1 })) result }
    {
        let octets = text_size(len)?;
        self.and(Sizes { octets, count: 1 }, most)
    }
}

/// The size of a text of that many octets: eight more, since short texts take time too. `None` if it exceeds the numbers.
pub(crate) fn text_size(len: usize) -> Option<u64>
    ensures { SomeIff result (len + 8 < 2 ^ 64) (len + 8) }
{
    (len as u64).checked_add(8)
}

/// The sizes of texts, or `None` if they have more than `most` octets. One pass over the list; takes no memory.
pub(crate) fn sizes_in(texts: &[Octets], most: u64) -> Option<Sizes>
    ensures { AreSizesWithin most (sizes_of texts.now) result }
{
    let mut sizes = Sizes::NONE;
    for text in texts {
        sizes = sizes.and_text(text.len(), most)?;
    }
    Some(sizes)
}
