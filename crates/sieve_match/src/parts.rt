//! Segments: the items of a pattern from one star to the next.
ghost use Rattle.std.specs.Prelude.{◌≡◌, ◌↔◌, ℕ, ◌+◌, ◌-◌, ◌*◌, ◌<◌, ◌≤◌, true, false, length, drop, slice_index, slice_index_or, IsTrue};
ghost use Rattle.std.specs.List.{list_any};
ghost use Rattle.memchr.specs.Find.{IsFirst};
ghost use Rattle.sieve_match.specs.Costs.{search_end, part_steps, is_question_mark};
ghost use Rattle.sieve_match.specs.Places.{AreMasks};
ghost use Rattle.sieve_match.specs.declared.spelling.KeyCursor.{KeyCursor};
ghost use Rattle.sieve_match.specs.declared.pattern.GlobItem.TheVariants.{Star};
ghost use Rattle.sieve_match.specs.declared.pattern.TheConstants.{ANY_RUN};
ghost use Rattle.sieve_match.specs.Glob.{items};
ghost use Rattle.sieve_match.specs.Segments.{item_octet, item_takes_at, ItemsStandAt};

use crate::counting::{Steps, Watched};
use crate::masks::TABLE;
use crate::pattern::{GlobItem, read_item};
use crate::twoway::find_watched;
use crate::{Comparator, Key, KeyCursor, MAX_PLACES, Masks};
use std::sync::ledger::Ledger;

/// The items of a pattern up to a star or the pattern's end.
#[derive(Clone, Copy)]
pub(crate) struct Segment<'p> {
    pub(crate) pattern: &'p [u8],
    // Where the items begin.
    pub(crate) from: usize,
    // The place of the star after them, or the pattern's length.
    pub(crate) end: usize,
    // The number of items.
    pub(crate) count: usize,
    // Each item is one octet, and none is a `?`.
    pub(crate) literal: bool,
}

impl<'p> Segment<'p> {
    ghost use Rattle.sieve_match.specs.Reading.{IsSegment};

    // The segment that begins at a place of the pattern.
    pub(crate) fn read<L: Ledger>(
        pattern: &'p [u8],
        from: usize,
        steps: &mut Steps<L>,
    ) -> Segment<'p>
        requires { from ≤ length pattern.now }
        ensures pattern { result.pattern.now ≡ pattern.now }
        ensures from { result.from ≡ from }
        ensures segment { IsSegment result }
        ensures cost { steps.new + from ≤ steps.old + result.end + 1 }
        ensures all { steps.old + result.count ≤ steps.new }
        ensures spelled { result.from + result.count ≤ result.end }
        ensures asterisk { result.end < length pattern.now → slice_index pattern.now result.end ≡ ANY_RUN }
        ensures question { result.literal ≡ false → list_any is_question_mark pattern.now ≡ true }
        ensures some { result.literal ≡ false → 0 < result.count }
    {
        let (mut end, mut count, mut literal) = (from, 0, true);
        while end < pattern.len() {
            steps.tick();
            let (item, next) = read_item(pattern, end);
            match item {
                GlobItem::Star => break,
                GlobItem::One => literal = false,
                GlobItem::Exact(_) => {}
            }
            end = next;
            count += 1;
        }
        Segment {
            pattern,
            from,
            end,
            count,
            literal,
        }
    }

    // Whether the items match the value's octets from place `at` on.
    pub(crate) fn stands_at<C: Comparator, L: Ledger>(
        &self,
        value: &Watched,
        at: usize,
        steps: &mut Steps<L>,
    ) -> bool
        requires segment { IsSegment self.now }
        requires within { at ≤ length value.now }
        ensures stands { IsTrue result ↔ ItemsStandAt C.image_of (items (drop self.now.from self.now.pattern.now))
            self.now.count value.now at }
        ensures cost { steps.new ≤ steps.old + self.now.count }
    {
        if value.len() - at < self.count {
            return false;
        }
        let mut place = self.from;
        for j in 0..self.count {
            let seen = value.octet(at + j, steps);
            let (item, next) = read_item(self.pattern, place);
            match item {
                GlobItem::Star => return false,
                GlobItem::One => {}
                GlobItem::Exact(octet) => {
                    if C::image(octet) != C::image(seen) {
                        return false;
                    }
                }
            }
            place = next;
        }
        true
    }

    // The masks of at most 63 items.
    fn masks<C: Comparator, L: Ledger>(&self, steps: &mut Steps<L>) -> Masks
        requires segment { IsSegment self.now }
        requires short { self.now.count ≤ 63 }
        ensures masks { AreMasks (item_takes_at C.image_of (items (drop self.now.from self.now.pattern.now))) self.now.count result }
        ensures cost { steps.new ≡ steps.old + self.now.count + 256 }
    {
        let mut masks = Masks::new();
        steps.add(TABLE);
        let mut place = self.from;
        for j in 0..self.count {
            steps.tick();
            let (item, next) = read_item(self.pattern, place);
            match item {
                GlobItem::Star => return masks,
                GlobItem::One => masks.push_any(),
                GlobItem::Exact(octet) => masks.push::<C>(octet),
            }
            place = next;
        }
        masks
    }

    // The first place of the value, from `from` on, at which the items match, of which there are at most 63.
    fn find_short<C: Comparator, L: Ledger>(
        &self,
        value: &Watched,
        from: usize,
        steps: &mut Steps<L>,
    ) -> Option<usize>
        requires segment { IsSegment self.now }
        requires short { self.now.count ≤ 63 }
        requires within { from ≤ length value.now }
        ensures found { IsFirst (ItemsStandAt C.image_of (items (drop self.now.from self.now.pattern.now)) self.now.count value.now)
            from (length value.now + 1) result }
        ensures cost { steps.new ≤ steps.old + (search_end (length value.now) result - from) + 2 * self.now.count + 256 }
    {
        let masks = self.masks::<C, L>(steps);
        masks.find_watched::<L>(value, from, steps)
    }

    // The first place of the value, from `from` on, at which the items match.
    pub(crate) fn find<C: Comparator, L: Ledger>(
        &self,
        value: &Watched,
        from: usize,
        steps: &mut Steps<L>,
    ) -> Option<usize>
        requires segment { IsSegment self.now }
        requires within { from ≤ length value.now }
        requires some { self.now.literal ≡ false → 0 < self.now.count }
        ensures found { IsFirst (ItemsStandAt C.image_of (items (drop self.now.from self.now.pattern.now)) self.now.count value.now)
            from (length value.now + 1) result }
        ensures cost { steps.new ≤ steps.old + part_steps self.now.literal self.now.count (search_end (length value.now) result - from) }
    {
        if self.literal {
            let key = Literal {
                pattern: self.pattern,
                from: self.from,
                count: self.count,
            };
            return find_watched::<C, Literal, L>(&key, value, from, steps);
        }
        if self.count <= MAX_PLACES {
            return self.find_short::<C, L>(value, from, steps);
        }
        for at in from..value.len() + 1 {
            if self.stands_at::<C, L>(value, at, steps) {
                return Some(at);
            }
        }
        None
    }
}

/// The octets of a segment's items, as the pattern spells them: a backslash before an octet isn't itself an octet of the key.
#[derive(Clone, Copy)]
pub(crate) struct Literal<'p> {
    pattern: &'p [u8],
    from: usize,
    count: usize,
    ghost within: { count ≤ length (items (drop from pattern.now)) },
}

impl Key for Literal<'_> {
    ghost size = { λ key. key.count };

    ghost octet_at = { λ key k. item_octet (slice_index_or (items (drop key.from key.pattern.now)) k Star) };

    ghost is_spot = { λ key spot. items (drop spot.place key.pattern.now) ≡ drop spot.index (items (drop key.from key.pattern.now)) };

    #[inline(always)]
    fn len(&self) -> usize {
        self.count
    }

    #[inline(always)]
    fn first(&self) -> KeyCursor {
        KeyCursor {
            index: 0,
            place: self.from,
        }
    }

    #[inline(always)]
    fn octet(&self, spot: KeyCursor) -> u8 {
        read_item(self.pattern, spot.place).0.octet()
    }

    #[inline(always)]
    fn next(&self, spot: KeyCursor) -> KeyCursor {
        let (_, place) = read_item(self.pattern, spot.place);
        KeyCursor {
            index: spot.index + 1,
            place,
        }
    }
}
