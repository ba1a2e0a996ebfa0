//! Names and keys that are told apart by the images of their octets (RFC 4790, 9.2 and 9.3).
ghost use Rattle.std.specs.Prelude.{◌≡◌, IfOk, map};
ghost use Rattle.std.specs.Char.{to_ascii_uppercase};
ghost use Rattle.std.specs.Ordering.{nat_cmp};
ghost use Rattle.std.specs.Cmp.Lexicographic.{slice_cmp};
ghost use Rattle.std.specs.BTreeSet.{contains};
ghost use Rattle.sieve_exec.specs.Images.{text_image, AreImages, AnswerFor, AreApart};

use crate::slices::Slices;
use octets::Octets;
use sieve_syntax::Collation;
use std::alloc::{AllocError, Global};
use std::collections::BTreeSet;

/// The most names or keys that are asked as they stand. To put one into a set takes some 350 ns, to compare it with a value some 7.
pub(crate) const FEW: usize = 64;

/// The image of a text by a comparator; by `i;ascii-numeric`, which compares numbers, the text itself. Linear in the text.
fn image_of(alloc: Global, collation: Collation, text: &[u8]) -> Result<Octets, AllocError>
    ensures { IfOk result (λ image. image ≡ text_image collation text.now) }
{
    match collation {
        Collation::AsciiCasemap => upper_case(alloc, text),
        Collation::Octet | Collation::AsciiNumeric => Octets::from_slice(alloc, text),
    }
}

/// A text with `a` to `z` written as `A` to `Z`.
fn upper_case(alloc: Global, text: &[u8]) -> Result<Octets, AllocError>
    ensures { IfOk result (λ upper. upper ≡ map to_ascii_uppercase text.now) }
{
    let mut upper = Vec::from_slice(alloc, text)?;
    upper.make_ascii_uppercase();
    Ok(Octets::from_vec(upper))
}

/// The images of texts. For n texts n log n comparisons of images; memory for a copy of each image.
pub(crate) fn images_of(
    alloc: Global,
    collation: Collation,
    texts: &[Octets],
) -> Result<BTreeSet<Octets>, AllocError>
    ensures { IfOk result (AreImages collation texts.now) }
{
    let mut images = BTreeSet::new(alloc);
    for text in texts {
        images.insert(image_of(alloc, collation, text.as_slice())?)?;
    }
    Ok(images)
}

/// Whether a set has the image of a text. For n images log n comparisons of them; memory for a copy of the text.
pub(crate) fn is_image(
    alloc: Global,
    collation: Collation,
    images: &BTreeSet<Octets>,
    text: &[u8],
) -> Result<bool, AllocError>
    ensures { IfOk result (λ there. there ≡ contains (slice_cmp nat_cmp) images.now (text_image collation text.now)) }
{
    let image = image_of(alloc, collation, text)?;
    Ok(images.contains(&image))
}

/// The first of the texts with each image, in order. Time and memory are those of `images_of`.
pub(crate) fn distinct(
    alloc: Global,
    collation: Collation,
    texts: &[Octets],
) -> Result<Slices<'_>, AllocError>
    ensures answer { IfOk result (AnswerFor collation texts.now) }
    ensures once { IfOk result (AreApart collation) }
{
    let mut images = BTreeSet::new(alloc);
    let mut first = Slices::new(alloc);
    for text in texts {
        if images.insert(image_of(alloc, collation, text.as_slice())?)? {
            first.push(text.as_slice())?;
        }
    }
    Ok(first)
}
