//! Blanks at the end of a text.
ghost use Rattle.std.specs.Prelude.{◌≡◌};
ghost use Rattle.octets.specs.Ascii as ascii;

use octets::is_blank;

/// A text without the blanks at its end. No memory, and a look at each of these.
pub(crate) fn trim_back(text: &[u8]) -> &[u8]
    ensures { result.now ≡ ascii.trim_back text.now }
{
    let mut kept = text;
    while let Some((last, front)) = kept.split_last() {
        if !is_blank(*last) {
            break;
        }
        kept = front;
    }
    kept
}
