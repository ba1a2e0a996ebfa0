//! Runs of blanks and of other octets.
ghost use Rattle.std.specs.Prelude.{◌≡◌, ◌≤◌, length, take, drop};
ghost use Rattle.std.specs.List.{prefix_len};
ghost use Rattle.octets.specs.Ascii as ascii;
ghost use Rattle.mail_words.specs.Runs as runs;

use octets::is_blank;

/// The blanks at the beginning of a text, and what follows.
pub(crate) fn blank_run(text: &[u8]) -> (&[u8], &[u8])
    ensures front { result.0.now ≡ take (prefix_len ascii.is_blank text.now) text.now }
    ensures back { result.1.now ≡ drop (prefix_len ascii.is_blank text.now) text.now }
{
    text.split_at(blank_len(text))
}

/// The octets other than blanks at the beginning of a text, and what follows.
pub(crate) fn nonblank_run(text: &[u8]) -> (&[u8], &[u8])
    ensures front { result.0.now ≡ take (prefix_len runs.is_nonblank text.now) text.now }
    ensures back { result.1.now ≡ drop (prefix_len runs.is_nonblank text.now) text.now }
{
    text.split_at(nonblank_len(text))
}

fn blank_len(text: &[u8]) -> usize
    ensures value { result ≡ prefix_len ascii.is_blank text.now }
    ensures within { result ≤ length text.now }
{
    text.iter().take_while(|octet| is_blank(**octet)).count()
}

fn nonblank_len(text: &[u8]) -> usize
    ensures value { result ≡ prefix_len runs.is_nonblank text.now }
    ensures within { result ≤ length text.now }
{
    text.iter().take_while(|octet| !is_blank(**octet)).count()
}
