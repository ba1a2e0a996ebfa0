//! What the unfolded value of a field says, read from the raw one without memory (RFC 5322, 2.2.3).
ghost use Rattle.std.specs.Prelude.{◌≡◌, ◌==◌, ◌<◌, ◌≤◌, [], ◌∷◌, length, true, MatchOption, IfSome, option_map};
ghost use Rattle.std.specs.List.{list_all, before_first};
ghost use Rattle.octets.specs.Ascii.{trimmed, trim_front};
ghost use Rattle.mail_head.specs.Heads.{unfold_of};
ghost use Rattle.sieve_vacation.specs.Cases.{same_ignoring_case, is_empty};
ghost use Rattle.sieve_vacation.specs.Folds.{begins_feed_fold, fold_len, after_word, after_comma, ends_by_mark, is_nonletter, is_small};

use octets::is_blank;

/// Whether the value, without the blanks at its ends, is a word, ignoring case. The word is given in lower case.
pub(crate) fn is_word(raw: &[u8], word: &[u8]) -> bool
    requires { list_all is_small word.now ≡ true }
    ensures { result ≡ same_ignoring_case word.now (trimmed (unfold_of raw.now)) }
{
    let Some(after) = after_word(skip_blanks(raw), word) else {
        return false;
    };
    is_blank_value(after)
}

/// Whether what precedes the first `mark` in the value, without the blanks at its ends, is a word, ignoring case. The word is given
/// in lower case.
pub(crate) fn is_word_before(raw: &[u8], word: &[u8], mark: u8) -> bool
    requires small { list_all is_small word.now ≡ true }
    requires apart { is_nonletter mark ≡ true }
    ensures { result ≡ same_ignoring_case word.now (trimmed (before_first (λ octet. octet == mark) (unfold_of raw.now))) }
{
    let Some(after) = after_word(skip_blanks(raw), word) else {
        return false;
    };
    ends_by_mark(after, mark)
}

/// What follows the value's first comma.
pub(crate) fn after_comma(raw: &[u8]) -> Option<&[u8]>
    ensures value { option_map (λ rest. unfold_of rest.now) result ≡ after_comma (unfold_of raw.now) }
    ensures shorter { IfSome result (λ rest. length rest.now < length raw.now) }
{
    let mut rest = raw;
    while let Some((octet, after)) = next_octet(rest) {
        if octet == b',' {
            return Some(after);
        }
        rest = after;
    }
    None
}

/// Whether the value has only blanks.
fn is_blank_value(raw: &[u8]) -> bool
    ensures { result ≡ is_empty (trim_front (unfold_of raw.now)) }
{
    match next_octet(skip_blanks(raw)) {
        Some(_) => false,
        None => true,
    }
}

/// Whether the value is at its end or begins with `mark`, apart from blanks.
fn ends_by_mark(raw: &[u8], mark: u8) -> bool
    ensures { result ≡ ends_by_mark mark (trim_front (unfold_of raw.now)) }
{
    match next_octet(skip_blanks(raw)) {
        Some((octet, _)) => octet == mark,
        None => true,
    }
}

/// What follows a word with which the value begins, ignoring case.
fn after_word<'a>(raw: &'a [u8], word: &[u8]) -> Option<&'a [u8]>
    ensures { option_map (λ rest. unfold_of rest.now) result ≡ after_word word.now (unfold_of raw.now) }
{
    let mut rest = raw;
    for letter in word {
        let Some((octet, after)) = next_octet(rest) else {
            return None;
        };
        if !letter.eq_ignore_ascii_case(&octet) {
            return None;
        }
        rest = after;
    }
    Some(rest)
}

/// The value without the blanks at its beginning.
fn skip_blanks(raw: &[u8]) -> &[u8]
    ensures { unfold_of result.now ≡ trim_front (unfold_of raw.now) }
{
    let mut rest = raw;
    while let Some((octet, after)) = next_octet(rest) {
        if !is_blank(octet) {
            break;
        }
        rest = after;
    }
    rest
}

/// The value's first octet, and what follows it.
fn next_octet(raw: &[u8]) -> Option<(u8, &[u8])>
    ensures value { MatchOption result (unfold_of raw.now ≡ []) (λ pair. unfold_of raw.now ≡ pair.0 ∷ unfold_of pair.1.now) }
    ensures shorter { IfSome result (λ pair. length pair.1.now < length raw.now) }
{
    let (_, rest) = raw.split_at(fold_len(raw));
    let (octet, after) = rest.split_first()?;
    Some((*octet, after))
}

/// How many octets a line end has that comes first and that a blank follows.
fn fold_len(raw: &[u8]) -> usize
    ensures value { result ≡ fold_len raw.now }
    ensures within { result ≤ length raw.now }
{
    let Some((octet, rest)) = raw.split_first() else {
        return 0;
    };
    if begins_feed_fold(raw) {
        return 1;
    }
    if *octet == b'\r' && begins_feed_fold(rest) {
        return 2;
    }
    0
}

/// Whether the text begins with LF and then a blank.
fn begins_feed_fold(text: &[u8]) -> bool
    ensures { result ≡ begins_feed_fold text.now }
{
    match text {
        [b'\n', next, ..] => is_blank(*next),
        _ => false,
    }
}
