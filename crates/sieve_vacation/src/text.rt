//! Texts compared ignoring ASCII case, and texts in UTF-8.
ghost use Rattle.std.specs.Prelude.{◌≡◌, Some, option_copied};
ghost use Rattle.std.specs.List.{list_any};
ghost use Rattle.sieve_vacation.specs.Cases as cases;
ghost use Rattle.sieve_vacation.specs.Layout.{usable};

/// Whether two texts are the same, ignoring case.
pub(crate) fn is_same(one: &[u8], two: &[u8]) -> bool
    ensures { result ≡ cases.same_ignoring_case one.now two.now }
{
    one.eq_ignore_ascii_case(two)
}

/// Whether a text is one of these, ignoring case.
pub(crate) fn is_one_of(texts: &[&[u8]], text: &[u8]) -> bool
    ensures { result ≡ list_any (λ one. cases.same_ignoring_case one.now text.now) texts.now }
{
    texts.iter().any(|one| is_same(one, text))
}

/// Whether a text begins with `front`, ignoring case.
pub(crate) fn begins_with(front: &[u8], text: &[u8]) -> bool
    ensures { result ≡ cases.begins_with_text front.now text.now }
{
    if text.len() < front.len() {
        return false;
    }
    is_same(front, text.split_at(front.len()).0)
}

/// Whether a text ends with `end`, ignoring case.
pub(crate) fn ends_with(end: &[u8], text: &[u8]) -> bool
    ensures { result ≡ cases.ends_with end.now text.now }
{
    if text.len() < end.len() {
        return false;
    }
    is_same(end, text.split_at(text.len() - end.len()).1)
}

/// The text, if it is UTF-8.
pub(crate) fn usable(text: &[u8]) -> Option<&str>
    ensures { option_copied result ≡ usable (Some text.now) }
{
    match str::from_utf8(text) {
        Ok(text) => Some(text),
        Err(_) => None,
    }
}
