//! The names in a date's text.
ghost use Rattle.std.specs.Prelude.{◌≡◌, ◌≤◌, IfSome};
ghost use Rattle.mail_dates.specs.Words as words;
ghost use Rattle.mail_dates.specs.Zones as zones;

/// Whether the word is this name, ignoring ASCII case.
#[tactic(auto, unfolding(crate::specs::Words::is_named))]
pub(crate) fn is_named(word: &[u8], name: &[u8]) -> bool
    ensures { result ≡ words.is_named word.now name.now }
{
    word.eq_ignore_ascii_case(name)
}

/// A month's number by its name.
#[tactic(auto, unfolding(crate::specs::Words::month_of))]
pub(crate) fn month_of(word: &[u8]) -> Option<u8>
    ensures { result ≡ words.month_of word.now }
{
    if is_named(word, b"jan") {
        Some(1)
    } else if is_named(word, b"feb") {
        Some(2)
    } else if is_named(word, b"mar") {
        Some(3)
    } else if is_named(word, b"apr") {
        Some(4)
    } else if is_named(word, b"may") {
        Some(5)
    } else if is_named(word, b"jun") {
        Some(6)
    } else if is_named(word, b"jul") {
        Some(7)
    } else if is_named(word, b"aug") {
        Some(8)
    } else if is_named(word, b"sep") {
        Some(9)
    } else if is_named(word, b"oct") {
        Some(10)
    } else if is_named(word, b"nov") {
        Some(11)
    } else if is_named(word, b"dec") {
        Some(12)
    } else {
        None
    }
}

/// A day of the week by its name: 0 for Sunday.
#[tactic(auto, unfolding(crate::specs::Words::weekday_of))]
pub(crate) fn weekday_of(word: &[u8]) -> Option<u8>
    ensures { result ≡ words.weekday_of word.now }
{
    if is_named(word, b"sun") {
        Some(0)
    } else if is_named(word, b"mon") {
        Some(1)
    } else if is_named(word, b"tue") {
        Some(2)
    } else if is_named(word, b"wed") {
        Some(3)
    } else if is_named(word, b"thu") {
        Some(4)
    } else if is_named(word, b"fri") {
        Some(5)
    } else if is_named(word, b"sat") {
        Some(6)
    } else {
        None
    }
}

/// How many hours a zone is west of UTC, by its name; 0 for UT, GMT, a military zone and each unknown name.
#[tactic(auto, unfolding(crate::specs::Zones::hours_west))]
pub(crate) fn hours_west(word: &[u8]) -> u8
    ensures is { result ≡ zones.hours_west word.now }
    ensures within { result ≤ 8 }
{
    if is_named(word, b"edt") {
        4
    } else if is_named(word, b"est") || is_named(word, b"cdt") {
        5
    } else if is_named(word, b"cst") || is_named(word, b"mdt") {
        6
    } else if is_named(word, b"mst") || is_named(word, b"pdt") {
        7
    } else if is_named(word, b"pst") {
        8
    } else {
        0
    }
}
