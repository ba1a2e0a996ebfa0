//! The state of a line after each of its octets: reading needs no search.
ghost use Rattle.std.specs.Prelude.{◌≡◌, ◌≤◌, ℕ, length, take};
ghost use Rattle.std.specs.List.{prefix_len};
ghost use Rattle.managesieve_protocol.specs.Machine as m;
ghost use Rattle.managesieve_protocol.specs.Shown as s;

use crate::command_name::{CommandName, Params};

/// The longest quoted string, in octets between its quotation marks, in what is read and in what is written (RFC 5804, section 4).
pub(crate) const MAX_QUOTED: u32 = 1024;

/// The state of a line. Numbers are octets, or the number that was read so far.
#[derive(Clone, Copy)]
pub enum State {
    /// In a name: a verb that begins with the letters so far, and how many they are.
    Word(CommandName, usize),
    /// After a name or an argument.
    Between(Params),
    /// At the start of a string.
    Opening(Params),
    /// Between quotation marks; that many octets more may follow.
    Quoted(u32, Params),
    /// After a backslash.
    Escaped(u32, Params),
    /// After a literal's brace, in its number, after its plus, its closing brace and its CR.
    Brace(Params),
    Count(u32, Params),
    Plus(u32, Params),
    Closed(u32, Params),
    Return(u32, Params),
    /// Inside a literal, of which one octet and that many more are to come.
    Body(u32, Params),
    /// At the start of a number, and in it.
    Number,
    Digits(u32),
    /// After the line's CR.
    LineFeed,
    /// After a whole command.
    Whole,
    /// No command can follow.
    Dead,
}

impl State {
    /// The state before a line's first octet; if a challenge is pending, the line is one string.
    pub(crate) fn start(pending: bool) -> State
        ensures { s.shown_state result ≡ m.start_state pending }
    {
        if pending {
            State::Opening(Params::LineEnd)
        } else {
            State::Word(CommandName::Noop, 0)
        }
    }

    /// The state after one octet more.
    pub(crate) fn step(self, octet: u8) -> State
        ensures { s.shown_state result ≡ m.step (s.shown_state self) octet }
    {
        match self {
            State::Word(verb, count) => in_word(verb, count, octet),
            State::Between(params) => leave(params, octet),
            State::Opening(params) => open(params, octet),
            State::Quoted(left, params) => in_quotes(left, params, octet),
            State::Escaped(left, params) => escaped(left, params, octet),
            State::Brace(params) => in_brace(params, octet),
            State::Count(number, params) => in_count(number, params, octet),
            State::Plus(number, params) => expect(octet, b'}', State::Closed(number, params)),
            State::Closed(number, params) => expect(octet, b'\r', State::Return(number, params)),
            State::Return(number, params) => expect(octet, b'\n', literal(number, params)),
            State::Body(left, params) => literal(left, params),
            State::Number => at_number(octet),
            State::Digits(number) => in_number(number, octet),
            State::LineFeed => expect(octet, b'\n', State::Whole),
            State::Whole | State::Dead => State::Dead,
        }
    }

    /// The state after the octets at the start that leave the line in the same name, between the same quotation marks or
    /// on the same bad line, and how many they are.
    pub(crate) fn feed_run(self, octets: &[u8]) -> (State, usize)
        ensures count { result.1 ≡ s.skimmed self octets.now }
        ensures state { s.shown_state result.0 ≡ s.state_after self result.1 }
        ensures within { result.1 ≤ length octets.now }
    {
        match self {
            State::Word(verb, count) => {
                let word = verb.word();
                let read = count.min(word.len());
                let more = spelling_length(&word[read..], octets);
                (State::Word(verb, read + more), more)
            }
            State::Quoted(left, params) => {
                let count = plain_length(&octets[..(left as usize).min(octets.len())]);
                (State::Quoted(left - count as u32, params), count)
            }
            State::Dead => (self, inner_length(octets)),
            _ => (self, 0),
        }
    }
}

// How many octets at the start are these letters in upper or lower case.
fn spelling_length(letters: &[u8], octets: &[u8]) -> usize
    ensures value { result ≡ s.letters_matched letters.now octets.now }
    ensures within { result ≤ length octets.now }
    ensures letters { result ≤ length letters.now }
{
    let mut wanted = letters;
    let mut rest = octets;
    let mut count = 0;
    while let Some((letter, after)) = wanted.split_first() {
        let Some((octet, more)) = rest.split_first() else {
            break;
        };
        if *letter != octet.to_ascii_uppercase() {
            break;
        }
        count += 1;
        wanted = after;
        rest = more;
    }
    count
}

// How many octets at the start may be between quotation marks without an escape.
fn plain_length(octets: &[u8]) -> usize
    ensures value { result ≡ prefix_len s.is_plain_quoted octets.now }
    ensures within { result ≤ length octets.now }
{
    octets
        .iter()
        .take_while(|octet| !matches!(**octet, b'"' | b'\\' | b'\0' | b'\n' | b'\r'))
        .count()
}

// How many octets come before the first LF.
fn inner_length(octets: &[u8]) -> usize
    ensures value { result ≡ prefix_len s.is_inside_line octets.now }
    ensures within { result ≤ length octets.now }
{
    octets.iter().take_while(|octet| **octet != b'\n').count()
}

// The state after one octet that must be this one.
fn expect(octet: u8, wanted: u8, next: State) -> State
    ensures { s.shown_state result ≡ s.only octet wanted (s.shown_state next) }
{
    if octet == wanted { next } else { State::Dead }
}

fn in_word(verb: CommandName, count: usize, octet: u8) -> State
    ensures { s.shown_state result ≡ m.step (m.Word (take count (m.command_name verb))) octet }
{
    let word = verb.word();
    let letters = &word[..count.min(word.len())];
    match verb.extend(letters, octet.to_ascii_uppercase()) {
        Some(next) => State::Word(next, letters.len() + 1),
        None => {
            if letters.len() == word.len() {
                leave(verb.params(), octet)
            } else {
                State::Dead
            }
        }
    }
}

fn leave(params: Params, octet: u8) -> State
    ensures { s.shown_state result ≡ m.leave (s.params_shown params) octet }
{
    match octet {
        b' ' => match params {
            Params::LineEnd => State::Dead,
            Params::MaybeText | Params::Text => State::Opening(Params::LineEnd),
            Params::TextMaybeText => State::Opening(Params::MaybeText),
            Params::TwoTexts => State::Opening(Params::Text),
            Params::TextNumber => State::Opening(Params::Number),
            Params::Number => State::Number,
        },
        b'\r' => match params {
            Params::LineEnd | Params::MaybeText => State::LineFeed,
            _ => State::Dead,
        },
        _ => State::Dead,
    }
}

fn open(params: Params, octet: u8) -> State
    ensures { s.shown_state result ≡ m.step (m.Opening (s.params_shown params)) octet }
{
    match octet {
        b'"' => State::Quoted(MAX_QUOTED, params),
        b'{' => State::Brace(params),
        _ => State::Dead,
    }
}

fn in_quotes(left: u32, params: Params, octet: u8) -> State
    ensures { s.shown_state result ≡ m.step (m.Quoted left (s.params_shown params)) octet }
{
    match octet {
        b'"' => State::Between(params),
        // The octet after the backslash counts too.
        b'\\' if left > 1 => State::Escaped(left - 2, params),
        b'\\' | b'\0' | b'\n' | b'\r' => State::Dead,
        _ if left > 0 => State::Quoted(left - 1, params),
        _ => State::Dead,
    }
}

fn escaped(left: u32, params: Params, octet: u8) -> State
    ensures { s.shown_state result ≡ m.step (m.Escaped left (s.params_shown params)) octet }
{
    match octet {
        b'"' | b'\\' => State::Quoted(left, params),
        _ => State::Dead,
    }
}

fn in_brace(params: Params, octet: u8) -> State
    ensures { s.shown_state result ≡ m.step (m.Brace (s.params_shown params)) octet }
{
    match first_digit(octet) {
        Some(number) => State::Count(number, params),
        None => State::Dead,
    }
}

fn in_count(number: u32, params: Params, octet: u8) -> State
    ensures { s.shown_state result ≡ m.step (m.Count number (s.params_shown params)) octet }
{
    if octet == b'+' {
        return State::Plus(number, params);
    }
    match next_digit(number, octet) {
        Some(longer) => State::Count(longer, params),
        None => State::Dead,
    }
}

fn at_number(octet: u8) -> State
    ensures { s.shown_state result ≡ m.step m.Number octet }
{
    match first_digit(octet) {
        Some(number) => State::Digits(number),
        None => State::Dead,
    }
}

fn in_number(number: u32, octet: u8) -> State
    ensures { s.shown_state result ≡ m.step (m.Digits number) octet }
{
    if octet == b'\r' {
        return State::LineFeed;
    }
    match next_digit(number, octet) {
        Some(longer) => State::Digits(longer),
        None => State::Dead,
    }
}

// The state of a literal of which that many octets are to come.
fn literal(left: u32, params: Params) -> State
    ensures { s.shown_state result ≡ m.literal_left left (s.params_shown params) }
{
    if left == 0 {
        State::Between(params)
    } else {
        State::Body(left - 1, params)
    }
}

// A number's first digit.
fn first_digit(octet: u8) -> Option<u32>
    ensures { result ≡ s.first_digit octet }
{
    if octet.is_ascii_digit() {
        Some((octet - b'0') as u32)
    } else {
        None
    }
}

// A number with one digit more, if it has no leading zero and stays below 2^32.
fn next_digit(number: u32, octet: u8) -> Option<u32>
    ensures { result ≡ s.next_digit number octet }
{
    if number == 0 || !octet.is_ascii_digit() {
        return None;
    }
    let longer = number as u64 * 10 + (octet - b'0') as u64;
    if longer < 1 << 32 {
        Some(longer as u32)
    } else {
        None
    }
}
