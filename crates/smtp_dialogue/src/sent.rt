//! The text of a message, as it is sent after DATA.
ghost use Rattle.std.specs.Prelude.{◌≡◌, ◌≢◌, ◌++◌, [], ◌∷◌, ℕ, ◌<◌, ◌≤◌, ◌==◌, true, length, slice_index};
ghost use Rattle.smtp_dialogue.specs.Sent as s;
ghost use Rattle.smtp_dialogue.specs.declared.sent.SentState.TheVariants.{Over as over};

use memchr::memchr2;

/// Where the next octet of a message is.
#[derive(Clone, Copy, Debug, PartialEq, Eq)]
pub enum SentState {
    /// At the start of a line.
    Start,
    /// In a line.
    Inside,
    /// All is sent.
    Over,
}

/// A message as it is sent after DATA, in parts (RFC 5321, sections 2.3.8 and 4.5.2).
///
/// Its lines end at LF, with a CR before it or without one, and each is sent with CRLF, the last one too. A CR in a line is sent as a
/// space, or as `?` if it begins the line, so that no line becomes the continuation of a field. A dot is put before each line that
/// begins with one, and a dot alone on a line after the last one. It takes no memory: the parts are those of the message, or of a few
/// octets.
#[derive(Drop)]
pub struct DotStuffed<'a> {
    pub(crate) left: &'a [u8],
    pub(crate) place: SentState,
}

impl<'a> DotStuffed<'a> {
    /// The parts of a message, from the first one on.
    pub fn new(message: &'a [u8]) -> DotStuffed<'a>
        ensures { s.left_of result ≡ s.sent_from s.sent_start message.now }
    {
        DotStuffed {
            left: message,
            place: SentState::Start,
        }
    }

    /// The next part, which isn't empty; none if all is sent. For all parts together time is linear in the message's octets.
    pub fn next(&mut self) -> Option<&'a [u8]>
        ensures { s.Hands result self.old self.new }
    {
        match self.place {
            SentState::Over => None,
            SentState::Start => Some(self.begin()),
            SentState::Inside => Some(self.go_on()),
        }
    }

    // At the start of a line: the end, a dot before one that is there, a CR that begins the line, or as in a line.
    fn begin(&mut self) -> &'a [u8]
        requires { self.old.place ≡ s.sent_start }
        ensures { s.HandsPart result self.old self.new }
    {
        match self.left {
            [] => self.put(b".\r\n", self.left, SentState::Over),
            [b'.', ..] => self.put(b".", self.left, SentState::Inside),
            [b'\r', b'\n', ..] => self.go_on(),
            [b'\r', rest @ ..] => self.put(b"?", rest, SentState::Inside),
            _ => self.go_on(),
        }
    }

    // In a line: what comes before the next CR or LF, or what these are sent as.
    fn go_on(&mut self) -> &'a [u8]
        requires { s.IsWithinLine self.old }
        ensures { s.HandsPart result self.old self.new }
    {
        let count = plain_length(self.left);
        if count == 0 {
            return self.end_line();
        }
        let (run, rest) = self.left.split_at(count);
        self.put(run, rest, SentState::Inside)
    }

    // The end of the line, when no other octet comes before it.
    fn end_line(&mut self) -> &'a [u8]
        requires within { s.IsWithinLine self.old }
        requires at { s.BeginsBreak self.old.left.now }
        ensures { s.HandsPart result self.old self.new }
    {
        let Some((octet, rest)) = self.left.split_first() else {
            return self.put(b"\r\n", self.left, SentState::Start);
        };
        if *octet == b'\r' {
            return self.end_at_return(rest);
        }
        self.put(b"\r\n", rest, SentState::Start)
    }

    // A CR came, and these follow: it belongs to its LF, or otherwise is a space.
    fn end_at_return(&mut self, rest: &'a [u8]) -> &'a [u8]
        requires within { s.IsWithinLine self.old }
        requires first { self.old.left.now ≡ 13 ∷ rest.now }
        ensures { s.HandsPart result self.old self.new }
    {
        match rest.split_first() {
            Some((b'\n', behind)) => self.put(b"\r\n", behind, SentState::Start),
            _ => self.put(b" ", rest, SentState::Inside),
        }
    }

    // Hands out a part, after which this is left.
    fn put(&mut self, part: &'a [u8], left: &'a [u8], place: SentState) -> &'a [u8]
        ensures part { result.now ≡ part.now }
        ensures left { self.new.left.now ≡ left.now }
        ensures place { self.new.place ≡ place }
    {
        self.left = left;
        self.place = place;
        part
    }
}

// How many octets come before the first CR or LF.
fn plain_length(octets: &[u8]) -> usize
    ensures within { result ≤ length octets.now }
    ensures plain { (j : ℕ) → j < result → s.is_break (slice_index octets.now j) ≡ true → ⊥ }
    ensures next { result < length octets.now → s.is_break (slice_index octets.now result) ≡ true }
{
    match memchr2(b'\r', b'\n', octets) {
        Some(count) => count,
        None => octets.len(),
    }
}
