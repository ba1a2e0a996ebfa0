//! The text of a message.
ghost use Rattle.std.specs.Prelude.{if◌then◌else◌, ◌≡◌, ◌≢◌, ◌↔◌, ℕ, ◌==◌, true, ◌+◌, ◌^◌, ◌<◌, ◌≤◌, ◌++◌, ◌∷◌, [], List, Some, length, take, slice_index, IsSome, IsTrue};
ghost use Rattle.lmtp_dialogue.specs.declared.message_text.TextState.TheVariants.{Ended as ended};
ghost use Rattle.lmtp_dialogue.specs.Texts as s;

use memchr::memchr;
use octets::Octets;
use std::alloc::Global;

/// Where the next octet of a text is.
#[derive(Clone, Copy, Debug, PartialEq, Eq)]
pub enum TextState {
    /// At the start of a line.
    Start,
    /// After a dot at the start of a line.
    Dot,
    /// After such a dot and a CR.
    DotReturn,
    /// In a line.
    Inside,
    /// After a CR in a line.
    Return,
    /// The text has ended.
    Ended,
}

/// Why a text isn't kept.
#[derive(Clone, Copy, Debug, PartialEq, Eq)]
pub enum TextFault {
    /// It has more octets than the limit.
    TooLarge,
    /// There was no memory for it.
    Memory,
}

/// The text of a message, from the octets after DATA up to the line that is a dot alone (RFC 5321, section 4.5.2). A line ends at
/// CRLF: a CR or an LF alone is an octet of the text, and so is a NUL.
#[derive(Drop)]
pub struct Text {
    pub(crate) kept: Octets,
    pub(crate) place: TextState,
    pub(crate) fault: Option<TextFault>,
    pub(crate) limit: usize,
    alloc: Global,
}

impl Text {
    /// A text of at most this many octets, before the first one. Takes no memory.
    pub fn new(alloc: Global, limit: usize) -> Text
        ensures stands { s.TextStandsFor result [] }
        ensures empty { s.held_text result ≡ 0 }
        ensures limit { result.limit ≡ limit }
    {
        Text {
            kept: Octets::new(alloc),
            place: TextState::Start,
            fault: None,
            limit,
            alloc,
        }
    }

    /// Whether the text has ended.
    pub fn has_ended(&self) -> bool
        ensures { IsTrue result ↔ (self.now.place ≡ ended) }
    {
        match self.place {
            TextState::Ended => true,
            _ => false,
        }
    }

    /// How many octets it holds: those that are kept, and a CR after a dot, which may begin the end. Constant time.
    pub fn held(&self) -> usize
        ensures value { result ≡ s.held_text self.now }
        ensures fits { result ≤ 2 ^ 63 }
    {
        self.kept.as_slice().len() + self.put_off()
    }

    // How many octets are held that aren't kept.
    fn put_off(&self) -> usize
        ensures value { result ≡ s.put_by self.now.place }
        ensures small { result ≤ 1 }
    {
        match self.place {
            TextState::DotReturn => 1,
            _ => 0,
        }
    }

    /// Takes the octets of a piece one by one until the text has ended, and returns how many it took: all of them if it hasn't ended.
    ///
    /// Time is linear in the octets taken. If there is no memory, or there are more octets than the limit, the text is dropped and the
    /// others are taken as before.
    pub fn feed(&mut self, piece: &[u8]) -> usize
        ensures within { result ≤ length piece.now }
        ensures feeds { s.Feeds self.old (take result piece.now) self.new }
        ensures whole { self.new.place ≢ ended → result ≡ length piece.now }
        ensures held { s.held_text self.new ≤ s.held_text self.old + result }
        ensures limit { self.new.limit ≡ self.old.limit }
    {
        let mut taken = 0;
        while !self.has_ended() {
            let count = self.feed_some(&piece[taken..]);
            if count == 0 {
                return taken;
            }
            taken += count;
        }
        taken
    }

    /// What is kept of it so far, or why it isn't. Takes no memory.
    pub fn kept(&self) -> Result<&[u8], TextFault>
        ensures { s.IsFinishedText self.now result }
    {
        match self.fault {
            None => Ok(self.kept.as_slice()),
            Some(fault) => Err(fault),
        }
    }

    /// The text that has ended.
    ///
    /// # Errors
    ///
    /// Why it isn't kept.
    pub fn finish(self) -> Result<Octets, TextFault>
        requires { self.place ≡ ended }
        ensures { (sent : List ℕ) → s.TextStandsFor self sent → s.TextFinishes self.limit sent result }
    {
        match self.fault {
            None => Ok(self.kept),
            Some(fault) => Err(fault),
        }
    }

    // Takes a run of octets in one step, or else one octet; none if there is none.
    fn feed_some(&mut self, octets: &[u8]) -> usize
        requires { self.old.place ≢ ended }
        ensures within { result ≤ length octets.now }
        ensures feeds { s.Feeds self.old (take result octets.now) self.new }
        ensures none { result ≡ 0 → length octets.now ≡ 0 }
        ensures held { s.held_text self.new ≤ s.held_text self.old + result }
        ensures limit { self.new.limit ≡ self.old.limit }
    {
        let count = self.feed_run(octets);
        if count > 0 {
            return count;
        }
        let Some((octet, _)) = octets.split_first() else {
            return 0;
        };
        self.turn(*octet);
        1
    }

    // Takes the octets before the next CR, if these are inside a line. Returns how many.
    fn feed_run(&mut self, octets: &[u8]) -> usize
        ensures within { result ≤ length octets.now }
        ensures feeds { s.Feeds self.old (take result octets.now) self.new }
        ensures held { s.held_text self.new ≤ s.held_text self.old + result }
        ensures place { self.new.place ≡ self.old.place }
        ensures limit { self.new.limit ≡ self.old.limit }
    {
        let TextState::Inside = self.place else {
            return 0;
        };
        let count = run_length(octets);
        self.append(&octets[..count]);
        count
    }

    // Takes one octet.
    fn turn(&mut self, octet: u8)
        requires { self.old.place ≢ ended }
        ensures feeds { s.Feeds self.old (octet ∷ []) self.new }
        ensures held { s.held_text self.new ≤ s.held_text self.old + 1 }
        ensures limit { self.new.limit ≡ self.old.limit }
    {
        self.gain(octet);
        self.place = self.place.after(octet);
    }

    // Appends to the text what it has more after this octet.
    fn gain(&mut self, octet: u8)
        ensures keeps { (text : List ℕ) → s.TextKeeps self.old text self.old.fault → s.TextKeeps self.new (text ++ s.gained self.old.place octet) self.new.fault }
        ensures held { length self.new.kept + s.put_by (s.after self.old.place octet) ≤ s.held_text self.old + 1 }
        ensures place { self.new.place ≡ self.old.place }
        ensures limit { self.new.limit ≡ self.old.limit }
    {
        match self.place {
            TextState::Start => self.append_unless(octet, b'.'),
            TextState::Dot => self.append_unless(octet, b'\r'),
            TextState::DotReturn if octet == b'\n' => {}
            TextState::DotReturn => self.append(&[b'\r', octet]),
            TextState::Inside => self.append(&[octet]),
            TextState::Return => self.append(&[octet]),
            TextState::Ended => {}
        }
    }

    // Appends an octet to the text, unless it is that one.
    fn append_unless(&mut self, octet: u8, but: u8)
        ensures keeps { (text : List ℕ) → s.TextKeeps self.old text self.old.fault → s.TextKeeps self.new (text ++ (if octet == but then [] else octet ∷ [])) self.new.fault }
        ensures held { length self.new.kept ≤ length self.old.kept + (if octet == but then 0 else 1) }
        ensures place { self.new.place ≡ self.old.place }
        ensures limit { self.new.limit ≡ self.old.limit }
    {
        if octet != but {
            self.append(&[octet]);
        }
    }

    // Appends octets to the text, or drops it.
    fn append(&mut self, octets: &[u8])
        ensures keeps { (text : List ℕ) → s.TextKeeps self.old text self.old.fault → s.TextKeeps self.new (text ++ octets.now) self.new.fault }
        ensures held { length self.new.kept ≤ length self.old.kept + length octets.now }
        ensures place { self.new.place ≡ self.old.place }
        ensures limit { self.new.limit ≡ self.old.limit }
    {
        if self.fault.is_some() {
            return;
        }
        if octets.len() > self.limit.saturating_sub(self.kept.len()) {
            self.drop_text(TextFault::TooLarge);
        } else if self.kept.extend_from_slice(octets).is_err() {
            self.drop_text(TextFault::Memory);
        }
    }

    // Drops the text: there is no memory for it, if there was no other fault before.
    pub(crate) fn give_up(&mut self)
        ensures keeps { (text : List ℕ) → s.TextKeeps self.old text self.old.fault → s.TextKeeps self.new text self.new.fault }
        ensures dropped { (self.new.kept ≡ []) × IsSome self.new.fault }
        ensures place { self.new.place ≡ self.old.place }
        ensures limit { self.new.limit ≡ self.old.limit }
    {
        match self.fault {
            None => self.drop_text(TextFault::Memory),
            Some(fault) => self.drop_text(fault),
        }
    }

    // Drops the text.
    fn drop_text(&mut self, fault: TextFault)
        ensures kept { self.new.kept ≡ [] }
        ensures fault { self.new.fault ≡ Some fault }
        ensures place { self.new.place ≡ self.old.place }
        ensures limit { self.new.limit ≡ self.old.limit }
    {
        self.kept = Octets::new(self.alloc);
        self.fault = Some(fault);
    }
}

// How many octets come before the first CR.
fn run_length(octets: &[u8]) -> usize
    ensures within { result ≤ length octets.now }
    ensures other { (j : ℕ) → j < result → (slice_index octets.now j == 13) ≡ true → ⊥ }
{
    match memchr(b'\r', octets) {
        Some(count) => count,
        None => octets.len(),
    }
}

impl TextState {
    // Where the next octet is, after this one.
    fn after(self, octet: u8) -> TextState
        ensures { result ≡ s.after self octet }
    {
        match (self, octet) {
            (TextState::Ended, _) | (TextState::DotReturn, b'\n') => TextState::Ended,
            (TextState::Return, b'\n') => TextState::Start,
            (TextState::Start, b'.') => TextState::Dot,
            (TextState::Dot, b'\r') => TextState::DotReturn,
            (_, b'\r') => TextState::Return,
            _ => TextState::Inside,
        }
    }
}
