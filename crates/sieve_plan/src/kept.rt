//! Checked scripts that are kept by their texts.
ghost use Rattle.std.specs.Prelude.{◌≡◌, ◌≢◌, ◌<◌, ◌≤◌, ◌+◌, ◌↔◌, [], map, length, slice_index_or, IfOk, IfSome, IsTrue};
ghost use Rattle.sieve_lex.specs.Finding.{IfFault};
ghost use Rattle.sieve_syntax.specs.Tree.{Commands};
ghost use Rattle.sieve_syntax.specs.Means.{Means};
ghost use Rattle.sieve_syntax.specs.View.{script_tree};
ghost use Rattle.sieve_plan.specs.Kept.{IsPlaceOf, pair_of, symbols_in, texts_of};

use octets::Octets;
use sieve_lex::ScriptError;
use sieve_syntax::{Script, check};
use std::alloc::Global;
use std::hash::{FoldHasher, Hasher};
use std::marker::Model;

/// How many scripts are kept at most. Each takes some 100 octets beside its text and its tree, and a look-up goes through all of
/// them: some 5 microseconds, up to 40 where none of them is in the processor's cache.
const MAX_KEPT: usize = 4096;

/// How many octets their texts may have together: 8 MiB.
const MAX_KEPT_OCTETS: usize = 8_388_608;

/// How many symbols their texts may have together, that is octets other than letters and digits: a tree's size goes by them, and
/// not by the length of its strings. A rule has some 20. Beside its strings a tree takes at most 120 octets of memory for each
/// symbol of its text: measured were 117 for `vacation"";` again and again, 94 for 31 `not`s before each test, 80 for `keep;`, 75
/// for blocks within blocks. So all trees together take up to 63 MB, mostly a fifth of that.
const MAX_KEPT_SYMBOLS: usize = 524_288;

/// How many octets a text that is kept may have: as many as a script that is uploaded.
const MAX_KEPT_TEXT: usize = 262_144;

/// A checked script, and the text that it is of.
#[derive(Drop)]
struct KeptScript {
    text: Octets,
    script: Script,
    /// Texts with different hashes aren't compared.
    hash: u64,
    /// The number of the look-up that used it last.
    used: u64,
}

/// The script of a text that was looked for.
#[derive(Drop)]
pub enum FoundScript {
    /// It is kept, at this place until the next look-up.
    Kept(usize),
    /// It was checked for this look-up, and isn't kept.
    Checked(Script),
}

/// Checked scripts that are kept by their texts, so that a script that is run again isn't checked again. Contracts see the texts.
#[derive(Drop)]
pub struct KeptScripts {
    scripts: Vec<KeptScript>,
    /// How many octets their texts have together.
    octets: usize,
    /// How many symbols their texts have together.
    symbols: usize,
    /// How many look-ups there were.
    uses: u64,
}

impl Model for KeptScripts {
    ghost use Rattle.std.specs.Prelude.{List, ℕ, map};
    ghost use Rattle.sieve_plan.specs.Kept.{KeepsScripts, pair_of, texts_of};

    ghost Value = { List (List ℕ) };

    ghost view = { λ kept. texts_of (map pair_of kept.scripts.items) };

    ghost invariant = { λ kept. KeepsScripts (map pair_of kept.scripts.items) kept.octets kept.symbols };
}

impl KeptScripts {
    ghost use Rattle.sieve_plan.specs.Kept.{AreWithinLimits, IsPlaceOf, IsScriptOf, LeaveRoom};

    /// None is kept. Takes no memory.
    pub fn new(alloc: Global) -> KeptScripts
        ensures { result ≡ [] }
    {
        KeptScripts {
            scripts: Vec::new(alloc),
            octets: 0,
            symbols: 0,
            uses: 0,
        }
    }

    /// Returns the only script that a text means: the one that is kept of this text, octet by octet, or one that is checked now.
    /// That one is kept then, and as many of the least recently used go as have to make room for it; but not if its text has more
    /// than 262,144 octets, nor if memory is lacking for keeping it.
    ///
    /// Time is linear in the text's length and in the number of scripts that are kept; only texts with the same hash are compared.
    ///
    /// # Errors
    ///
    /// Those of [`check`].
    pub fn find_or_check(&mut self, alloc: Global, text: &[u8]) -> Result<FoundScript, ScriptError>
        ensures found { IfOk result (IsScriptOf self.new text.now) }
        ensures fault { IfFault result ((tree : Commands) → Means text.now tree → ⊥) }
        ensures within { AreWithinLimits self.new }
    {
        let hash = hash_of(text);
        if let Some(place) = self.use_text(hash, text) {
            return Ok(FoundScript::Kept(place));
        }
        let script = check(alloc, text)?;
        Ok(self.keep(alloc, text, hash, script))
    }

    /// The script at a place.
    pub fn script_at(&self, place: usize) -> &Script
        requires { place < length self.now }
        ensures { Means (slice_index_or self.now place []) (script_tree result.now) }
    {
        &self.scripts[place].script
    }

    /// The place of a text, if it is kept; this counts as a use of its script.
    fn use_text(&mut self, hash: u64, text: &[u8]) -> Option<usize>
        ensures same { self.new ≡ self.old }
        ensures found { IfSome result (IsPlaceOf self.new text.now) }
        ensures within { AreWithinLimits self.new }
    {
        let found = place_of(self.scripts.as_slice(), hash, text);
        if let Some(place) = found {
            self.uses = self.uses.wrapping_add(1);
            mark_used(self.scripts.as_mut_slice(), place, self.uses);
        }
        found
    }

    /// Keeps a script, unless its text is too long or memory is lacking.
    fn keep(&mut self, alloc: Global, text: &[u8], hash: u64, script: Script) -> FoundScript
        requires checked { Means text.now (script_tree script) }
        requires within { AreWithinLimits self.old }
        ensures found { IsScriptOf self.new text.now result }
        ensures within { AreWithinLimits self.new }
    {
        let symbols = symbols_in(text);
        if text.len() > MAX_KEPT_TEXT {
            return FoundScript::Checked(script);
        }
        self.make_room(text.len(), symbols);
        match Octets::from_slice(alloc, text) {
            Ok(text) => self.add(text, hash, symbols, script),
            Err(_) => FoundScript::Checked(script),
        }
    }

    /// Adds a script for which there is room.
    fn add(&mut self, text: Octets, hash: u64, symbols: usize, script: Script) -> FoundScript
        requires checked { Means text (script_tree script) }
        requires counted { symbols ≡ symbols_in text }
        requires room { LeaveRoom self.old (length text) symbols }
        ensures found { IsScriptOf self.new text result }
        ensures within { AreWithinLimits self.new }
    {
        let place = self.scripts.len();
        let octets = text.len();
        let used = self.uses.wrapping_add(1);
        let kept = KeptScript {
            text,
            script,
            hash,
            used,
        };
        match self.scripts.push(kept) {
            Ok(()) => {
                self.octets += octets;
                self.symbols += symbols;
                self.uses = used;
                FoundScript::Kept(place)
            }
            Err(refused) => {
                let KeptScript { script, .. } = refused.value;
                FoundScript::Checked(script)
            }
        }
    }

    /// Drops the least recently used scripts, until one more with so many octets and symbols leaves all within the limits.
    fn make_room(&mut self, octets: usize, symbols: usize)
        requires octets { octets ≤ MAX_KEPT_TEXT }
        requires symbols { symbols ≤ octets }
        ensures { LeaveRoom self.new octets symbols }
    {
        while !self.leaves_room(octets, symbols) {
            self.drop_least_recent();
        }
    }

    /// Whether one more with so many octets and symbols leaves all within the limits.
    fn leaves_room(&self, octets: usize, symbols: usize) -> bool
        requires octets { octets ≤ MAX_KEPT_TEXT }
        requires symbols { symbols ≤ octets }
        ensures { IsTrue result ↔ LeaveRoom self.now octets symbols }
    {
        self.scripts.len() < MAX_KEPT
            && self.octets + octets <= MAX_KEPT_OCTETS
            && self.symbols + symbols <= MAX_KEPT_SYMBOLS
    }

    /// Drops the least recently used script.
    fn drop_least_recent(&mut self)
        requires { 0 < length self.old }
        ensures { length self.new + 1 ≡ length self.old }
    {
        let place = least_recent(self.scripts.as_slice());
        let gone = self.scripts.remove(place);
        self.octets -= gone.text.len();
        self.symbols -= symbols_in(gone.text.as_slice());
    }
}

/// A hash of a text.
fn hash_of(text: &[u8]) -> u64 {
    let mut hasher = FoldHasher::default();
    hasher.write(text);
    hasher.finish()
}

/// How many octets of a text are neither letters nor digits.
fn symbols_in(text: &[u8]) -> usize
    ensures count { result ≡ symbols_in text.now }
    ensures within { result ≤ length text.now }
{
    text.iter()
        .filter(|octet| !octet.is_ascii_alphanumeric())
        .count()
}

/// The place of a text among these scripts.
fn place_of(scripts: &[KeptScript], hash: u64, text: &[u8]) -> Option<usize>
    ensures { IfSome result (IsPlaceOf (texts_of (map pair_of scripts.now)) text.now) }
{
    for (place, kept) in scripts.iter().enumerate() {
        if kept.hash == hash && kept.text.as_slice() == text {
            return Some(place);
        }
    }
    None
}

/// The place of the least recently used script.
fn least_recent(scripts: &[KeptScript]) -> usize
    requires { 0 < length scripts.now }
    ensures { result < length scripts.now }
{
    let mut least = 0;
    for (place, kept) in scripts.iter().enumerate() {
        if kept.used < scripts[least].used {
            least = place;
        }
    }
    least
}

/// Notes the number of the look-up that uses a script.
fn mark_used(scripts: &mut [KeptScript], place: usize, number: u64)
    requires { place < length scripts.old }
    ensures { map pair_of scripts.new ≡ map pair_of scripts.old }
{
    scripts[place].used = number;
}
