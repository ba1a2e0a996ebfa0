//! A scan for the end of the first item, octet by octet.
ghost use Rattle.std.specs.Prelude.{◌≡◌, ℕ, ◌+◌, ◌-◌, ◌<◌, ◌≤◌, ◌++◌, ◌∷◌, [], Bool, List, length, fold, take};
ghost use Rattle.managesieve_protocol.specs.declared.items.ItemExtent.TheVariants.{Need};
ghost use Rattle.managesieve_protocol.specs.Items.{IsFirstExtent};
ghost use Rattle.managesieve_protocol.specs.Machine as m;
ghost use Rattle.managesieve_protocol.specs.Scanning.{reached, fed, fed_until, literal_rest, extent_of, ItemEndsAt, IsScanOf};
ghost use Rattle.managesieve_protocol.specs.Shown as s;

use crate::items::ItemExtent;
use crate::state::State;
use std::marker::Model;

/// The largest number of octets outside literals in one item.
const MAX_OUTSIDE: usize = 8192;

/// The largest literal, in octets.
const MAX_LITERAL: u32 = 1_048_576;

/// A scan of a stream that comes in pieces: the first item in the octets so far, and how many were looked at.
///
/// It stands for the octets that it took since `new`, and keeps none of them: only the state of their line, and two numbers.
/// No call takes memory. Once the first item is found it stays: octets are taken only until then.
#[derive(Drop)]
pub struct Scan {
    line: State,
    outside: usize,
    looked: usize,
    reach: ItemExtent,
}

impl Model for Scan {
    ghost use Rattle.std.specs.Prelude.{◌≡◌, ◌+◌, ◌≤◌};
    ghost use Rattle.managesieve_protocol.specs.declared.items.ItemExtent.TheVariants.{Need};
    ghost use Rattle.managesieve_protocol.specs.Scanning.{ScanView, ItemEndsAt};
    ghost use Rattle.managesieve_protocol.specs.Machine.{quoted_room};
    ghost use Rattle.managesieve_protocol.specs.Shown.{shown_state, scan_shown};

    ghost Value = { ScanView };

    ghost use Rattle.std.specs.Coded.{codes};
    ghost use Rattle.managesieve_protocol.specs.Machine.{params_code};

    ghost coded = { Prim.hlevel (codes, params_code) };

    ghost view = { λ scan. record { known = scan_shown scan.line scan.outside scan.looked scan.reach; looked = scan.looked } };

    ghost invariant = { λ scan. (scan.outside ≤ 8192) × (scan.looked ≤ 2105345)
        × (scan.reach ≡ Need → scan.looked + quoted_room (shown_state scan.line) ≤ scan.outside + 2097152)
        × ItemEndsAt scan.reach scan.looked };
}

impl Scan {
    /// Before the first octet; if a challenge is pending, the item is one string.
    pub fn new(pending: bool) -> Scan
        ensures { IsScanOf pending result [] }
    {
        Scan {
            line: State::start(pending),
            outside: 0,
            looked: 0,
            reach: ItemExtent::Need,
        }
    }

    /// Takes one octet more. The first item may not be found yet: see `state`.
    pub fn turn(&mut self, octet: u8)
        requires { reached self.old ≡ Need }
        ensures taken { self.new ≡ fed self.old octet }
        ensures stands { (pending : Bool) (text : List ℕ) → IsScanOf pending self.old text → IsScanOf pending self.new (text ++ octet ∷ []) }
    {
        let outside = self.outside + weight(self.line);
        let looked = self.looked + 1;
        let next = self.line.step(octet);
        match ending(self.line, next, octet, outside, looked) {
            ItemExtent::Need => {
                self.line = next;
                self.outside = outside;
                self.looked = looked;
            }
            reach => {
                self.reach = reach;
                self.looked = looked;
            }
        }
    }

    /// Takes the octets of a piece in order until the first item ends, and returns how many it took: all of them if
    /// it doesn't end. Octets after it are not looked at, nor any if the item was found before.
    ///
    /// Time is linear in the octets taken outside literals, each of which is looked at once, or twice if
    /// it ends a run that is taken in one step; those inside literals are only counted.
    pub fn feed(&mut self, octets: &[u8]) -> usize
        ensures within { result ≤ length octets.now }
        ensures until { self.new ≡ fed_until self.old octets.now }
        ensures taken { self.new ≡ fold fed self.old (take result octets.now) }
        ensures whole { reached self.new ≡ Need → result ≡ length octets.now }
        ensures before { (count : ℕ) → count < result → reached (fold fed self.old (take count octets.now)) ≡ Need }
        ensures stands { (pending : Bool) (text : List ℕ) → IsScanOf pending self.old text → IsScanOf pending self.new (text ++ take result octets.now) }
    {
        let mut taken = 0;
        while let ItemExtent::Need = self.state() {
            let count = self.feed_some(&octets[taken..]);
            if count == 0 {
                return taken;
            }
            taken += count;
        }
        taken
    }

    /// The first item in the octets so far: `Need` if it isn't complete.
    pub fn state(&self) -> ItemExtent
        ensures reached { result ≡ reached self.now }
        ensures value { (pending : Bool) (text : List ℕ) → IsScanOf pending self.now text → result ≡ extent_of pending text }
        ensures item { (pending : Bool) (text : List ℕ) → IsScanOf pending self.now text → IsFirstExtent pending result text }
        ensures ends { ItemEndsAt result self.now.looked }
    {
        self.reach
    }

    /// How many octets the scan took. No item is so long that this could come near the largest number.
    pub fn looked(&self) -> u64
        ensures value { result ≡ self.now.looked }
        ensures count { (pending : Bool) (text : List ℕ) → IsScanOf pending self.now text → result ≡ length text }
    {
        self.looked as u64
    }

    // Takes a run of octets in one step, or else one octet; returns 0 if there is none.
    fn feed_some(&mut self, octets: &[u8]) -> usize
        requires { reached self.old ≡ Need }
        ensures within { result ≤ length octets.now }
        ensures taken { self.new ≡ fold fed self.old (take result octets.now) }
        ensures none { result ≡ 0 → length octets.now ≡ 0 }
        ensures before { (count : ℕ) → count < result → reached (fold fed self.old (take count octets.now)) ≡ Need }
    {
        let count = self.feed_run(octets);
        if count > 0 {
            return count;
        }
        let Some((octet, _)) = octets.split_first() else {
            return 0;
        };
        self.turn(*octet);
        1
    }

    // Takes the octets at the start that end nothing and leave the line in its state: those of a name, of a literal,
    // plain ones between quotation marks, and those of a bad line before its LF. Returns how many.
    fn feed_run(&mut self, octets: &[u8]) -> usize
        requires { reached self.old ≡ Need }
        ensures within { result ≤ length octets.now }
        ensures taken { self.new ≡ fold fed self.old (take result octets.now) }
        ensures still { reached self.new ≡ Need }
    {
        let inside = self.literal_left();
        if inside > 0 {
            let count = inside.min(octets.len());
            self.skip_literal(count);
            return count;
        }
        let most = (MAX_OUTSIDE - self.outside).min(octets.len());
        let (line, count) = self.line.feed_run(&octets[..most]);
        self.line = line;
        self.outside += count;
        self.looked += count;
        count
    }

    // Takes that many octets of a literal, whatever they are.
    fn skip_literal(&mut self, count: usize)
        requires { count ≤ literal_rest self.old.known }
        ensures { (piece : List ℕ) → length piece ≡ count → self.new ≡ fold fed self.old piece }
    {
        if let State::Body(left, params) = self.line {
            self.looked += count;
            self.line = if count > left as usize {
                State::Between(params)
            } else {
                State::Body(left - count as u32, params)
            };
        }
    }

    // How many octets of a literal come next.
    fn literal_left(&self) -> usize
        ensures { result ≡ literal_rest self.now.known }
    {
        match (self.reach, self.line) {
            (ItemExtent::Need, State::Body(left, _)) => left as usize + 1,
            _ => 0,
        }
    }
}

// 1 if the next octet is outside literals, else 0.
fn weight(state: State) -> usize
    ensures { result ≡ m.weight (s.shown_state state) }
{
    match state {
        State::Body(_, _) => 0,
        _ => 1,
    }
}

// What ends with an octet that leads from one state to the next.
fn ending(state: State, next: State, octet: u8, outside: usize, looked: usize) -> ItemExtent
    requires { s.shown_state next ≡ m.step (s.shown_state state) octet }
    ensures { result ≡ s.ending (s.shown_state state) outside looked octet }
{
    if outside > MAX_OUTSIDE || (is_large(state) && octet == b'\n') {
        return ItemExtent::TooBig;
    }
    match next {
        State::Whole => ItemExtent::Command(looked),
        State::Dead if octet == b'\n' => ItemExtent::Bad(looked),
        _ => ItemExtent::Need,
    }
}

// Whether an LF here begins a literal that is too large.
fn is_large(state: State) -> bool
    ensures { result ≡ m.is_large (s.shown_state state) }
{
    match state {
        State::Return(number, _) => number > MAX_LITERAL,
        _ => false,
    }
}
