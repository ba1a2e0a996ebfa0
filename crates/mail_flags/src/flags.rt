//! The flags of one message.
ghost use Rattle.std.specs.Prelude.{◌≡◌, ◌<◌, [], ◌∷◌, ◌++◌, length, not, IfOk, OnOk, IfSome, MatchOption};
ghost use Rattle.std.specs.List.{position};
ghost use Rattle.octets.specs.Ascii as ascii;
ghost use Rattle.mail_flags.specs.Names.{are_same as are_same_names};
ghost use Rattle.mail_flags.specs.Flags as flags;

use crate::name::{are_same, is_flag};
use crate::system::SystemFlag;
use octets::{Octets, is_blank};
use std::alloc::{AllocError, Global};
use std::marker::Model;

/// The most flags of a message.
const MAX_FLAGS: usize = 100;

/// The flags of a message: names in the order in which they were added, each as it was first written, and none twice. At most
/// 100, of at most 128 octets each.
#[derive(Debug, Drop)]
pub struct Flags {
    names: Vec<Octets>,
}

impl Model for Flags {
    ghost use Rattle.std.specs.Prelude.{ℕ, List};

    ghost Value = { List (List ℕ) };

    ghost view = { λ flags. flags.names.items };
}

impl Flags {
    /// No flags. Takes no memory.
    pub fn new(alloc: Global) -> Flags
        ensures { result ≡ [] }
    {
        Flags {
            names: Vec::new(alloc),
        }
    }

    /// Reads the flags that a text names, separated by blanks. What isn't the name of a flag is skipped, as is what comes after a
    /// hundred flags.
    pub fn read(alloc: Global, text: &[u8]) -> Result<Flags, AllocError>
        ensures { IfOk result (λ read. read ≡ flags.named_flags text.now) }
    {
        let mut read = Flags::new(alloc);
        read.add_named(alloc, text)?;
        Ok(read)
    }

    /// The names. Takes no memory.
    pub fn names(&self) -> &[Octets]
        ensures { result.now ≡ self.now }
    {
        self.names.as_slice()
    }

    /// Writes a text that names them, separated by single blanks.
    pub fn write(&self, alloc: Global) -> Result<Octets, AllocError>
        ensures { IfOk result (λ text. text ≡ flags.flags_text self.now) }
    {
        let Some((first, more)) = self.names.as_slice().split_first() else {
            return Ok(Octets::new(alloc));
        };
        let mut text = first.try_clone(alloc)?;
        for name in more {
            push_name(&mut text, name.as_slice())?;
        }
        Ok(text)
    }

    /// Sets the flags to those that the texts name (`setflag`, RFC 5232, 3.1). After an error the flags may be only some of these.
    pub fn set(&mut self, alloc: Global, texts: &[Octets]) -> Result<(), AllocError>
        ensures { OnOk result (self.new ≡ flags.with_all_named [] texts.now) }
    {
        self.names = Vec::new(alloc);
        self.add(alloc, texts)
    }

    /// Adds the flags that the texts name (`addflag`, RFC 5232, 3.2). After an error some of them may have been added.
    pub fn add(&mut self, alloc: Global, texts: &[Octets]) -> Result<(), AllocError>
        ensures { OnOk result (self.new ≡ flags.with_all_named self.old texts.now) }
    {
        for text in texts {
            self.add_named(alloc, text.as_slice())?;
        }
        Ok(())
    }

    /// Removes the flags that the texts name (`removeflag`, RFC 5232, 3.3).
    pub fn remove(&mut self, texts: &[Octets])
        ensures { self.new ≡ flags.without_all_named self.old texts.now }
    {
        for text in texts {
            self.remove_named(text.as_slice());
        }
    }

    /// Whether the flag is one of them.
    pub fn has(&self, name: &[u8]) -> bool
        ensures { result ≡ flags.has self.now name.now }
    {
        self.names
            .as_slice()
            .iter()
            .any(|there| are_same(there.as_slice(), name))
    }

    /// The letters of the system flags among them, as in the name of a Maildir's file; empty if there are no system flags.
    pub fn letters(&self, alloc: Global) -> Result<Octets, AllocError>
        ensures { IfOk result (λ letters. letters ≡ flags.letters self.now) }
    {
        let mut letters = Octets::new(alloc);
        for system in SystemFlag::ALL {
            if self.has(system.name()) {
                letters.push(system.letter())?;
            }
        }
        Ok(letters)
    }

    /// Adds the flags that one text names.
    fn add_named(&mut self, alloc: Global, text: &[u8]) -> Result<(), AllocError>
        ensures { OnOk result (self.new ≡ flags.with_named self.old text.now) }
    {
        let mut rest = text;
        while let Some((name, behind)) = cut_at_blank(rest) {
            self.add_one(alloc, name)?;
            rest = behind;
        }
        self.add_one(alloc, rest)
    }

    /// Adds a flag, if this is the name of one, it isn't there yet, and there is room.
    fn add_one(&mut self, alloc: Global, name: &[u8]) -> Result<(), AllocError>
        ensures { OnOk result (self.new ≡ flags.with_one self.old name.now) }
    {
        if self.names.len() < MAX_FLAGS && is_flag(name) && !self.has(name) {
            self.names.push(Octets::from_slice(alloc, name)?)?;
        }
        Ok(())
    }

    /// Removes the flags that one text names.
    fn remove_named(&mut self, text: &[u8])
        ensures { self.new ≡ flags.without_named self.old text.now }
    {
        let mut rest = text;
        while let Some((name, behind)) = cut_at_blank(rest) {
            self.remove_one(name);
            rest = behind;
        }
        self.remove_one(rest);
    }

    /// Removes a flag, if it is there.
    fn remove_one(&mut self, name: &[u8])
        ensures { self.new ≡ flags.without_one self.old name.now }
    {
        self.names.retain(|there| differs(there, name));
    }
}

/// Appends a blank and a name.
fn push_name(text: &mut Octets, name: &[u8]) -> Result<(), AllocError>
    ensures { OnOk result (text.new ≡ text.old ++ 32 ∷ name.now) }
{
    text.push(b' ')?;
    text.extend_from_slice(name)
}

/// What comes before the first blank of a text, and what comes after it; `None` if there is no blank.
fn cut_at_blank(text: &[u8]) -> Option<(&[u8], &[u8])>
    ensures cut { MatchOption result (flags.between_blanks text.now ≡ text.now ∷ []) (λ cut. flags.between_blanks text.now ≡ cut.0.now ∷ flags.between_blanks cut.1.now) }
    ensures shorter { IfSome result (λ cut. length cut.1.now < length text.now) }
{
    let at = first_blank(text)?;
    Some((&text[..at], &text[at + 1..]))
}

/// Where the first blank is, if there is one.
fn first_blank(text: &[u8]) -> Option<usize>
    ensures { result ≡ position ascii.is_blank text.now }
{
    text.iter().position(|octet| is_blank(*octet))
}

/// Whether a flag has another name.
fn differs(there: &Octets, name: &[u8]) -> bool
    ensures { result ≡ not (are_same_names there.now name.now) }
{
    !are_same(there.as_slice(), name)
}
