//! Octets that are assembled from pieces of a value.
ghost use Rattle.std.specs.Prelude.{◌≡◌, ◌+◌, ◌≤◌, [], ◌++◌, length, take, IsTrue, IfOk, OnOk};
ghost use Rattle.mail_address.specs.Pieces as spec;

use octets::Octets;
use std::alloc::{AllocError, Global};
use std::marker::Model;
use std::mem;

/// Octets that are assembled from pieces of a value. Contracts see the octets.
///
/// They are a range of the value as long as the pieces follow each other in it, and a copy from then on. The copy's
/// capacity is kept when the octets are cleared.
#[derive(Drop)]
pub struct Pieces<'a> {
    /// The value from the first piece on.
    from: &'a [u8],
    /// The number of octets of the range.
    len: usize,
    copy: Octets,
    is_copied: bool,
}

impl<'a> Model for Pieces<'a> {
    ghost use Rattle.std.specs.Prelude.{ℕ, ◌≤◌, List, length, take, cond};

    ghost Value = { List ℕ };

    ghost view = { λ pieces. cond pieces.is_copied pieces.copy (take pieces.len pieces.from.now) };

    ghost invariant = { λ pieces. pieces.len ≤ length pieces.from.now };
}

/// Appends the text without its quotation marks, and with each quoted pair replaced by its octet. Reads the text once.
pub(crate) fn unquote(out: &mut Octets, text: &[u8]) -> Result<(), AllocError>
    ensures { OnOk result (out.new ≡ out.old ++ spec.unquoted_text text.now) }
{
    let mut escaped = false;
    for octet in text {
        if !escaped && *octet == b'\\' {
            escaped = true;
        } else if escaped || *octet != b'"' {
            out.push(*octet)?;
            escaped = false;
        }
    }
    Ok(())
}

/// Replaces the octets by this text, within the same capacity.
fn replace(alloc: Global, out: &mut Octets, text: &[u8]) -> Result<(), AllocError>
    ensures { OnOk result (out.new ≡ text.now) }
{
    let mut items = mem::replace(out, Octets::new(alloc)).into_vec();
    items.clear();
    *out = Octets::from_vec(items);
    out.extend_from_slice(text)
}

/// Whether the piece is right after the first `len` octets of `from`.
fn goes_on(from: &[u8], len: usize, piece: &[u8]) -> bool
    requires { len ≤ length from.now }
    ensures within { IsTrue result → len + length piece.now ≤ length from.now }
    ensures joined { IsTrue result → take (len + length piece.now) from.now ≡ take len from.now ++ piece.now }
{
    let (_, after) = from.split_at(len);
    after.starts_with(piece)
}

impl<'a> Pieces<'a> {
    /// Nothing. Takes no memory.
    pub(crate) fn new(alloc: Global) -> Pieces<'a>
        ensures { result ≡ [] }
    {
        Pieces {
            from: b"",
            len: 0,
            copy: Octets::new(alloc),
            is_copied: false,
        }
    }

    /// Removes all octets. The capacity stays.
    pub(crate) fn clear(&mut self)
        ensures { self.new ≡ [] }
    {
        self.len = 0;
        self.is_copied = false;
    }

    /// Appends a piece. No octet is copied as long as the value, from where the piece is said to be, goes on as the pieces do.
    pub(crate) fn add(
        &mut self,
        alloc: Global,
        piece: &[u8],
        from: &'a [u8],
    ) -> Result<(), AllocError>
        ensures { OnOk result (self.new ≡ self.old ++ piece.now) }
    {
        if self.is_copied {
            return self.copy.extend_from_slice(piece);
        }
        if self.len == 0 {
            self.from = from;
        }
        if goes_on(self.from, self.len, piece) {
            self.len += piece.len();
            return Ok(());
        }
        let (run, _) = self.from.split_at(self.len);
        replace(alloc, &mut self.copy, run)?;
        self.is_copied = true;
        self.copy.extend_from_slice(piece)
    }

    /// Appends the value of a quoted string.
    pub(crate) fn add_unquoted(&mut self, alloc: Global, text: &[u8]) -> Result<(), AllocError>
        ensures { OnOk result (self.new ≡ self.old ++ spec.unquoted_text text.now) }
    {
        if !self.is_copied {
            let (run, _) = self.from.split_at(self.len);
            replace(alloc, &mut self.copy, run)?;
            self.is_copied = true;
        }
        unquote(&mut self.copy, text)
    }

    /// Copies the octets, with their exact capacity.
    pub(crate) fn try_clone(&self, alloc: Global) -> Result<Octets, AllocError>
        ensures { IfOk result (λ text. text ≡ self.now) }
    {
        if self.is_copied {
            return self.copy.try_clone(alloc);
        }
        let (run, _) = self.from.split_at(self.len);
        Octets::from_slice(alloc, run)
    }
}
