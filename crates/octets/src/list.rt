//! A list.
ghost use Rattle.std.specs.Prelude.{◌≡◌, ◌↔◌, [], ◌∷◌, ◌++◌, length, IsTrue, IfOk, OnOk, OnErr};

use crate::string::Octets;
use std::alloc::{AllocError, Global};
use std::fmt;
use std::marker::Model;

/// A list of the values that the crates of the workspace deal in: texts, lines, addresses. Contracts see the list of its
/// items, without the vector's capacity.
#[derive(Drop)]
pub struct List<T> {
    items: Vec<T>,
}

/// A list of texts. Contracts see the list of their octets.
pub type Texts = List<Octets>;

impl<T> Model for List<T> {
    ghost use Rattle.std.specs.Prelude.{List};

    ghost Value = { List T };

    ghost view = { λ list. list.items.items };
}

impl<T: Drop> List<T> {
    /// No items. Takes no memory.
    pub fn new(alloc: Global) -> List<T>
        ensures { result ≡ [] }
    {
        List {
            items: Vec::new(alloc),
        }
    }

    /// The same items, without a copy.
    pub fn from_vec(items: Vec<T>) -> List<T>
        ensures { result ≡ items.items }
    {
        List { items }
    }

    /// The same items, without a copy.
    pub fn into_vec(self) -> Vec<T>
        ensures { result.items ≡ self }
    {
        let List { items } = self;
        items
    }

    /// The items, in order. Takes no memory.
    pub fn as_slice(&self) -> &[T]
        ensures { result.now ≡ self.now }
    {
        self.items.as_slice()
    }

    /// The number of items.
    pub fn len(&self) -> usize
        ensures { result ≡ length self.now }
    {
        self.items.len()
    }

    pub fn is_empty(&self) -> bool
        ensures { IsTrue result ↔ (self.now ≡ []) }
    {
        self.items.is_empty()
    }

    /// Appends one item, in amortised constant time. If there is no memory, the list stays as it was and the item is dropped.
    pub fn push(&mut self, item: T) -> Result<(), AllocError>
        ensures ok { OnOk result (self.new ≡ self.old ++ item ∷ []) }
        ensures err { OnErr result (self.new ≡ self.old) }
    {
        match self.items.push(item) {
            Ok(()) => Ok(()),
            Err(_) => Err(AllocError),
        }
    }
}

impl List<Octets> {
    /// A copy of the texts, in order: one allocation for the list, and one for each text that isn't empty.
    pub fn try_clone(&self, alloc: Global) -> Result<Texts, AllocError>
        ensures { IfOk result (λ copy. copy ≡ self.now) }
    {
        let mut copies = Texts::from_vec(Vec::with_capacity(alloc, self.len())?);
        for text in self.as_slice() {
            copies.push(text.try_clone(alloc)?)?;
        }
        Ok(copies)
    }
}

impl<T: fmt::Debug + Drop> fmt::Debug for List<T> {
    fn fmt<W: fmt::Write>(&self, f: &mut fmt::Formatter<W>) -> fmt::Result {
        self.as_slice().fmt(f)
    }
}
