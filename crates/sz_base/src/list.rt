//! The lists that contracts see as lists, and the names of those that are used.

ghost use Rattle.std.specs.Prelude.{◌≡◌, ◌↔◌, List, [], ◌∷◌, ◌++◌, length, IsTrue, IfOk, OnOk, OnErr, IfSome, IfNone, IsNone, slice_get};
ghost use Rattle.std.specs.Option.{option_copied};

use crate::OutOfMemory;
use std::alloc::Global;
use std::marker::Model;

/// A list of items, one after another. Contracts see it as the list.
#[derive(Debug, Drop)]
pub struct Items<T> {
    items: Vec<T>,
}

/// Bytes.
pub type Bytes = Items<u8>;

/// A text, as its bytes. They need not be UTF-8.
pub type Text = Items<u8>;

/// Texts.
pub type Texts = Items<Text>;

/// Certificates, each as its bytes.
pub type Certs = Items<Bytes>;

/// Messages to be signed.
pub type Messages = Items<Bytes>;

/// Signatures, each as its bytes.
pub type Signatures = Items<Bytes>;

/// Numbers of calls, counted from 1.
pub type Calls = Items<u64>;

/// Numbers.
pub type Numbers = Items<u32>;

impl<T> Model for Items<T> {
    ghost Value = { List T };

    ghost view = { λ list. list.items.items };
}

impl<T> Items<T> {
    /// The empty list. Takes no memory.
    pub fn create(alloc: Global) -> Self
        ensures { result ≡ [] }
    {
        Items {
            items: Vec::new(alloc),
        }
    }

    /// A list of the vector's elements. Takes no memory.
    pub fn from_vec(items: Vec<T>) -> Self
        ensures { result ≡ items.items }
    {
        Items { items }
    }

    /// The list's items as a vector. Takes no memory.
    pub fn into_vec(self) -> Vec<T>
        ensures { result.items ≡ self }
    {
        self.items
    }

    /// How many items there are.
    pub fn len(&self) -> usize
        ensures { result ≡ length self.now }
    {
        self.items.len()
    }

    /// There is no item.
    pub fn is_empty(&self) -> bool
        ensures { IsTrue result ↔ (self.now ≡ []) }
    {
        self.items.is_empty()
    }

    /// The items.
    pub fn as_slice(&self) -> &[T]
        ensures { result.now ≡ self.now }
    {
        self.items.as_slice()
    }

    /// The item at this place, counted from 0, or `None` exactly where the list has no such place.
    pub fn get(&self, at: usize) -> Option<&T>
        ensures { option_copied result ≡ slice_get self.now at }
    {
        self.items.get(at)
    }
}

impl<T: Drop> Items<T> {
    /// Puts an item last. A refusal leaves the list as it was.
    pub fn push(&mut self, item: T) -> Result<(), OutOfMemory>
        ensures ok { OnOk result (self.new ≡ self.old ++ item ∷ []) }
        ensures err { OnErr result (self.new ≡ self.old) }
    {
        self.items.push(item)?;
        Ok(())
    }

    /// Takes the last item off, or answers `None` exactly where the list is empty.
    pub fn pop(&mut self) -> Option<T>
        ensures empty { IsNone result ↔ (self.old ≡ []) }
        ensures last { IfSome result (λ item. self.old ≡ self.new ++ item ∷ []) }
        ensures none { IfNone result (self.new ≡ self.old) }
    {
        self.items.pop()
    }
}

impl Items<u8> {
    /// The list of these bytes.
    pub fn from_slice(alloc: Global, bytes: &[u8]) -> Result<Self, OutOfMemory>
        ensures { IfOk result (λ made. made ≡ bytes.now) }
    {
        Ok(Items {
            items: bytes.to_vec(alloc)?,
        })
    }

    /// Puts bytes last. A refusal leaves the list as it was.
    pub fn append(&mut self, more: &[u8]) -> Result<(), OutOfMemory>
        ensures ok { OnOk result (self.new ≡ self.old ++ more.now) }
        ensures err { OnErr result (self.new ≡ self.old) }
    {
        self.items.extend_from_slice(more)?;
        Ok(())
    }

    /// An equal list.
    pub fn copy(&self, alloc: Global) -> Result<Self, OutOfMemory>
        ensures { IfOk result (λ copied. copied ≡ self.now) }
    {
        Ok(Items {
            items: self.items.to_vec(alloc)?,
        })
    }
}

impl Items<Bytes> {
    /// An equal list.
    pub fn copy(&self, alloc: Global) -> Result<Self, OutOfMemory>
        ensures { IfOk result (λ copied. copied ≡ self.now) }
    {
        let mut copied = Items::create(alloc);
        for item in self.items.iter() {
            copied.push(item.copy(alloc)?)?;
        }
        Ok(copied)
    }
}
