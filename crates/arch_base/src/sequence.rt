//! A growable list over `Vec`. Contracts see it as the list of its items.
//! Allocates.
ghost use Rattle.std.specs.Prelude.{◌≡◌, ◌++◌, [], ◌∷◌, List, take, IfOk, if◌then◌else◌, is_ok};

use std::alloc::{AllocError, AllocFailed, Global};
use std::marker::Model;
use thiserror::Error;

/// An allocation failed.
#[derive(Debug, Drop, Error)]
#[error("out of memory")]
pub struct NoMemory;

impl From<AllocError> for NoMemory {
    fn from(_refused: AllocError) -> NoMemory {
        NoMemory
    }
}

impl<T: Drop> From<AllocFailed<T>> for NoMemory {
    fn from(_refused: AllocFailed<T>) -> NoMemory {
        NoMemory
    }
}

/// A list that grows at its end, and keeps its allocator.
#[derive(Debug, Drop)]
pub struct Sequence<T> {
    items: Vec<T>,
}

impl<T> Model for Sequence<T> {
    ghost Value = { List T };

    ghost view = { λ s. s.items.items };
}

/// The bytes of a text or a file.
pub type Bytes = Sequence<u8>;

/// A list of texts.
pub type Texts = Sequence<Bytes>;

/// A list of numbers: offsets, lengths, moments or counts.
pub type Numbers = Sequence<u64>;

/// A list of numbers of messages.
pub type MessageNumbers = Sequence<u32>;

/// A type whose values can be copied, which may allocate.
pub trait Duplicate: Drop {
    /// Returns a copy, or `NoMemory` if an allocation fails.
    fn duplicate(&self) -> Result<Self, NoMemory>
        ensures { IfOk result (λ made. made ≡ self.now) };
}

impl Duplicate for u8 {
    fn duplicate(&self) -> Result<u8, NoMemory> {
        Ok(*self)
    }
}

impl Duplicate for u32 {
    fn duplicate(&self) -> Result<u32, NoMemory> {
        Ok(*self)
    }
}

impl Duplicate for u64 {
    fn duplicate(&self) -> Result<u64, NoMemory> {
        Ok(*self)
    }
}

impl<T: Duplicate> Duplicate for Sequence<T> {
    fn duplicate(&self) -> Result<Sequence<T>, NoMemory> {
        self.copy()
    }
}

impl<T> Sequence<T> {
    /// Returns an empty list. Allocates nothing.
    pub fn new(alloc: Global) -> Self
        ensures { result ≡ [] }
    {
        Sequence {
            items: Vec::new(alloc),
        }
    }

    /// Returns the list of a vector's items. Allocates nothing.
    pub fn from_vec(items: Vec<T>) -> Self
        ensures { result ≡ items.items }
    {
        Sequence { items }
    }

    /// Returns the vector of the items. Allocates nothing.
    pub fn into_vec(self) -> Vec<T>
        ensures { result.items ≡ self }
    {
        let Sequence { items } = self;
        items
    }

    /// Returns the items as a slice.
    pub fn as_slice(&self) -> &[T]
        ensures { result.now ≡ self.now }
    {
        self.items.as_slice()
    }

    /// Keeps the first `len` items and drops the rest.
    pub fn truncate(&mut self, len: usize)
    where
        T: Drop,
        ensures { self.new ≡ take len self.old }
    {
        self.items.truncate(len);
    }

    /// Appends an item.
    ///
    /// `NoMemory` leaves the list unchanged.
    pub fn push(&mut self, item: T) -> Result<(), NoMemory>
    where
        T: Drop,
        ensures { self.new ≡ (if is_ok result then self.old ++ item ∷ [] else self.old) }
    {
        self.items.push(item)?;
        Ok(())
    }
}

impl<T: Duplicate> Sequence<T> {
    /// Returns a copy, or `NoMemory` if an allocation fails.
    pub fn copy(&self) -> Result<Self, NoMemory>
        ensures { IfOk result (λ made. made ≡ self.now) }
    {
        let mut made = Vec::new(*self.items.allocator());
        for item in self.items.as_slice() {
            made.push(item.duplicate()?)?;
        }
        Ok(Sequence { items: made })
    }
}

impl Sequence<u8> {
    /// Appends bytes.
    ///
    /// `NoMemory` leaves the list unchanged.
    pub fn push_slice(&mut self, bytes: &[u8]) -> Result<(), NoMemory>
        ensures { self.new ≡ (if is_ok result then self.old ++ bytes.now else self.old) }
    {
        self.items.extend_from_slice(bytes)?;
        Ok(())
    }
}
