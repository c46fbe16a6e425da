//! The part of a head that a session holds.
//! Allocates.
ghost use Rattle.std.specs.Prelude.{◌≡◌, ◌+◌, ◌≤◌, ◌<◌, ◌++◌, [], length, take, OnOk, OnErr};
ghost use Rattle.http_front.specs.Fronts.{head_limit};

use crate::scan::HEAD_LIMIT;
use arch_base::NoMemory;
use std::alloc::Global;
use std::marker::Model;

/// The part of a head that a session holds.
///
/// It takes 16,384 bytes of memory when the first part is kept, and none after that. So only the
/// keeping of a first part can run out of memory.
#[derive(Drop)]
pub(crate) struct HeldHead {
    buffer: Vec<u8>,
    len: usize,
}

impl Model for HeldHead {
    ghost use Rattle.std.specs.Prelude.{◌≤◌, ◌⊎◌, ◌≡◌, List, ℕ, length, take};
    ghost use Rattle.http_front.specs.Fronts.{head_limit};

    ghost Value = { List ℕ };

    ghost view = { λ h. take h.len h.buffer.items };

    ghost invariant = { λ h. (h.len ≤ length h.buffer.items)
        × ((length h.buffer.items ≡ 0) ⊎ (length h.buffer.items ≡ head_limit)) };
}

impl HeldHead {
    /// Returns an empty part. Allocates nothing.
    pub(crate) fn new(alloc: Global) -> HeldHead
        ensures { result ≡ [] }
    {
        HeldHead {
            buffer: Vec::new(alloc),
            len: 0,
        }
    }

    /// Returns the bytes.
    pub(crate) fn as_slice(&self) -> &[u8]
        ensures { result.now ≡ self.now }
    {
        &self.buffer[..self.len]
    }

    /// Returns the number of bytes.
    pub(crate) fn len(&self) -> usize
        ensures { result ≡ length self.now }
    {
        self.len
    }

    /// Drops the bytes, and keeps the memory.
    pub(crate) fn clear(&mut self)
        ensures { self.new ≡ [] }
    {
        self.len = 0;
    }

    /// Appends bytes.
    ///
    /// `NoMemory` leaves the bytes unchanged. It comes only while there are none.
    pub(crate) fn keep(&mut self, piece: &[u8]) -> Result<(), NoMemory>
        requires { length self.old + length piece.now ≤ head_limit }
        ensures ok { OnOk result (self.new ≡ self.old ++ piece.now) }
        ensures err { OnErr result (self.new ≡ self.old) }
    {
        if self.buffer.len() < HEAD_LIMIT {
            self.buffer.resize(HEAD_LIMIT, 0)?;
        }
        put_at(self.buffer.as_mut_slice(), self.len, piece);
        self.len += piece.len();
        Ok(())
    }

    /// Appends bytes to some.
    pub(crate) fn join(&mut self, piece: &[u8])
        requires some { 0 < length self.old }
        requires room { length self.old + length piece.now ≤ head_limit }
        ensures { self.new ≡ self.old ++ piece.now }
    {
        put_at(self.buffer.as_mut_slice(), self.len, piece);
        self.len += piece.len();
    }
}

/// Copies a piece into a buffer at an offset.
fn put_at(buffer: &mut [u8], at: usize, piece: &[u8])
    requires { at + length piece.now ≤ length buffer.old }
    ensures front { take (at + length piece.now) buffer.new ≡ take at buffer.old ++ piece.now }
    ensures size { length buffer.new ≡ length buffer.old }
{
    let (_, back) = buffer.split_at_mut(at);
    let (middle, _) = back.split_at_mut(piece.len());
    middle.copy_from_slice(piece);
}
