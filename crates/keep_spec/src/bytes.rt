// Bytes that contracts see as a list.
ghost use Rattle.std.specs.Prelude.{◌≡◌, ◌↔◌, IsTrue, length, IfOk};

use crate::NoMemory;
use std::alloc::Global;
use std::marker::Model;

/// A byte string on the heap. Contracts see the list of its bytes.
#[derive(Drop, Debug)]
pub struct Bytes {
    items: Vec<u8>,
}

impl Model for Bytes {
    ghost use Rattle.std.specs.Prelude.{List, ℕ};

    ghost Value = { List ℕ };

    ghost view = { λ b. b.items.items };
}

impl Bytes {
    /// The bytes of a vector, without a copy.
    pub fn of(bytes: Vec<u8>) -> Bytes
        ensures { result ≡ bytes.items }
    {
        Bytes { items: bytes }
    }

    /// A copy of some bytes. `NoMemory` where none is given for it.
    pub fn copy_of(alloc: Global, bytes: &[u8]) -> Result<Bytes, NoMemory>
        ensures { IfOk result (λ b. b ≡ bytes.now) }
    {
        Ok(Bytes {
            items: Vec::from_slice(alloc, bytes)?,
        })
    }

    /// The bytes, lent.
    pub fn as_slice(&self) -> &[u8]
        ensures { result.now ≡ self.now }
    {
        self.items.as_slice()
    }

    /// The vector of the bytes, without a copy.
    pub fn into_vec(self) -> Vec<u8>
        ensures { result.items ≡ self }
    {
        self.items
    }

    /// The number of bytes.
    pub fn len(&self) -> usize
        ensures { result ≡ length self.now }
    {
        self.items.len()
    }

    /// A copy. `NoMemory` where none is given for it.
    pub fn duplicate(&self, alloc: Global) -> Result<Bytes, NoMemory>
        ensures { IfOk result (λ b. b ≡ self.now) }
    {
        Bytes::copy_of(alloc, self.as_slice())
    }

    /// Whether both are the same bytes; so does `==`.
    pub fn same(&self, other: &Bytes) -> bool
        ensures { IsTrue result ↔ (self.now ≡ other.now) }
    {
        self.items.as_slice() == other.items.as_slice()
    }
}
