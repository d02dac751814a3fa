// Blocks, each hashed once.
ghost use Rattle.std.specs.Prelude.{◌≡◌, ◌≤◌, length, IfOk};
ghost use Rattle.md5.specs.Md5.{md5};

use keep_spec::{Bytes, Digest, NoMemory};
use md5::Md5;
use std::alloc::Global;
use std::marker::Model;

/// At most 67,108,864 bytes, hashed when the block is made: its digest is their MD5 (RFC 1321). Contracts see the bytes.
#[derive(Drop, Debug)]
pub struct Block {
    digest: Digest,
    bytes: Bytes,
}

/// The bytes that `Block::of` was given, where they are more than a block may have.
#[derive(Drop, Debug)]
pub struct TooLong {
    pub bytes: Bytes,
}

impl Model for Block {
    ghost use Rattle.std.specs.Prelude.{◌≡◌, ◌≤◌, List, ℕ, length};
    ghost use Rattle.md5.specs.Md5.{md5};

    ghost Value = { List ℕ };

    ghost view = { λ b. b.bytes };

    ghost invariant = { λ b. (b.digest ≡ md5 b.bytes) × (length b.bytes ≤ 67108864) };
}

impl Block {
    ghost use Rattle.keep_event.specs.Block.{block_of};

    /// The most bytes that a block has: 64 MiB.
    pub const MAX_SIZE: usize = 67_108_864;

    /// Makes a block of the bytes and hashes them. Exactly above 67,108,864 bytes it returns them in `TooLong`, unhashed. Takes no memory.
    pub fn of(bytes: Bytes) -> Result<Block, TooLong>
        ensures { result ≡ block_of bytes }
    {
        if bytes.len() > Block::MAX_SIZE {
            return Err(TooLong { bytes });
        }
        let digest = Digest::of_md5(<Md5 as md5::Digest>::digest(bytes.as_slice()));
        Ok(Block { digest, bytes })
    }

    /// Returns the MD5 of the bytes, which was taken when the block was made.
    pub fn digest(&self) -> Digest
        ensures { result ≡ md5 self.now }
    {
        self.digest
    }

    /// Returns the bytes, at most 67,108,864.
    pub fn bytes(&self) -> &[u8]
        ensures value { result.now ≡ self.now }
        ensures size_bounded { length self.now ≤ 67108864 }
    {
        self.bytes.as_slice()
    }

    /// Returns the bytes, without a copy.
    pub fn into_bytes(self) -> Bytes
        ensures { result ≡ self }
    {
        let Block { digest: _, bytes } = self;
        bytes
    }

    /// Copies the block without hashing it again.
    pub fn duplicate(&self, alloc: Global) -> Result<Block, NoMemory>
        ensures { IfOk result (λ b. b ≡ self.now) }
    {
        Ok(Block {
            digest: self.digest,
            bytes: self.bytes.duplicate(alloc)?,
        })
    }
}
