// Bytes cut into pieces of one size.
ghost use Rattle.std.specs.Prelude.{◌≡◌, ◌<◌, ◌≤◌, ◌+◌, ◌++◌, [], ℕ, List, map, length, IsTrue, IfOk, OnOk};
ghost use Rattle.keep_files.specs.Layout.{cut, end_to_end};
ghost use Rattle.keep_files.specs.Places.{file_at, are_within};
ghost use Rattle.keep_files.specs.Pieces.{given_to, last_piece, IsCut};

use crate::file::FileIn;
use keep_spec::Bytes;
use std::alloc::{AllocError, Global};
use std::mem;

/// The pieces of the bytes that were given so far.
#[derive(Drop)]
pub(crate) struct Cutter {
    // How many bytes a piece has.
    pub(crate) size: usize,
    // How many bytes are still to come; the next piece takes memory for no more.
    pub(crate) left: u64,
    // Whole pieces.
    pub(crate) pieces: Vec<Bytes>,
    // The beginning of the next piece.
    pub(crate) begun: Vec<u8>,
}

impl Cutter {
    // For so many bytes in all.
    fn new(alloc: Global, size: usize, total: u64) -> Result<Cutter, AllocError>
        requires { 0 < size }
        ensures size { IfOk result (λ c. c.size ≡ size) }
        ensures cut { IfOk result IsCut }
        ensures empty { IfOk result (λ c. given_to c ≡ []) }
    {
        Ok(Cutter {
            size,
            left: total,
            pieces: Vec::new(alloc),
            begun: Vec::with_capacity(alloc, memory_for(size, total))?,
        })
    }

    // Appends bytes.
    fn push(&mut self, alloc: Global, bytes: &[u8]) -> Result<(), AllocError>
        requires { IsCut self.old }
        ensures size { OnOk result (self.new.size ≡ self.old.size) }
        ensures cut { OnOk result (IsCut self.new) }
        ensures given { OnOk result (given_to self.new ≡ given_to self.old ++ bytes.now) }
    {
        let mut rest = bytes;
        while !rest.is_empty() {
            let room = self.size - self.begun.len();
            let (first, later) = rest.split_at(rest.len().min(room));
            self.fill(alloc, first)?;
            rest = later;
        }
        Ok(())
    }

    // Appends bytes of the next piece, and begins another one where they end it.
    fn fill(&mut self, alloc: Global, bytes: &[u8]) -> Result<(), AllocError>
        requires cut { IsCut self.old }
        requires room { length self.old.begun.items + length bytes.now ≤ self.old.size }
        ensures size { OnOk result (self.new.size ≡ self.old.size) }
        ensures cut { OnOk result (IsCut self.new) }
        ensures given { OnOk result (given_to self.new ≡ given_to self.old ++ bytes.now) }
    {
        self.begun.extend_from_slice(bytes)?;
        self.left = self.left.saturating_sub(bytes.len() as u64);
        if self.begun.len() == self.size {
            let next = Vec::with_capacity(alloc, memory_for(self.size, self.left))?;
            let piece = mem::replace(&mut self.begun, next);
            self.pieces.push(Bytes::of(piece))?;
        }
        Ok(())
    }

    // All pieces; the last one may be shorter.
    fn into_pieces(self) -> Result<Vec<Bytes>, AllocError>
        requires { IsCut self }
        ensures { IfOk result (λ pieces. pieces.items ≡ cut self.size (given_to self)) }
    {
        let Cutter {
            size: _,
            left: _,
            pieces,
            begun,
        } = self;
        Ok(with_last(pieces, begun)?)
    }
}

// Whole pieces, and a last one unless it has no bytes.
fn with_last(mut pieces: Vec<Bytes>, last: Vec<u8>) -> Result<Vec<Bytes>, AllocError>
    ensures { IfOk result (λ all. all.items ≡ pieces.items ++ last_piece last.items) }
{
    if last.is_empty() {
        return Ok(pieces);
    }
    pieces.push(Bytes::of(last))?;
    Ok(pieces)
}

// How much memory the next piece takes, in bytes.
fn memory_for(size: usize, left: u64) -> usize {
    (size as u64).min(left) as usize
}

// The bytes of the files at these places, end to end, in pieces of so many bytes. `total` is how many bytes they have.
pub(crate) fn cut_files(
    alloc: Global,
    files: &[FileIn],
    places: &[usize],
    size: usize,
    total: u64,
) -> Result<Vec<Bytes>, AllocError>
    requires size { 0 < size }
    requires within { IsTrue (are_within (length files.now) places.now) }
    ensures { IfOk result (λ pieces. pieces.items ≡ cut size (end_to_end (map (file_at files.now) places.now))) }
{
    let mut cutter = Cutter::new(alloc, size, total)?;
    for place in places {
        cutter.push(alloc, files[*place].bytes.as_slice())?;
    }
    cutter.into_pieces()
}
