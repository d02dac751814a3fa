// Unpacking files.
ghost use Rattle.std.specs.Prelude.{◌≡◌, IsTrue, IfErr};
ghost use Rattle.std.specs.BTreeMap.{get};
ghost use Rattle.keep_spec.specs.Locator.{is_locator, digest};
ghost use Rattle.keep_spec.specs.Manifest.{IsGood};
ghost use Rattle.keep_normal.specs.Grouped.{byte_order};
ghost use Rattle.keep_normal.specs.Sound.{are_sound};
ghost use Rattle.keep_files.specs.Stored.{Unpacks, Lends, Collects, Fails, unpacking, file_of, bytes_of, part_bytes};

use crate::fault::UnpackError;
use crate::file::FileIn;
use crate::path::below_root;
use keep_locator::Locator;
use keep_normal::{FileParts, Part, files};
use keep_spec::{Bytes, Digest, Manifest};
use std::alloc::Global;
use std::collections::BTreeMap;

/// The files of a good manifest in ascending order of their paths' bytes, without the paths' leading `./`, read from blocks that are
/// found by their digests. `Missing` and `Short` come exactly at the first part, in order of path, whose block isn't there, or is too
/// short for it. The bytes are copied once.
pub fn unpack(
    alloc: Global,
    manifest: &Manifest,
    blocks: &BTreeMap<Digest, Bytes>,
) -> Result<Vec<FileIn>, UnpackError>
    requires { IsGood manifest.now }
    ensures { Collects result (unpacking manifest.now (λ d. get byte_order blocks.now d)) }
{
    let found = files(alloc, manifest)?;
    let mut unpacked = Vec::with_capacity(alloc, found.len())?;
    for file in found.as_slice() {
        unpacked.push(file_of(alloc, file, blocks)?)?;
    }
    Ok(unpacked)
}

// A file, read from its blocks.
fn file_of(
    alloc: Global,
    file: &FileParts,
    blocks: &BTreeMap<Digest, Bytes>,
) -> Result<FileIn, UnpackError>
    requires { IsTrue (are_sound file.now.parts) }
    ensures { Unpacks result (file_of (λ d. get byte_order blocks.now d) file.now) }
{
    let bytes = bytes_of(alloc, file.parts.as_slice(), blocks)?;
    let path = Vec::from_slice(alloc, below_root(file.path.as_slice()))?;
    Ok(FileIn {
        path: Bytes::of(path),
        bytes,
    })
}

// The bytes of parts, end to end. Memory is taken once each part is found.
fn bytes_of(
    alloc: Global,
    parts: &[Part],
    blocks: &BTreeMap<Digest, Bytes>,
) -> Result<Bytes, UnpackError>
    requires { IsTrue (are_sound parts.now) }
    ensures { Unpacks result (bytes_of (λ d. get byte_order blocks.now d) parts.now) }
{
    let mut bytes = Vec::with_capacity(alloc, size_of(parts, blocks)?)?;
    for part in parts {
        bytes.extend_from_slice(part_bytes(part, blocks)?)?;
    }
    Ok(Bytes::of(bytes))
}

// How many bytes parts have; `usize::MAX` where they have more.
fn size_of(parts: &[Part], blocks: &BTreeMap<Digest, Bytes>) -> Result<usize, UnpackError>
    requires { IsTrue (are_sound parts.now) }
    ensures { IfErr result (λ e. Fails e (bytes_of (λ d. get byte_order blocks.now d) parts.now)) }
{
    let mut size: usize = 0;
    for part in parts {
        size = size.saturating_add(part_bytes(part, blocks)?.len());
    }
    Ok(size)
}

// The bytes of a part in its block.
fn part_bytes<'a>(part: &Part, blocks: &'a BTreeMap<Digest, Bytes>) -> Result<&'a [u8], UnpackError>
    requires { IsTrue (is_locator part.now.locator) }
    ensures { Lends result (part_bytes (λ d. get byte_order blocks.now d) part.now) }
{
    let digest = digest_of(part.locator.as_slice());
    let Some(block) = blocks.get(&digest) else {
        return Err(UnpackError::Missing { digest });
    };
    let block = block.as_slice();
    if u128::from(part.offset) + u128::from(part.length) > block.len() as u128 {
        return Err(UnpackError::Short { digest });
    }
    let from = part.offset as usize;
    Ok(&block[from..from + part.length as usize])
}

// The digest of a locator.
fn digest_of(locator: &[u8]) -> Digest
    requires { IsTrue (is_locator locator.now) }
    ensures { result ≡ digest locator.now }
{
    let Ok(locator) = Locator::read(locator) else {
        unreachable!()
    };
    locator.digest()
}
