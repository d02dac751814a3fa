// Files packed and unpacked: the first 10,000 KiB of the input are files of 1 KiB, in directories of 100, the rest is one file.
ghost use Rattle.keep_spec.specs.Manifest.{IsGood};

use crate::print_line;
use anyhow::Result;
use keep_event::Block;
use keep_files::{FileIn, Packed, pack_files, unpack};
use keep_manifest::{Manifest, is_good, read};
use keep_spec::{Bytes, Digest};
use std::alloc::Global;
use std::collections::BTreeMap;

const SMALL: usize = 1024;

const SMALL_FILES: usize = 10_000;

fn files_of(alloc: Global, input: &[u8]) -> Result<Vec<FileIn>> {
    let (small, large) = input.split_at(input.len().min(SMALL * SMALL_FILES));
    let mut files = Vec::new(alloc);
    for (index, bytes) in small.chunks(SMALL).enumerate() {
        let directory = index / 100;
        let path = format!(in alloc; "d{directory}/f{index}")?;
        files.push(file_of(alloc, path.as_bytes(), bytes)?)?;
    }
    files.push(file_of(alloc, b"large", large)?)?;
    Ok(files)
}

fn file_of(alloc: Global, path: &[u8], bytes: &[u8]) -> Result<FileIn> {
    Ok(FileIn {
        path: Bytes::of(Vec::from_slice(alloc, path)?),
        bytes: Bytes::of(Vec::from_slice(alloc, bytes)?),
    })
}

/// Makes the files and no more.
pub fn make(rt: &HostRuntime, input: &[u8]) -> Result<()> {
    let files = files_of(rt.alloc(), input)?;
    let count = files.len();
    println!(rt; "{count} files")?;
    Ok(())
}

/// Packs the files into blocks of 64 MiB.
pub fn pack(rt: &HostRuntime, input: &[u8]) -> Result<()> {
    match packed(rt.alloc(), input)? {
        Some(packed) => print_packed(rt, &packed),
        None => print_line(rt, "not packed"),
    }
}

fn print_packed(rt: &HostRuntime, packed: &Packed) -> Result<()> {
    let blocks = packed.blocks.len();
    let size = packed.text.len();
    Ok(println!(rt; "{blocks} blocks, a manifest of {size} bytes")?)
}

fn packed(alloc: Global, input: &[u8]) -> Result<Option<Packed>> {
    let files = files_of(alloc, input)?;
    Ok(pack_files(alloc, &files, 67_108_864).ok())
}

/// Packs the files, lets them go, and unpacks them again.
pub fn pack_and_unpack(rt: &HostRuntime, input: &[u8]) -> Result<()> {
    match packed(rt.alloc(), input)? {
        Some(packed) => unpack_again(rt, packed),
        None => print_line(rt, "not packed"),
    }
}

fn stored_of(alloc: Global, blocks: Vec<Block>) -> Result<BTreeMap<Digest, Bytes>> {
    let mut stored = BTreeMap::new(alloc);
    for block in blocks {
        stored.insert(block.digest(), block.into_bytes())?;
    }
    Ok(stored)
}

fn unpack_again(rt: &HostRuntime, packed: Packed) -> Result<()> {
    let Packed { blocks, text } = packed;
    let stored = stored_of(rt.alloc(), blocks.into_vec())?;
    match read(rt.alloc(), text.as_slice()) {
        Ok(manifest) if is_good(&manifest) => print_files(rt, &manifest, &stored),
        _ => print_line(rt, "no manifest"),
    }
}

fn print_files(
    rt: &HostRuntime,
    manifest: &Manifest,
    stored: &BTreeMap<Digest, Bytes>,
) -> Result<()>
    requires { IsGood manifest.now }
{
    match unpack(rt.alloc(), manifest, stored) {
        Ok(files) => print_total(rt, &files),
        Err(_) => print_line(rt, "not unpacked"),
    }
}

fn print_total(rt: &HostRuntime, files: &[FileIn]) -> Result<()> {
    let count = files.len();
    let mut bytes: u64 = 0;
    for file in files {
        bytes = bytes.saturating_add(file.bytes.len() as u64);
    }
    Ok(println!(rt; "{count} files, {bytes} bytes")?)
}
