// `packs`: files packed into blocks and unpacked again. Each line of the input is a file: its path, `=`, which no path has here, and its bytes. The setting `size` is the
// size of a block. The blocks, one a line, and the manifest; or the refusal. Then the files that the manifest is unpacked to, one a line as in the input, or why it
// isn't, where the settings `without` and `short` number a block that isn't there or lacks its last byte.
// `unpacks`: the whole input is a manifest, and each setting `block` has the bytes of a block.
use crate::manifests::answer_refusal;
use keep_casebook::{Answer, Case, OutOfMemory};
use keep_event::Block;
use keep_files::{FileIn, PackError, Packed, UnpackError, pack_files, unpack};
use keep_manifest::{is_good, read};
use keep_spec::{Bytes, Digest};
use std::alloc::Global;
use std::collections::BTreeMap;

pub fn answer(alloc: Global, case: &Case, answer: &mut Answer) {
    match files_of(alloc, case.input()) {
        Ok(files) => answer_packed(alloc, case, &files, answer),
        Err(OutOfMemory) => answer.cut(),
    }
}

fn files_of(alloc: Global, input: &[u8]) -> Result<Vec<FileIn>, OutOfMemory> {
    let mut files = Vec::new(alloc);
    for line in input.split_inclusive(|byte| *byte == b'\n') {
        let line = line.strip_suffix(b"\n").unwrap_or(line);
        files.push(file_of(alloc, line)?)?;
    }
    Ok(files)
}

fn file_of(alloc: Global, line: &[u8]) -> Result<FileIn, OutOfMemory> {
    let mut parts = line.splitn(2, |byte| *byte == b'=');
    let path = parts.next().unwrap_or(b"");
    let bytes = parts.next().unwrap_or(b"");
    Ok(FileIn {
        path: Bytes::copy_of(alloc, path)?,
        bytes: Bytes::copy_of(alloc, bytes)?,
    })
}

fn answer_packed(alloc: Global, case: &Case, files: &[FileIn], answer: &mut Answer) {
    let size = u32::try_from(case.number("size", 4)).unwrap_or(0);
    if size == 0 || size > 67_108_864 {
        return answer.value(b"no size");
    }
    match pack_files(alloc, files, size) {
        Ok(packed) => {
            for block in packed.blocks.as_slice() {
                answer.value(block.bytes());
            }
            answer.output(packed.text.as_slice());
            answer_unpacked(alloc, case, &packed, answer);
        }
        Err(PackError::BadName { index }) => refuse(b"BadName ", index, answer),
        Err(PackError::Twice { index }) => refuse(b"Twice ", index, answer),
        Err(PackError::NoMemory) => answer.cut(),
    }
}

fn refuse(word: &[u8], index: usize, answer: &mut Answer) {
    answer.text(word);
    answer.number(index as u64);
    answer.note();
}

fn answer_unpacked(alloc: Global, case: &Case, packed: &Packed, answer: &mut Answer) {
    let Ok(blocks) = blocks_of(alloc, case, packed) else {
        return answer.cut();
    };
    let Ok(manifest) = read(alloc, packed.text.as_slice()) else {
        return answer.cut();
    };
    if is_good(&manifest) {
        answer_files(unpack(alloc, &manifest, &blocks), answer);
    }
}

// The blocks by their digests, but the one that isn't to be there, and one cut short.
fn blocks_of(
    alloc: Global,
    case: &Case,
    packed: &Packed,
) -> Result<BTreeMap<Digest, Bytes>, OutOfMemory> {
    let without = case.number("without", u64::MAX);
    let short = case.number("short", u64::MAX);
    let mut blocks = BTreeMap::new(alloc);
    for (at, block) in packed.blocks.as_slice().iter().enumerate() {
        let bytes = block.bytes();
        let bytes = match bytes.split_last() {
            Some((_, most)) if at as u64 == short => most,
            _ => bytes,
        };
        if at as u64 != without {
            blocks.insert(block.digest(), Bytes::copy_of(alloc, bytes)?)?;
        }
    }
    Ok(blocks)
}

/// What a manifest is unpacked to.
pub fn answer_manifest(alloc: Global, case: &Case, answer: &mut Answer) {
    let manifest = match read(alloc, case.input()) {
        Ok(manifest) => manifest,
        Err(refusal) => return answer_refusal(refusal, answer),
    };
    let Ok(blocks) = given_blocks(alloc, case) else {
        return answer.cut();
    };
    if is_good(&manifest) {
        answer_files(unpack(alloc, &manifest, &blocks), answer);
    }
}

fn given_blocks(alloc: Global, case: &Case) -> Result<BTreeMap<Digest, Bytes>, OutOfMemory> {
    let mut blocks = BTreeMap::new(alloc);
    for setting in case.settings() {
        if setting.key == "block" {
            let bytes = Bytes::copy_of(alloc, setting.value.as_bytes())?;
            if let Ok(block) = Block::of(bytes) {
                blocks.insert(block.digest(), block.into_bytes())?;
            }
        }
    }
    Ok(blocks)
}

fn answer_files(unpacked: Result<Vec<FileIn>, UnpackError>, answer: &mut Answer) {
    match unpacked {
        Ok(files) => answer_each(&files, answer),
        Err(error) => answer_error(error, answer),
    }
}

fn answer_each(files: &[FileIn], answer: &mut Answer) {
    for file in files {
        answer.text(file.path.as_slice());
        answer.text(b"=");
        answer.text(file.bytes.as_slice());
        answer.note();
    }
}

fn answer_error(error: UnpackError, answer: &mut Answer) {
    match error {
        UnpackError::Missing { digest } => lack(b"Missing ", digest, answer),
        UnpackError::Short { digest } => lack(b"Short ", digest, answer),
        UnpackError::NoMemory => answer.cut(),
    }
}

fn lack(word: &[u8], digest: Digest, answer: &mut Answer) {
    answer.text(word);
    answer.text(&digest.write());
    answer.note();
}
