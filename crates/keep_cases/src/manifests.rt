// Manifests: the whole input is one. `manifests`: what it reads to is written again, and the digests that it names are told. `normals`: its normal form, or
// `TooLarge`. `files`: a line for each file, and one for each part of it: the locator, where the part begins in the block, and its length. `hashes`: its stripped
// text and its portable data hash. Or the kind and the place of the first refusal.
ghost use Rattle.keep_spec.specs.Manifest.{IsGood};

use keep_casebook::{Answer, Case};
use keep_manifest::{BadManifest, Kind, Manifest, is_good, named, read, write};
use keep_normal::{FileParts, NormalError, files, normalize, portable_hash, stripped_text};
use std::alloc::Global;

pub fn answer(alloc: Global, subject: &str, case: &Case, answer: &mut Answer) {
    let manifest = match read(alloc, case.input()) {
        Ok(manifest) => manifest,
        Err(refusal) => return answer_refusal(refusal, answer),
    };
    if !is_good(&manifest) {
        return answer.value(b"not good");
    }
    match subject {
        "manifests" => answer_manifest(alloc, &manifest, answer),
        "normals" => answer_normal(alloc, &manifest, answer),
        _ => answer_files(alloc, &manifest, answer),
    }
}

fn answer_manifest(alloc: Global, manifest: &Manifest, answer: &mut Answer)
    requires { IsGood manifest.now }
{
    match write(alloc, manifest) {
        Ok(text) => answer.output(text.as_slice()),
        Err(_) => answer.cut(),
    }
    match named(alloc, manifest) {
        Ok(digests) => {
            for digest in &digests {
                answer.text(b"names ");
                answer.text(&digest.write());
                answer.note();
            }
        }
        Err(_) => answer.cut(),
    }
}

fn answer_normal(alloc: Global, manifest: &Manifest, answer: &mut Answer)
    requires { IsGood manifest.now }
{
    let normal = match normalize(alloc, manifest) {
        Ok(normal) => normal,
        Err(NormalError::TooLarge) => {
            answer.text(b"TooLarge");
            return answer.note();
        }
        Err(NormalError::NoMemory) => return answer.cut(),
    };
    match write(alloc, &normal) {
        Ok(text) => answer.output(text.as_slice()),
        Err(_) => answer.cut(),
    }
}

fn answer_files(alloc: Global, manifest: &Manifest, answer: &mut Answer)
    requires { IsGood manifest.now }
{
    match files(alloc, manifest) {
        Ok(files) => {
            for file in &files {
                answer_file(file, answer);
            }
        }
        Err(_) => answer.cut(),
    }
}

fn answer_file(file: &FileParts, answer: &mut Answer) {
    answer.text(b"file ");
    answer.value(file.path.as_slice());
    for part in file.parts.as_slice() {
        answer.text(b"part ");
        answer.text(part.locator.as_slice());
        answer.text(b" ");
        answer.number(part.offset);
        answer.text(b" ");
        answer.number(part.length);
        answer.end();
    }
}

pub fn answer_hash(alloc: Global, case: &Case, answer: &mut Answer) {
    match stripped_text(alloc, case.input()) {
        Ok(text) => answer.output(text.as_slice()),
        Err(refusal) => return answer_refusal(refusal, answer),
    }
    match portable_hash(alloc, case.input()) {
        Ok(hash) => {
            let (text, length) = hash.write();
            answer.text(text.get(..length).unwrap_or(b""));
            answer.note();
        }
        Err(refusal) => answer_refusal(refusal, answer),
    }
}

/// The kind and the place of a refusal.
pub fn answer_refusal(refusal: BadManifest, answer: &mut Answer) {
    match refusal {
        BadManifest::Refused(refusal) => {
            answer.text(kind_word(refusal.kind));
            answer.text(b" at ");
            answer.number(refusal.at as u64);
            answer.note();
        }
        BadManifest::NoMemory => answer.cut(),
    }
}

fn kind_word(kind: Kind) -> &'static [u8] {
    match kind {
        Kind::BadStream => b"BadStream",
        Kind::BadLocator => b"BadLocator",
        Kind::NoSegment => b"NoSegment",
        Kind::BadSegment => b"BadSegment",
        Kind::BadName => b"BadName",
        Kind::PastEnd => b"PastEnd",
        Kind::NoNewline => b"NoNewline",
    }
}
