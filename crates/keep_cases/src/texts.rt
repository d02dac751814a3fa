// Small texts, one a line, each read and written again, or `none`: `digests`, `portables` (portable data hashes) and `uuids` (with the middle part).
use keep_casebook::{Answer, Case};
use keep_spec::{Digest, Portable, Uuid};

pub fn answer(subject: &str, case: &Case, answer: &mut Answer) {
    for line in case.body().split(|byte| *byte == b'\n') {
        match subject {
            "digests" => answer_digest(line, answer),
            "portables" => answer_portable(line, answer),
            _ => answer_uuid(line, answer),
        }
    }
}

fn answer_digest(text: &[u8], answer: &mut Answer) {
    match Digest::read(text) {
        Some(digest) => answer.value(&digest.write()),
        None => answer.value(b"none"),
    }
}

fn answer_portable(text: &[u8], answer: &mut Answer) {
    match Portable::read(text) {
        Some(portable) => {
            let (text, length) = portable.write();
            answer.value(text.get(..length).unwrap_or(b""));
        }
        None => answer.value(b"none"),
    }
}

fn answer_uuid(text: &[u8], answer: &mut Answer) {
    match Uuid::read(text) {
        Ok(uuid) => {
            answer.text(uuid.as_bytes());
            answer.text(b" ");
            answer.value(uuid.kind());
        }
        Err(_) => answer.value(b"none"),
    }
}
