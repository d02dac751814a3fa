// Indexes: the whole input is a text. Its entries, one a line, and whether they are written as this text; or the refusal. With the setting `prefixes` the text
// is read first as it is cut at each length, from nothing on.
use keep_casebook::{Answer, Case};
use keep_lists::{Entry, IndexError, read_index, write_index};
use std::alloc::Global;

pub fn answer(alloc: Global, case: &Case, answer: &mut Answer) {
    let text = case.input();
    if case.value("prefixes").is_some() {
        for length in 0..text.len() {
            answer_text(alloc, text.get(..length).unwrap_or(b""), answer);
        }
    }
    answer_text(alloc, text, answer);
}

fn answer_text(alloc: Global, text: &[u8], answer: &mut Answer) {
    match read_index(alloc, text) {
        Ok(entries) => answer_entries(alloc, &entries, text, answer),
        Err(IndexError::BadIndex { at }) => {
            answer.text(b"BadIndex ");
            answer.number(at as u64);
            answer.end();
        }
        Err(IndexError::CutIndex) => answer.value(b"CutIndex"),
        Err(IndexError::NoMemory) => answer.cut(),
    }
}

fn answer_entries(alloc: Global, entries: &[Entry], input: &[u8], answer: &mut Answer) {
    for entry in entries {
        answer.text(&entry.digest.write());
        answer.text(b" ");
        answer.number(entry.size);
        answer.text(b" ");
        answer.number(entry.mtime);
        answer.end();
    }
    match write_index(alloc, entries) {
        Ok(text) => answer_again(text.as_slice(), input, answer),
        Err(_) => answer.cut(),
    }
}

/// Says whether a text that was read is written as it stood.
pub fn answer_again(text: &[u8], input: &[u8], answer: &mut Answer) {
    answer.text(if text == input {
        b"written again"
    } else {
        b"written otherwise"
    });
    answer.note();
}
