// Stores: what one holds before, and what it holds afterwards, as `DIGEST DEADLINE MTIME BYTES`, with `-` for no deadline, and the bytes in hexadecimal digits.
use crate::answer::Answer;
use crate::book::bytes_of_hex;
use crate::error::OutOfMemory;
use keep_event::{Held, Name};
use keep_spec::Digest;
use keep_store::{MemoryStore, Store};
use std::alloc::Global;

/// Puts what a setting says into a store.
pub fn put_held(alloc: Global, store: &mut MemoryStore, value: &str) -> Result<(), OutOfMemory> {
    let mut words = value.split_whitespace();
    let name = name_of(words.next().unwrap_or(""), words.next().unwrap_or(""));
    let mtime = words.next().unwrap_or("").parse::<u64>().unwrap_or(0);
    let bytes = bytes_of_hex(alloc, words.next().unwrap_or(""))?;
    if let (Some(name), Some(bytes)) = (name, bytes) {
        let _ = store.put(&name, mtime, &bytes);
    }
    Ok(())
}

// The name with these digits, and a deadline or `-`.
fn name_of(digits: &str, deadline: &str) -> Option<Name> {
    Some(Name {
        digest: Digest::read(digits.as_bytes())?,
        deadline: deadline.parse::<u64>().ok(),
    })
}

// The most names of a store that are told.
const NAMES: usize = 1000;

/// The note, where it isn't 0, and each name, of the store with this number.
pub fn answer_store(number: u64, store: &mut MemoryStore, answer: &mut Answer) {
    let note = store.note().unwrap_or(u64::MAX);
    if note != 0 {
        answer.number(number);
        answer.text(b" note ");
        answer.number(note);
        answer.note();
    }
    match store.names_from(None, NAMES) {
        Ok(names) => {
            for held in &names {
                answer.number(number);
                answer_held(store, held, answer);
            }
        }
        Err(_) => answer.cut(),
    }
}

fn answer_held(store: &mut MemoryStore, held: &Held, answer: &mut Answer) {
    answer.text(b" ");
    answer.text(&held.name.digest.write());
    answer.text(b" ");
    match held.name.deadline {
        Some(deadline) => answer.number(deadline),
        None => answer.text(b"-"),
    }
    answer.text(b" ");
    answer.number(held.mtime);
    answer.text(b" ");
    match store.get(&held.name) {
        Ok(Some(stored)) => answer.hexadecimal(stored.bytes.as_slice()),
        _ => answer.text(b"unreadable"),
    }
    answer.note();
}
