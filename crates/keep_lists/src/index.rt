// The text of an index, written and read.
ghost use Rattle.std.specs.Prelude.{◌≡◌, ◌==◌, ◌++◌, OnOk, IfOk, option_and_then};
ghost use Rattle.std.specs.List.{position};
ghost use Rattle.std.specs.Option.{option_copied};
ghost use Rattle.keep_spec.specs.Json.{option_filter};
ghost use Rattle.keep_spec.specs.Lines.{cut};
ghost use Rattle.keep_event.specs.Index.{index_line, index_text, bare_locator, entry_with, entry_of_line, is_above, index_of};
ghost use Rattle.keep_lists.specs.Answers.{IsIndexRead, IsEndRead, ended_at};

use crate::error::IndexError;
use crate::locator::{after_first, push_locator, push_number, read_locator};
use keep_event::Entry;
use keep_spec::{Bytes, NoMemory, read_number};
use std::alloc::Global;

fn push_line(out: &mut Vec<u8>, entry: &Entry) -> Result<(), NoMemory>
    ensures { OnOk result (out.new.items ≡ out.old.items ++ index_line entry.now) }
{
    push_locator(out, &entry.digest, entry.size)?;
    out.extend_from_slice(b" ")?;
    push_number(out, entry.mtime)?;
    out.extend_from_slice(b"\n")?;
    Ok(())
}

/// Writes an index, which `read_index` reads again where its entries ascend by digest and its numbers are below 10^19: a line `digest+size mtime` for each entry, in the order given, and an empty line.
#[tactic(auto, unfolding(keep_event::specs::Index::index_text))]
pub fn write_index(alloc: Global, entries: &[Entry]) -> Result<Bytes, NoMemory>
    ensures text { IfOk result (λ b. b ≡ index_text entries.now) }
{
    let mut out = Vec::new(alloc);
    for entry in entries {
        push_line(&mut out, entry)?;
    }
    out.extend_from_slice(b"\n")?;
    Ok(Bytes::of(out))
}

fn position_of(text: &[u8], byte: u8) -> Option<usize>
    ensures { result ≡ position (λ b. b == byte) text.now }
{
    text.iter().position(|b| *b == byte)
}

fn entry_of(block: &[u8], time: &[u8]) -> Option<Entry>
    ensures { result ≡ option_and_then (entry_with time.now) (bare_locator block.now) }
{
    match (read_locator(block), read_number(time)) {
        (Some(block), Some(mtime)) => Some(Entry {
            digest: block.digest,
            size: block.size,
            mtime,
        }),
        _ => None,
    }
}

fn read_line(line: &[u8]) -> Option<Entry>
    ensures { result ≡ entry_of_line line.now }
{
    match position_of(line, b' ') {
        Some(space) => {
            let (block, rest) = line.split_at(space);
            entry_of(block, after_first(rest))
        }
        None => None,
    }
}

fn is_above(before: Option<&Entry>, entry: &Entry) -> bool
    ensures { result ≡ is_above (option_copied before.entry) entry.now }
{
    match before {
        None => true,
        Some(before) => before.digest.cmp(&entry.digest).is_lt(),
    }
}

// The entry of a line, where it is above the one before.
fn entry_above(before: Option<&Entry>, line: &[u8]) -> Option<Entry>
    ensures { result ≡ option_filter (is_above (option_copied before.entry)) (entry_of_line line.now) }
{
    match read_line(line) {
        Some(entry) => {
            if is_above(before, &entry) {
                Some(entry)
            } else {
                None
            }
        }
        None => None,
    }
}

// What follows the empty line: nothing, or a whole line at this offset, or a part of one.
fn check_end(at: usize, rest: &[u8]) -> Result<(), IndexError>
    ensures { IsEndRead (ended_at at (cut rest.now)) result }
{
    if position_of(rest, b'\n').is_some() {
        return Err(IndexError::BadIndex { at });
    }
    if rest.is_empty() {
        Ok(())
    } else {
        Err(IndexError::CutIndex)
    }
}

/// Reads an index. BadIndex has the offset in bytes of the first whole line that isn't in the form, isn't above the one before
/// it, or follows the empty line. CutIndex comes where no line is bad and the text doesn't end with the empty line.
pub fn read_index(alloc: Global, text: &[u8]) -> Result<Vec<Entry>, IndexError>
    ensures { IsIndexRead (index_of text.now) result }
{
    let mut entries: Vec<Entry> = Vec::new(alloc);
    let mut rest = text;
    while let Some(end) = position_of(rest, b'\n') {
        let at = text.len() - rest.len();
        let (line, following) = rest.split_at(end);
        let following = after_first(following);
        if end == 0 {
            return match check_end(at + 1, following) {
                Ok(()) => Ok(entries),
                Err(error) => Err(error),
            };
        }
        match entry_above(entries.last(), line) {
            Some(entry) => {
                if entries.push(entry).is_err() {
                    return Err(IndexError::NoMemory);
                }
            }
            None => return Err(IndexError::BadIndex { at }),
        }
        rest = following;
    }
    Err(IndexError::CutIndex)
}
