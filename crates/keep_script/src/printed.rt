// The lines of events and ends.
ghost use Rattle.std.specs.Prelude.{◌≡◌, ◌++◌, ◌∷◌, OnOk};
ghost use Rattle.std.specs.Fmt.{decimal};
ghost use Rattle.keep_history.specs.Printed.{answer_words, bytes_field, digest_field, end_line, event_line, number_field, outcome_words, portable_field};

use crate::hexadecimal::push_digits;
use crate::tables::{
    push_bad_manifest, push_hash, push_numbers, push_optional, push_quoted, push_unsigned,
};
use itoa::Buffer;
use keep_event::DeviceAnswer;
use keep_history::Outcome;
use keep_spec::{Bytes, Digest, NoMemory, Portable};

/// Appends to `out` the line of an event of a named task on a device: the name, `d` and the device's number, the answer's word and fields, a newline.
/// On error a part of the line may remain.
#[tactic(auto, unfolding(keep_history::specs::Printed::event_line))]
pub fn push_event_line(
    out: &mut Vec<u8>,
    name: &[u8],
    device: u32,
    answer: &DeviceAnswer,
) -> Result<(), NoMemory>
    ensures { OnOk result (out.new.items ≡ out.old.items ++ event_line name.now device answer.now) }
{
    out.extend_from_slice(name)?;
    out.extend_from_slice(b" d")?;
    push_decimal(out, device as u64)?;
    out.extend_from_slice(b" ")?;
    push_answer(out, answer)?;
    out.extend_from_slice(b"\n")?;
    Ok(())
}

/// Appends to `out` the line of a named task's end: the name, `=`, the outcome's word and fields, a newline. On error a part of the line may remain.
#[tactic(auto, unfolding(keep_history::specs::Printed::end_line))]
pub fn push_end_line(out: &mut Vec<u8>, name: &[u8], outcome: &Outcome) -> Result<(), NoMemory>
    ensures { OnOk result (out.new.items ≡ out.old.items ++ end_line name.now outcome.now) }
{
    out.extend_from_slice(name)?;
    out.extend_from_slice(b" = ")?;
    push_outcome(out, outcome)?;
    out.extend_from_slice(b"\n")?;
    Ok(())
}

fn push_answer(out: &mut Vec<u8>, answer: &DeviceAnswer) -> Result<(), NoMemory>
    ensures { OnOk result (out.new.items ≡ out.old.items ++ answer_words answer.now) }
{
    match answer {
        DeviceAnswer::ReadOnly => push_word(out, b"ReadOnly"),
        DeviceAnswer::Absent => push_word(out, b"Absent"),
        DeviceAnswer::Touched { mtime } => push_number(out, b"Touched", *mtime),
        DeviceAnswer::Written { mtime } => push_number(out, b"Written", *mtime),
        DeviceAnswer::Collision => push_word(out, b"Collision"),
        DeviceAnswer::Corrupt { found } => push_digest(out, b"Corrupt", found),
        DeviceAnswer::Full { used, capacity } => push_full(out, *used, *capacity),
        DeviceAnswer::Block { bytes } => push_number(out, b"Block", bytes.len() as u64),
        DeviceAnswer::Stale { held } => push_number(out, b"Stale", *held),
        DeviceAnswer::Cleared => push_word(out, b"Cleared"),
        DeviceAnswer::Accepted { trash, pull } => push_accepted(out, *trash, *pull),
        DeviceAnswer::Page { entries } => push_number(out, b"Page", entries.len() as u64),
        DeviceAnswer::Idle => push_word(out, b"Idle"),
        DeviceAnswer::Gone { digest } => push_digest(out, b"Gone", digest),
        DeviceAnswer::Skipped { digest, mtime } => push_both(out, b"Skipped", digest, *mtime),
        DeviceAnswer::Young { digest, mtime } => push_both(out, b"Young", digest, *mtime),
        DeviceAnswer::Trashed {
            digest,
            deadline,
            ..
        } => { push_both(out, b"Trashed", digest, *deadline) }
        DeviceAnswer::Pull { item } => push_digest(out, b"Pull", &item.digest),
        DeviceAnswer::Present { mtime } => push_number(out, b"Present", *mtime),
        DeviceAnswer::NoTrash => push_word(out, b"NoTrash"),
        DeviceAnswer::Back { mtime } => push_number(out, b"Back", *mtime),
        DeviceAnswer::Emptied { digest, deadline } => {
            push_both(out, b"Emptied", digest, *deadline)
        }
        DeviceAnswer::Restarted => push_word(out, b"Restarted"),
        DeviceAnswer::StoreFault => push_word(out, b"StoreFault"),
    }
}

fn push_outcome(out: &mut Vec<u8>, outcome: &Outcome) -> Result<(), NoMemory>
    ensures { OnOk result (out.new.items ≡ out.old.items ++ outcome_words outcome.now) }
{
    match outcome {
        Outcome::Stored { locator } => push_text(out, b"Stored ", locator.as_slice()),
        Outcome::Touched { locator } => push_text(out, b"Touched ", locator.as_slice()),
        Outcome::Bytes { bytes } => push_bytes(out, bytes.as_slice()),
        Outcome::Untrashed { copies } => push_number(out, b"Untrashed", *copies),
        Outcome::Restarted => push_word(out, b"Restarted"),
        Outcome::UnknownToken => push_word(out, b"UnknownToken"),
        Outcome::TooLong => push_word(out, b"TooLong"),
        Outcome::HashMismatch { computed } => push_digest(out, b"HashMismatch", computed),
        Outcome::Collision => push_word(out, b"Collision"),
        Outcome::NoRoom => push_word(out, b"NoRoom"),
        Outcome::StoreFault => push_word(out, b"StoreFault"),
        Outcome::BadLocator { at } => push_number(out, b"BadLocator", *at),
        Outcome::Forbidden => push_word(out, b"Forbidden"),
        Outcome::Expired { expiry } => push_number(out, b"Expired", *expiry as u64),
        Outcome::NotFound => push_word(out, b"NotFound"),
        Outcome::Corrupt { found } => push_digest(out, b"Corrupt", found),
        Outcome::Saved {
            uuid,
            version,
            portable,
        } => push_saved(out, b"Saved ", uuid, *version, portable),
        Outcome::Updated {
            uuid,
            version,
            portable,
        } => push_saved(out, b"Updated ", uuid, *version, portable),
        Outcome::Row {
            version,
            want,
            trash_at,
            text,
        } => push_row_end(out, *version, *want, *trash_at, text.as_slice()),
        Outcome::TrashSet {
            trash_at,
            delete_at,
        } => push_numbers(out, b"TrashSet", *trash_at, *delete_at),
        Outcome::Restored => push_word(out, b"Restored"),
        Outcome::Swept {
            versions,
            collections,
        } => push_numbers(out, b"Swept", *versions, *collections),
        Outcome::NoSuch => push_word(out, b"NoSuch"),
        Outcome::NotOwner => push_word(out, b"NotOwner"),
        Outcome::InTrash { at } => push_number(out, b"InTrash", *at),
        Outcome::BadManifest { at, kind } => push_bad_manifest(out, *at, *kind),
        Outcome::Unsigned { index, why } => push_unsigned(out, *index, *why),
        Outcome::WrongHash { computed } => push_hash(out, b"WrongHash", computed),
        Outcome::BadWant => push_word(out, b"BadWant"),
        Outcome::TooManyVersions { held } => push_number(out, b"TooManyVersions", *held),
        Outcome::Balanced {
            round,
            trash,
            pull,
            lost,
            stale,
        } => push_balanced(out, *round, *trash, *pull, *lost, *stale),
        Outcome::Stale { device, held } => {
            push_numbers(out, b"Stale", u64::from(*device), *held)
        }
        Outcome::Disordered { earlier, later } => {
            push_numbers(out, b"Disordered", *earlier, *later)
        }
        Outcome::Trashed { replicas } => push_number(out, b"Trashed", *replicas),
        Outcome::Pulled { done, failed } => push_numbers(out, b"Pulled", *done, *failed),
        Outcome::Emptied { copies } => push_number(out, b"Emptied", *copies),
        Outcome::ReadOnly => push_word(out, b"ReadOnly"),
    }
}

fn push_saved(
    out: &mut Vec<u8>,
    word: &[u8],
    uuid: &Bytes,
    version: u64,
    portable: &Portable,
) -> Result<(), NoMemory>
    ensures { OnOk result (out.new.items ≡ out.old.items ++ (word.now ++ uuid.now ++ number_field version ++ portable_field portable.now)) }
{
    push_text(out, word, uuid.as_slice())?;
    push_number(out, b"", version)?;
    push_hash(out, b"", portable)
}

fn push_row_end(
    out: &mut Vec<u8>,
    version: u64,
    want: u8,
    trash_at: Option<u64>,
    text: &[u8],
) -> Result<(), NoMemory>
    ensures { OnOk result (out.new.items ≡ out.old.items ++ outcome_words (Outcome.Row version want trash_at text.now)) }
{
    push_numbers(out, b"Row", version, u64::from(want))?;
    push_optional(out, trash_at)?;
    push_word(out, b" ")?;
    push_quoted(out, text)
}

fn push_balanced(
    out: &mut Vec<u8>,
    round: u64,
    trash: u64,
    pull: u64,
    lost: u64,
    stale: u64,
) -> Result<(), NoMemory>
    ensures { OnOk result (out.new.items ≡ out.old.items ++ outcome_words (Outcome.Balanced round trash pull lost stale)) }
{
    push_numbers(out, b"Balanced", round, trash)?;
    push_numbers(out, b"", pull, lost)?;
    push_number(out, b"", stale)
}

pub(crate) fn push_word(out: &mut Vec<u8>, word: &[u8]) -> Result<(), NoMemory>
    ensures { OnOk result (out.new.items ≡ out.old.items ++ word.now) }
{
    out.extend_from_slice(word)?;
    Ok(())
}

pub(crate) fn push_text(out: &mut Vec<u8>, word: &[u8], text: &[u8]) -> Result<(), NoMemory>
    ensures { OnOk result (out.new.items ≡ out.old.items ++ (word.now ++ text.now)) }
{
    out.extend_from_slice(word)?;
    out.extend_from_slice(text)?;
    Ok(())
}

fn push_decimal(out: &mut Vec<u8>, number: u64) -> Result<(), NoMemory>
    ensures { OnOk result (out.new.items ≡ out.old.items ++ decimal number) }
{
    let mut buffer = Buffer::new();
    out.extend_from_slice(buffer.format(number).as_bytes())?;
    Ok(())
}

// A word and a number.
pub(crate) fn push_number(out: &mut Vec<u8>, word: &[u8], number: u64) -> Result<(), NoMemory>
    ensures { OnOk result (out.new.items ≡ out.old.items ++ (word.now ++ number_field number)) }
{
    push_text(out, word, b" ")?;
    push_decimal(out, number)
}

// A word and a digest.
fn push_digest(out: &mut Vec<u8>, word: &[u8], digest: &Digest) -> Result<(), NoMemory>
    ensures { OnOk result (out.new.items ≡ out.old.items ++ (word.now ++ digest_field digest.now)) }
{
    push_text(out, word, b" ")?;
    out.extend_from_slice(&digest.write())?;
    Ok(())
}

// A word, a digest and a number.
fn push_both(out: &mut Vec<u8>, word: &[u8], digest: &Digest, number: u64) -> Result<(), NoMemory>
    ensures { OnOk result (out.new.items ≡ out.old.items ++ (word.now ++ digest_field digest.now ++ number_field number)) }
{
    push_digest(out, word, digest)?;
    push_number(out, b"", number)
}

fn push_full(out: &mut Vec<u8>, used: u128, capacity: u64) -> Result<(), NoMemory>
    ensures { OnOk result (out.new.items ≡ out.old.items ++ answer_words (DeviceAnswer.Full used capacity)) }
{
    let mut buffer = Buffer::new();
    push_text(out, b"Full ", buffer.format(used).as_bytes())?;
    push_number(out, b"", capacity)
}

fn push_accepted(out: &mut Vec<u8>, trash: u64, pull: u64) -> Result<(), NoMemory>
    ensures { OnOk result (out.new.items ≡ out.old.items ++ answer_words (DeviceAnswer.Accepted trash pull)) }
{
    push_number(out, b"Accepted", trash)?;
    push_number(out, b"", pull)
}

// The word and the bytes, no bytes being the word alone.
fn push_bytes(out: &mut Vec<u8>, bytes: &[u8]) -> Result<(), NoMemory>
    ensures { OnOk result (out.new.items ≡ out.old.items ++ outcome_words (Outcome.Bytes bytes.now)) }
{
    if bytes.is_empty() {
        return push_word(out, b"Bytes");
    }
    push_word(out, b"Bytes ")?;
    push_digits(out, bytes)
}
