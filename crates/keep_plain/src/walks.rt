// Walks through all that a device holds, or once through one of its lists.
ghost use Rattle.std.specs.Prelude.{◌≡◌, ◌<◌, ◌^◌, IfOk, map, option_map};
ghost use Rattle.std.specs.List.{find as list_find, filter};
ghost use Rattle.hex.specs.Hex.{encode_lower};
ghost use Rattle.keep_event.specs.Device as machine;
ghost use Rattle.keep_plain.specs.Lines.{timed};

use hex::encode_to_slice;
use keep_event::{Entry, Name, Stored};
use keep_spec::{Digest, NoMemory};
use std::alloc::Global;

/// The bytes of all replicas and trashed copies together.
pub(crate) fn used(held: &[(Name, Stored)]) -> u128
    ensures value { result ≡ machine.used held.now }
    ensures small { result < 2 ^ 127 }
{
    let mut bytes = 0u128;
    for entry in held {
        bytes += entry.1.bytes.len() as u128;
    }
    bytes
}

/// The replicas whose digits begin with the prefix, as they stand.
pub(crate) fn page(
    alloc: Global,
    held: &[(Name, Stored)],
    prefix: &[u8],
) -> Result<Vec<Entry>, NoMemory>
    ensures { IfOk result (λ v. v.items ≡ map machine.entry_of (filter (λ e. machine.is_paged prefix.now e.0) held.now)) }
{
    let mut entries = Vec::new(alloc);
    for entry in held {
        if is_paged(&entry.0, prefix) && entries.push(entry_of(entry)).is_err() {
            return Err(NoMemory);
        }
    }
    Ok(entries)
}

/// The last trashed copy of a digest, with its time.
pub(crate) fn last_copy(held: &[(Name, Stored)], digest: &Digest) -> Option<(Name, u64)>
    ensures { result ≡ option_map timed (machine.last_copy digest.now held.now) }
{
    let mut last = None;
    for entry in held {
        if entry.0.digest == *digest && entry.0.deadline.is_some() {
            last = Some((entry.0, entry.1.mtime));
        }
    }
    last
}

/// The first trashed copy whose deadline is below the reading.
pub(crate) fn first_due(held: &[(Name, Stored)], reading: u64) -> Option<Name>
    ensures { result ≡ option_map (λ e. e.0) (list_find (machine.is_due reading) held.now) }
{
    for entry in held {
        if is_due(entry.0.deadline, reading) {
            return Some(entry.0);
        }
    }
    None
}

// A replica as it stands on a page.
fn entry_of(entry: &(Name, Stored)) -> Entry
    ensures { result ≡ machine.entry_of entry.now }
{
    Entry {
        digest: entry.0.digest,
        size: entry.1.bytes.len() as u64,
        mtime: entry.1.mtime,
    }
}

// Whether a deadline is below the reading.
fn is_due(deadline: Option<u64>, reading: u64) -> bool
    ensures { result ≡ machine.is_due_at reading deadline }
{
    match deadline {
        Some(deadline) => deadline < reading,
        None => false,
    }
}

// Whether the name is a replica's, with digits that begin with the prefix.
fn is_paged(name: &Name, prefix: &[u8]) -> bool
    ensures { result ≡ machine.is_paged prefix.now name.now }
{
    if name.deadline.is_some() {
        return false;
    }
    begins(&name.digest, prefix)
}

// Whether the digits begin with the prefix.
fn begins(digest: &Digest, prefix: &[u8]) -> bool
    ensures { result ≡ machine.begins prefix.now digest.now }
{
    let digits = digits_of(digest);
    let wanted = prefix.len().min(digits.len());
    &digits[..wanted] == prefix
}

// The 32 hexadecimal digits.
fn digits_of(digest: &Digest) -> [u8; 32]
    ensures { result ≡ encode_lower digest.now }
{
    let mut digits = [0; 32];
    let _ = encode_to_slice(digest.to_md5().as_slice(), &mut digits);
    digits
}
