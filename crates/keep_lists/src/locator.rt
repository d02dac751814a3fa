// Locators without hints: a digest and a size.
ghost use Rattle.std.specs.Prelude.{◌≡◌, ◌<◌, ◌++◌, OnOk, length, drop, option_map, decimal};
ghost use Rattle.keep_event.specs.Index.{locator_text, bare_locator};
ghost use Rattle.keep_lists.specs.Answers.{both, shown_locator};

use itoa::Buffer;
use keep_spec::{DIGEST_DIGITS, Digest, NoMemory, read_number};

/// A digest, and how many bytes the block has.
#[derive(Clone, Copy, Debug, PartialEq, Eq)]
pub(crate) struct BareLocator {
    pub digest: Digest,
    pub size: u64,
}

/// All bytes but the first.
pub(crate) fn after_first(bytes: &[u8]) -> &[u8]
    requires { 0 < length bytes.now }
    ensures { result.now ≡ drop 1 bytes.now }
{
    &bytes[1..]
}

/// Reads `digest+size` and nothing more.
pub(crate) fn read_locator(text: &[u8]) -> Option<BareLocator>
    ensures { option_map shown_locator result ≡ bare_locator text.now }
{
    if text.len() <= DIGEST_DIGITS {
        return None;
    }
    let (digits, rest) = text.split_at(DIGEST_DIGITS);
    if rest[0] != b'+' {
        return None;
    }
    locator_of(Digest::read(digits), read_number(after_first(rest)))
}

fn locator_of(digest: Option<Digest>, size: Option<u64>) -> Option<BareLocator>
    ensures { option_map shown_locator result ≡ both digest size }
{
    match digest {
        Some(digest) => match size {
            Some(size) => Some(BareLocator { digest, size }),
            None => None,
        },
        None => None,
    }
}

/// Appends `digest+size`. On error a part of it may stand there.
pub(crate) fn push_locator(out: &mut Vec<u8>, digest: &Digest, size: u64) -> Result<(), NoMemory>
    ensures { OnOk result (out.new.items ≡ out.old.items ++ locator_text digest.now size) }
{
    out.extend_from_slice(&digest.write())?;
    out.extend_from_slice(b"+")?;
    push_number(out, size)
}

/// Appends a number's decimal digits.
pub(crate) fn push_number(out: &mut Vec<u8>, number: u64) -> Result<(), NoMemory>
    ensures { OnOk result (out.new.items ≡ out.old.items ++ decimal number) }
{
    let mut buffer = Buffer::new();
    out.extend_from_slice(buffer.format(number).as_bytes())?;
    Ok(())
}
