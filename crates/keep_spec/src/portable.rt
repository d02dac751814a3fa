// The portable data hash of a manifest.
ghost use Rattle.std.specs.Prelude.{◌≡◌, ◌+◌, ◌-◌, ◌≤◌, ◌++◌, length, take, drop, replicate};

use crate::Digest;
use crate::digest::DIGEST_DIGITS;
use crate::number::read_number;
use itoa::Buffer;

/// The most bytes that the text of a portable data hash has.
pub const PORTABLE_MAX: usize = 53;

/// The portable data hash of a manifest (Arvados).
#[derive(Clone, Copy, Debug, PartialEq, Eq)]
pub struct Portable {
    /// The MD5 of the manifest's stripped text.
    pub digest: Digest,
    /// The length of the stripped text, in bytes.
    pub size: u64,
}

impl Portable {
    ghost use Rattle.keep_spec.specs.Portable.{portable_of, portable_text};

    /// Parses exactly a digest, `+` and 1 to 19 decimal digits; `None` for any other text.
    pub fn read(text: &[u8]) -> Option<Portable>
        ensures { result ≡ portable_of text.now }
    {
        if text.len() <= DIGEST_DIGITS {
            return None;
        }
        if text[DIGEST_DIGITS] != b'+' {
            return None;
        }
        let digest = Digest::read(&text[..DIGEST_DIGITS])?;
        let size = read_number(&text[DIGEST_DIGITS + 1..])?;
        Some(Portable { digest, size })
    }

    /// Its text: the digest, `+` and the length in decimal. Returns an array that begins with the text and is 0 after it, and the text's length.
    pub fn write(&self) -> ([u8; PORTABLE_MAX], usize)
        ensures len { result.1 ≡ length (portable_text self.now) }
        ensures text { take result.1 result.0 ≡ portable_text self.now }
        ensures rest { drop result.1 result.0 ≡ replicate (53 - result.1) 0 }
    {
        let mut buffer = Buffer::new();
        let length = buffer.format(self.size).as_bytes();
        let mut text = [0; PORTABLE_MAX];
        put_at(&mut text, 0, &self.digest.write());
        put_at(&mut text, DIGEST_DIGITS, b"+");
        put_at(&mut text, DIGEST_DIGITS + 1, length);
        (text, DIGEST_DIGITS + 1 + length.len())
    }
}

// Overwrites the bytes from `at` on.
fn put_at(text: &mut [u8], at: usize, bytes: &[u8])
    requires { at + length bytes.now ≤ length text.old }
    ensures { text.new ≡ take at text.old ++ bytes.now ++ drop (at + length bytes.now) text.old }
{
    text[at..at + bytes.len()].copy_from_slice(bytes);
}
