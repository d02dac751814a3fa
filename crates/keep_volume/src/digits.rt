// The hexadecimal digits of a digest, and where they lie against a prefix.
ghost use Rattle.std.specs.Prelude.{◌≡◌, ◌<◌, length, slice_index};
ghost use Rattle.keep_volume.specs.Digits.{nibbles, digit_value as value_of_digit, order_of};

use keep_spec::Digest;
use std::cmp::Ordering;

/// Whether the digest's hexadecimal digits come before all that begin with the prefix, begin with it, or come after them. The prefix is read as far as it has lower-case digits.
pub(crate) fn digits_order(digest: &Digest, prefix: &[u8]) -> Ordering
    ensures { result ≡ order_of (nibbles digest.now) prefix.now }
{
    let bytes = digest.to_md5();
    for (i, character) in prefix.iter().enumerate() {
        if i >= 32 {
            return Ordering::Less;
        }
        let Some(wanted) = digit_value(*character) else {
            return Ordering::Equal;
        };
        match nibble_at(&bytes, i).cmp(&wanted) {
            Ordering::Less => return Ordering::Less,
            Ordering::Equal => {}
            Ordering::Greater => return Ordering::Greater,
        }
    }
    Ordering::Equal
}

// The i-th digit as a number.
fn nibble_at(bytes: &[u8; 16], i: usize) -> u8
    requires { i < 32 }
    ensures { result ≡ slice_index (nibbles bytes.now) i }
{
    let byte = bytes[i / 2];
    if i % 2 == 0 { byte / 16 } else { byte % 16 }
}

// The value of a lower-case digit.
fn digit_value(character: u8) -> Option<u8>
    ensures { result ≡ value_of_digit character }
{
    match character {
        b'0'..=b'9' => Some(character - b'0'),
        b'a'..=b'f' => Some(character - b'a' + 10),
        _ => None,
    }
}
