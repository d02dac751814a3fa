// The text of a locator's hints.
ghost use Rattle.std.specs.Prelude.{◌≡◌, ◌+◌, ◌<◌, ◌≤◌, ◌==◌, [], ◌∷◌, true, length, drop, if◌then◌else◌, MatchOption, IfSome};
ghost use Rattle.std.specs.Char.{digit_value};
ghost use Rattle.std.specs.List.{list_all, position_or_len};
ghost use Rattle.std.specs.Str.Parse.{digits_value};
ghost use Rattle.keep_spec.specs.Digest.{is_lower_digit};
ghost use Rattle.keep_spec.specs.Locator.{cut_before_plus, is_permission_hint, permission_of};

use keep_spec::{Permission, is_lower_digit};

// In bytes: `+A`, 40 digits, `@` and 8 digits.
const PERMISSION_LEN: usize = 51;

/// Splits a text of hints, as `Locator::hint_text` returns it, after its first hint: that hint with its plus, and the rest. `None` for
/// an empty text.
pub fn first_hint(text: &[u8]) -> Option<(&[u8], &[u8])>
    ensures hints { MatchOption result (cut_before_plus text.now ≡ [])
        (λ p. cut_before_plus text.now ≡ p.0.now ∷ cut_before_plus p.1.now) }
    ensures shorter { IfSome result (λ p. length p.1.now < length text.now) }
{
    if text.len() == 0 {
        return None;
    }
    Some(text.split_at(hint_len(text)))
}

// The length of the first hint in bytes: up to the next plus, not counting the first byte.
fn hint_len(text: &[u8]) -> usize
    requires { 0 < length text.now }
    ensures place { result ≡ position_or_len (λ c. c == 43) (drop 1 text.now) + 1 }
    ensures within { result ≤ length text.now }
{
    for at in 1..text.len() {
        if text[at] == b'+' {
            return at;
        }
    }
    text.len()
}

// The signature and expiry of a permission hint; `None` for another hint.
pub fn read_permission(hint: &[u8]) -> Option<Permission>
    ensures { result
        ≡ (if is_permission_hint hint.now then Some (permission_of hint.now) else None) }
{
    if !is_permission_hint(hint) {
        return None;
    }
    let mut signature = [0; 40];
    signature.copy_from_slice(&hint[2..42]);
    Some(Permission {
        signature,
        expiry: hex_number(&hint[43..51]),
    })
}

/// Whether a hint is a permission hint: `+A`, 40 lower-case hexadecimal digits, `@`, 8 more, and no other byte (Arvados). Another hint
/// that begins with `A` is an ordinary hint.
#[tactic(auto, unfolding(keep_spec::specs::Locator::is_permission_hint))]
pub fn is_permission_hint(hint: &[u8]) -> bool
    ensures { result ≡ is_permission_hint hint.now }
{
    hint.len() == PERMISSION_LEN
        && hint.starts_with(b"+A")
        && are_lower_digits(&hint[2..42])
        && hint[42] == b'@'
        && are_lower_digits(&hint[43..51])
}

fn are_lower_digits(text: &[u8]) -> bool
    ensures { result ≡ list_all is_lower_digit text.now }
{
    text.iter().all(|byte| is_lower_digit(*byte))
}

// The value of at most 8 hexadecimal digits.
fn hex_number(digits: &[u8]) -> u32
    requires few { length digits.now ≤ 8 }
    requires digits { list_all is_lower_digit digits.now ≡ true }
    ensures { result ≡ digits_value 16 digits.now }
{
    let mut value = 0;
    for byte in digits {
        value = value * 16 + digit_value(*byte);
    }
    value
}

fn digit_value(digit: u8) -> u32
    requires { is_lower_digit digit ≡ true }
    ensures { result ≡ digit_value digit }
{
    match digit {
        b'0'..=b'9' => u32::from(digit - b'0'),
        _ => u32::from(digit - b'a') + 10,
    }
}
