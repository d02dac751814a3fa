// Numbers in text: 1 to 19 decimal digits, which always fit 64 bits.
ghost use Rattle.std.specs.Prelude.{◌≡◌, ◌^◌, ◌<◌, min, take, if◌then◌else◌};
ghost use Rattle.std.specs.Char.{is_ascii_digit};
ghost use Rattle.std.specs.List.{prefix_len};
ghost use Rattle.keep_spec.specs.Locator.{is_number, number};

/// The most digits that a number has (this project's rule).
pub const NUMBER_DIGITS: usize = 19;

/// The decimal digits at the start of a text.
#[derive(Clone, Copy, Debug, PartialEq, Eq)]
pub struct NumberPrefix {
    /// How many digits there are, at most 19.
    pub digits: usize,
    /// Their value, 0 where there are none.
    pub value: u64,
}

/// Parses the decimal digits at the start of a text, at most 19 of them.
pub fn number_prefix(text: &[u8]) -> NumberPrefix
    ensures digits { result.digits ≡ min 19 (prefix_len is_ascii_digit text.now) }
    ensures value { result.value ≡ number (take result.digits text.now) }
    ensures bound { result.value < 10 ^ result.digits }
{
    let mut value: u64 = 0;
    for (digits, byte) in text.iter().enumerate() {
        if digits == NUMBER_DIGITS || !byte.is_ascii_digit() {
            return NumberPrefix { digits, value };
        }
        value = value * 10 + u64::from(*byte - b'0');
    }
    NumberPrefix {
        digits: text.len(),
        value,
    }
}

/// Parses a whole text as a number: 1 to 19 decimal digits, leading zeros allowed; `None` for any other text.
pub fn read_number(text: &[u8]) -> Option<u64>
    ensures { result ≡ (if is_number text.now then Some (number text.now) else None) }
{
    let prefix = number_prefix(text);
    if prefix.digits == 0 {
        return None;
    }
    if prefix.digits < text.len() {
        return None;
    }
    Some(prefix.value)
}
