// Instants, parsed.
ghost use Rattle.std.specs.Prelude.{◌≡◌, ◌<◌, ◌≤◌, ◌+◌, ◌*◌, ◌^◌, if◌then◌else◌, Option, Some, None, IfSome, option_and_then, option_map, length};
ghost use Rattle.std.specs.Result.{result_ok};
ghost use Rattle.keep_spec.specs.Locator.{is_number, number};
ghost use Rattle.keep_clock.specs.Dates.{civil, IsFrom1970};
ghost use Rattle.keep_clock.specs.Instants.{before_z, date_of, fraction_of, has_marks, instant_of, nanos_by, nanos_of_digits, nanos_of_fraction, number_within, reading_below, seconds_of};

use crate::date::{date_of_parts, reading_at};
use jiff::civil::Date;
use keep_spec::read_number as parse_number;

/// The text isn't an instant from 1970 on that is a reading.
#[derive(Clone, Copy, Debug, PartialEq, Eq)]
pub struct BadInstant;

/// How many bytes `YYYY-MM-DDTHH:MM:SS` has.
const CIVIL_SIZE: usize = 19;

/// Parses `YYYY-MM-DDTHH:MM:SSZ`, where a point and 1 to 9 digits may stand before the `Z` (UTC, RFC 3339), as nanoseconds since 1970. `BadInstant` for any
/// other text, for a date or a time of day that doesn't exist, second 60 included, and for what isn't below `READING_END`.
#[tactic(auto, unfolding(crate::specs::Instants::instant_of))]
pub fn read_instant(text: &[u8]) -> Result<u64, BadInstant>
    ensures { result_ok result ≡ instant_of text.now }
{
    match reading_of(text) {
        Some(reading) => Ok(reading),
        None => Err(BadInstant),
    }
}

#[tactic(auto, using(crate::proofs::Parts::parts_are), unfolding(crate::specs::Instants::instant_of))]
fn reading_of(text: &[u8]) -> Option<u64>
    ensures { result ≡ instant_of text.now }
{
    if text.len() < CIVIL_SIZE {
        return None;
    }
    if !has_marks(text) {
        return None;
    }
    reading_by(date_of(text), seconds_of(text), fraction_of(text))
}

// The reading of the parts of a text, where each is in the form.
fn reading_by(date: Option<Date>, seconds: Option<u64>, fraction: Option<u64>) -> Option<u64>
    requires from { IfSome date IsFrom1970 }
    requires seconds { IfSome seconds (λ n. n < 86400) }
    requires fraction { IfSome fraction (λ n. n < 1000000000) }
    ensures { result ≡ option_and_then reading_below (nanos_by (option_map civil date) seconds fraction) }
{
    let Some(date) = date else {
        return None;
    };
    let Some(seconds) = seconds else {
        return None;
    };
    let Some(fraction) = fraction else {
        return None;
    };
    reading_at(date, seconds, fraction)
}

fn has_marks(text: &[u8]) -> bool
    requires { 19 ≤ length text.now }
    ensures { result ≡ has_marks text.now }
{
    text[4] == b'-' && text[7] == b'-' && text[10] == b'T' && text[13] == b':' && text[16] == b':'
}

// A number, and its bound by how many digits it has.
fn read_number(text: &[u8]) -> Option<u64>
    ensures number { result ≡ (if is_number text.now then Some (number text.now) else None) }
    ensures bound { IfSome result (λ n. n < 10 ^ length text.now) }
{
    parse_number(text)
}

fn two_digits(text: &[u8], at: usize) -> Option<u64>
    requires within { at < 18 }
    requires long { 19 ≤ length text.now }
    ensures number { result ≡ number_within at (at + 2) text.now }
    ensures bound { IfSome result (λ n. n < 100) }
{
    read_number(&text[at..at + 2])
}

fn year_of(text: &[u8]) -> Option<u64>
    requires { 19 ≤ length text.now }
    ensures number { result ≡ number_within 0 4 text.now }
    ensures bound { IfSome result (λ n. n < 10000) }
{
    read_number(&text[0..4])
}

fn date_of(text: &[u8]) -> Option<Date>
    requires { 19 ≤ length text.now }
    ensures date { option_map civil result ≡ date_of text.now }
    ensures from { IfSome result IsFrom1970 }
{
    let year = year_of(text)?;
    let month = two_digits(text, 5)?;
    let day = two_digits(text, 8)?;
    date_of_parts(year, month, day)
}

fn seconds_of(text: &[u8]) -> Option<u64>
    requires { 19 ≤ length text.now }
    ensures seconds { result ≡ seconds_of text.now }
    ensures bound { IfSome result (λ n. n < 86400) }
{
    let hour = two_digits(text, 11)?;
    let minute = two_digits(text, 14)?;
    let second = two_digits(text, 17)?;
    if hour < 24 && minute < 60 && second < 60 {
        Some(hour * 3600 + minute * 60 + second)
    } else {
        None
    }
}

fn before_z(text: &[u8]) -> Option<&[u8]>
    ensures { option_map (λ s. s.now) result ≡ before_z text.now }
{
    let last = text.len().checked_sub(1)?;
    if text[last] == b'Z' {
        Some(&text[..last])
    } else {
        None
    }
}

// The nanoseconds of what follows the seconds.
fn fraction_of(text: &[u8]) -> Option<u64>
    requires { 19 ≤ length text.now }
    ensures nanos { result ≡ fraction_of text.now }
    ensures bound { IfSome result (λ n. n < 1000000000) }
{
    match before_z(&text[CIVIL_SIZE..]) {
        Some(fraction) => nanos_of_fraction(fraction),
        None => None,
    }
}

fn nanos_of_fraction(text: &[u8]) -> Option<u64>
    ensures nanos { result ≡ nanos_of_fraction text.now }
    ensures bound { IfSome result (λ n. n < 1000000000) }
{
    match text {
        [] => Some(0),
        [point, digits @ ..] => {
            if *point == b'.' {
                nanos_of_digits(digits)
            } else {
                None
            }
        }
    }
}

#[tactic(auto, using(crate::proofs::Numbers::scaled_lt))]
fn nanos_of_digits(digits: &[u8]) -> Option<u64>
    ensures nanos { result ≡ nanos_of_digits digits.now }
    ensures bound { IfSome result (λ n. n < 1000000000) }
{
    let number = read_number(digits)?;
    if digits.len() <= 9 {
        Some(number * 10u64.pow(9 - digits.len() as u32))
    } else {
        None
    }
}
