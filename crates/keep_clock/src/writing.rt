// Instants, written.
ghost use Rattle.std.specs.Prelude.{◌≡◌, ◌<◌, ◌≤◌, ◌++◌, IfOk, OnOk, replicate};
ghost use Rattle.keep_clock.specs.Calendar.{date_after};
ghost use Rattle.keep_clock.specs.Dates.{civil};
ghost use Rattle.keep_clock.specs.Instants.{date_text, instant_text, padded, time_text};

use crate::date::date_at;
use itoa::Buffer;
use jiff::civil::Date;
use keep_spec::{Bytes, NANOS_PER_SECOND, NoMemory};
use std::alloc::Global;

/// The most digits of a number that is written with zeros before it.
const WIDTH_MAX: usize = 9;

/// How many bytes the text of an instant has.
const INSTANT_SIZE: usize = 30;

/// The seconds of a day.
const SECONDS_PER_DAY: u64 = 86_400;

/// Writes a time in nanoseconds since 1970 as `YYYY-MM-DDTHH:MM:SS.fffffffffZ` (UTC, RFC 3339). The greatest lies in the year 2554.
#[tactic(auto, unfolding(crate::specs::Instants::instant_text))]
pub fn write_instant(alloc: Global, reading: u64) -> Result<Bytes, NoMemory>
    ensures { IfOk result (λ text. text ≡ instant_text reading) }
{
    let seconds = reading / NANOS_PER_SECOND;
    let mut text = Vec::with_capacity(alloc, INSTANT_SIZE)?;
    push_date(&mut text, date_at(reading))?;
    text.extend_from_slice(b"T")?;
    push_time(&mut text, seconds % SECONDS_PER_DAY)?;
    text.extend_from_slice(b".")?;
    push_padded(&mut text, WIDTH_MAX, reading % NANOS_PER_SECOND)?;
    text.extend_from_slice(b"Z")?;
    Ok(Bytes::of(text))
}

fn push_date(out: &mut Vec<u8>, date: Date) -> Result<(), NoMemory>
    ensures { OnOk result (out.new.items ≡ out.old.items ++ date_text (civil date)) }
{
    push_padded(out, 4, year_of(date))?;
    out.extend_from_slice(b"-")?;
    push_padded(out, 2, month_of(date))?;
    out.extend_from_slice(b"-")?;
    push_padded(out, 2, day_of(date))
}

fn year_of(date: Date) -> u64
    ensures { result ≡ (civil date).year }
{
    u64::from(date.year().unsigned_abs())
}

fn month_of(date: Date) -> u64
    ensures { result ≡ (civil date).month }
{
    u64::from(date.month().unsigned_abs())
}

fn day_of(date: Date) -> u64
    ensures { result ≡ (civil date).day }
{
    u64::from(date.day().unsigned_abs())
}

// A time of day, by its seconds since midnight.
fn push_time(out: &mut Vec<u8>, seconds: u64) -> Result<(), NoMemory>
    ensures { OnOk result (out.new.items ≡ out.old.items ++ time_text seconds) }
{
    push_padded(out, 2, seconds / 3600)?;
    out.extend_from_slice(b":")?;
    push_padded(out, 2, seconds / 60 % 60)?;
    out.extend_from_slice(b":")?;
    push_padded(out, 2, seconds % 60)
}

// Zeros, at most as many as a number can have digits.
#[tactic(auto, using(crate::proofs::Padding::take_zeros))]
fn push_zeros(out: &mut Vec<u8>, count: usize) -> Result<(), NoMemory>
    requires { count ≤ WIDTH_MAX }
    ensures { OnOk result (out.new.items ≡ out.old.items ++ replicate count 48) }
{
    let zeros = [b'0'; WIDTH_MAX];
    out.extend_from_slice(&zeros[..count])?;
    Ok(())
}

// A number, with zeros before it up to some digits.
fn push_padded(out: &mut Vec<u8>, width: usize, number: u64) -> Result<(), NoMemory>
    requires { width ≤ WIDTH_MAX }
    ensures { OnOk result (out.new.items ≡ out.old.items ++ padded width number) }
{
    let mut buffer = Buffer::new();
    let digits = buffer.format(number).as_bytes();
    push_zeros(out, width.saturating_sub(digits.len()))?;
    out.extend_from_slice(digits)?;
    Ok(())
}
