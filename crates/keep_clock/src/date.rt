// Dates of the civil calendar, by jiff.
ghost use Rattle.std.specs.Prelude.{◌≡◌, ◌<◌, ◌≤◌, ◌+◌, ◌*◌, ◌/◌, ◌&&◌, nat_le, Option, Some, None, IfSome, option_map, if◌then◌else◌};
ghost use Rattle.keep_clock.specs.Calendar.{Date as TheDate, is_date, day_number, date_after};
ghost use Rattle.keep_clock.specs.Dates.{civil, IsFrom1970};
ghost use Rattle.keep_clock.specs.Instants.{nanos_at, reading_below};

use jiff::Timestamp;
use jiff::civil::{Date, Time};
use jiff::tz::Offset;
use keep_spec::{NANOS_PER_SECOND, READING_END};

/// The date with these parts, if the calendar has it from 1970 on.
pub(crate) fn date_of_parts(year: u64, month: u64, day: u64) -> Option<Date>
    requires year { year < 10000 }
    requires month { month < 100 }
    requires day { day < 100 }
    ensures date { let date : TheDate = record { year = year; month = month; day = day } in
        option_map civil result ≡ (if nat_le 1970 year && is_date date then Some date else None) }
    ensures from { IfSome result IsFrom1970 }
{
    if year < 1970 {
        return None;
    }
    match Date::new(year as i16, month as i8, day as i8) {
        Ok(date) => Some(date),
        Err(_) => None,
    }
}

// The nanoseconds from 1970 to the beginning of a date, if they are within what jiff has.
#[tactic(auto, using(crate::proofs::Days::midnight_nanos, crate::proofs::Days::no_reading))]
fn midnight_of(date: Date) -> Option<u64>
    requires { IsFrom1970 date }
    ensures value { IfSome result (λ n. n ≡ day_number (civil date) * 86400000000000) }
    ensures none { result ≡ None → READING_END ≤ day_number (civil date) * 86400000000000 }
{
    let Ok(instant) = Offset::UTC.to_timestamp(date.to_datetime(Time::midnight())) else {
        return None;
    };
    u64::try_from(instant.as_nanosecond()).ok()
}

/// The reading at a date, seconds since midnight and nanoseconds, if it is one.
pub(crate) fn reading_at(date: Date, seconds: u64, fraction: u64) -> Option<u64>
    requires from { IsFrom1970 date }
    requires seconds { seconds < 86400 }
    requires fraction { fraction < 1000000000 }
    ensures { result ≡ reading_below (nanos_at (civil date) seconds fraction) }
{
    let midnight = midnight_of(date)?;
    let reading = midnight.saturating_add(seconds * NANOS_PER_SECOND + fraction);
    if reading < READING_END {
        Some(reading)
    } else {
        None
    }
}

/// The date at a time, in nanoseconds since 1970 (UTC).
#[tactic(auto, using(crate::proofs::Days::date_is_at))]
pub(crate) fn date_at(nanos: u64) -> Date
    ensures { civil result ≡ date_after (nanos / 1000000000 / 86400) }
{
    let Ok(instant) = Timestamp::from_nanosecond(i128::from(nanos)) else {
        unreachable!()
    };
    Offset::UTC.to_datetime(instant).date()
}
