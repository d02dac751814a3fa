// What single members of a line say.
ghost use Rattle.std.specs.Prelude.{◌≡◌, ◌≤◌, ◌<◌, ◌+◌, ◌^◌, nat_lt, if◌then◌else◌, Some, None, IfOk, IfSome, length};
ghost use Rattle.std.specs.List.{list_all};
ghost use Rattle.serde_json.specs.View.{view};
ghost use Rattle.keep_spec.specs.Times.{IsReading};
ghost use Rattle.keep_history.specs.Script.{device_at, is_name_character, is_task_name, members_if, name_at, reading_at, server_at, time_at};

use keep_config::Config;
use keep_config::json::{number_at, text_at};
use keep_spec::{Bytes, NoMemory, READING_END};
use serde_json::Value;
use std::alloc::Global;

/// The longest name of a task, in bytes.
const NAME_MAX: usize = 64;

/// The name of a task at a name, copied: 1 to 64 letters, digits, `_` and `-`.
pub(crate) fn name_at(alloc: Global, value: &Value, field: &str) -> Result<Option<Bytes>, NoMemory>
    ensures { IfOk result (λ o. o ≡ name_at field.now (view value.now)) }
{
    match text_at(value, field) {
        Some(text) if is_task_name(text.as_bytes()) => {
            Ok(Some(Bytes::copy_of(alloc, text.as_bytes())?))
        }
        _ => Ok(None),
    }
}

fn is_task_name(text: &[u8]) -> bool
    ensures { result ≡ is_task_name text.now }
{
    1 <= text.len() && text.len() <= NAME_MAX && are_name_characters(text)
}

fn are_name_characters(text: &[u8]) -> bool
    ensures { result ≡ list_all is_name_character text.now }
{
    text.iter().all(|byte| is_name_character(*byte))
}

fn is_name_character(byte: u8) -> bool
    ensures { result ≡ is_name_character byte }
{
    byte.is_ascii_alphanumeric() || byte == b'_' || byte == b'-'
}

/// The reading of a line, in nanoseconds since 1970.
pub(crate) fn reading_at(value: &Value) -> Option<u64>
    ensures reading { result ≡ reading_at (view value.now) }
    ensures below { IfSome result (λ n. IsReading n) }
{
    time_at(value, "at")
}

/// A reading at a name, in nanoseconds since 1970.
pub(crate) fn time_at(value: &Value, field: &str) -> Option<u64>
    ensures time { result ≡ time_at field.now (view value.now) }
    ensures below { IfSome result (λ n. IsReading n) }
{
    match number_at(value, field) {
        Some(time) if time < READING_END => Some(time),
        _ => None,
    }
}

/// How many members a line has, one of which may be left out.
pub(crate) fn members_if(count: usize, given: bool) -> usize
    requires { count < 2 ^ 32 }
    ensures value { result ≡ members_if count given }
    ensures bound { result ≤ count + 1 }
{
    if given { count + 1 } else { count }
}

/// The server that a line names, one of the configuration.
pub(crate) fn server_at(config: &Config, value: &Value) -> Option<u32>
    ensures server { result ≡ server_at config.now (view value.now) }
    ensures within { IfSome result (λ n. n < length config.now.servers) }
{
    number_below(number_at(value, "server")?, config.servers.len())
}

/// The device that a line names, one of the configuration.
pub(crate) fn device_at(config: &Config, value: &Value) -> Option<u32>
    ensures device { result ≡ device_at config.now (view value.now) }
    ensures within { IfSome result (λ n. n < length config.now.devices) }
{
    number_below(number_at(value, "device")?, config.devices.len())
}

fn number_below(number: u64, end: usize) -> Option<u32>
    requires { end ≤ 64 }
    ensures number { result ≡ if nat_lt number end then Some number else None }
    ensures within { IfSome result (λ n. n < end) }
{
    if number < end as u64 {
        Some(number as u32)
    } else {
        None
    }
}
