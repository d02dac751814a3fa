// What a line opens a task of rounds or of a device with.
ghost use Rattle.std.specs.Prelude.{◌≡◌, ◌<◌, length, IfOk, IfSome};
ghost use Rattle.serde_json.specs.View.{view};
ghost use Rattle.keep_history.specs.Names.{seen_names};
ghost use Rattle.keep_history.specs.Tasks.{NamesWithin};
ghost use Rattle.keep_spec.specs.Config.{Configuration};
ghost use Rattle.keep_history.specs.Script.{balance_of_data, device_of_data, round_opening_of_kind, HasTimes};

use crate::collections::table_opening_of_kind;
use crate::fields::device_at;
use keep_config::Config;
use keep_config::json::has_members;
use keep_history::{Opening, TaskState};
use keep_spec::{Bytes, NoMemory};
use serde_json::Value;
use std::alloc::Global;
use std::collections::BTreeMap;

/// The same for a balance, for what is done on one device, and for the kinds that ask the table.
pub(crate) fn round_opening_of_kind<T>(
    alloc: Global,
    config: &Config,
    names: &BTreeMap<Bytes, TaskState<T>>,
    kind: &[u8],
    value: &Value,
) -> Result<Option<Opening>, NoMemory>
    ensures opening { IfOk result (λ o. o ≡ round_opening_of_kind config.now (seen_names names.now.entries) kind.now (view value.now)) }
    ensures times { IfOk result (λ o. IfSome o HasTimes) }
    ensures within { IfOk result (λ o. IfSome o (NamesWithin config.now)) }
{
    if kind == b"balance".as_slice() {
        Ok(balance_of_value(value))
    } else if kind == b"trash_worker".as_slice() {
        match device_of_value(config, value) {
            Some(device) => Ok(Some(Opening::TrashWorker { device })),
            None => Ok(None),
        }
    } else if kind == b"pull_worker".as_slice() {
        match device_of_value(config, value) {
            Some(device) => Ok(Some(Opening::PullWorker { device })),
            None => Ok(None),
        }
    } else if kind == b"empty_worker".as_slice() {
        match device_of_value(config, value) {
            Some(device) => Ok(Some(Opening::EmptyWorker { device })),
            None => Ok(None),
        }
    } else if kind == b"restart".as_slice() {
        match device_of_value(config, value) {
            Some(device) => Ok(Some(Opening::Restart { device })),
            None => Ok(None),
        }
    } else {
        table_opening_of_kind(alloc, names, kind, value)
    }
}

fn balance_of_value(value: &Value) -> Option<Opening>
    ensures opening { result ≡ balance_of_data (view value.now) }
    ensures times { IfSome result HasTimes }
    ensures within { (c : Configuration) → IfSome result (NamesWithin c) }
{
    if has_members(value, 3) {
        Some(Opening::Balance)
    } else {
        None
    }
}

// The device of a line that names nothing else.
fn device_of_value(config: &Config, value: &Value) -> Option<u32>
    ensures device { result ≡ device_of_data config.now (view value.now) }
    ensures within { IfSome result (λ n. n < length config.now.devices) }
{
    let device = device_at(config, value)?;
    if has_members(value, 4) {
        Some(device)
    } else {
        None
    }
}
