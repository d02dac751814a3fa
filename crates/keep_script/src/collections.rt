// What a line opens a task of collections with.
ghost use Rattle.std.specs.Prelude.{◌≡◌, IfOk, IfSome, Option, None, Some, option_map, option_copied};
ghost use Rattle.serde_json.specs.View.{view, items_view};
ghost use Rattle.keep_history.specs.Names.{at_name, seen_names};
ghost use Rattle.keep_history.specs.Tasks.{NamesWithin};
ghost use Rattle.keep_spec.specs.Config.{Configuration};
ghost use Rattle.keep_history.specs.Script.{ended_text, joined_parts, manifest_of_data, number_of_data, part_of_data, read_of_data, request_of_data, restore_of_data, save_of_data, sweep_of_data, table_opening_of_kind, text_of_data, text_of_reference, trash_of_data, update_of_data, want_at, HasTimes};

use crate::fields::{members_if, time_at};
use crate::opening::locator_of_value;
use keep_config::json::{has_members, number_at, text_at, truth_or};
use keep_event::SaveRequest;
use keep_history::{Opening, TaskState};
use keep_spec::{Bytes, NoMemory};
use serde_json::Value;
use std::alloc::Global;
use std::collections::BTreeMap;

/// The greatest number of replicas that a line may want.
const WANT_MAX: u64 = 1_000_000_000_000_000_000;

/// The same for the kinds that ask the table.
pub(crate) fn table_opening_of_kind<T>(
    alloc: Global,
    names: &BTreeMap<Bytes, TaskState<T>>,
    kind: &[u8],
    value: &Value,
) -> Result<Option<Opening>, NoMemory>
    ensures opening { IfOk result (λ o. o ≡ table_opening_of_kind (seen_names names.now.entries) kind.now (view value.now)) }
    ensures times { IfOk result (λ o. IfSome o HasTimes) }
    ensures within { (c : Configuration) → IfOk result (λ o. IfSome o (NamesWithin c)) }
{
    if kind == b"save".as_slice() {
        save_of_value(alloc, names, value)
    } else if kind == b"update".as_slice() {
        update_of_value(alloc, names, value)
    } else if kind == b"read".as_slice() {
        read_of_value(alloc, value)
    } else if kind == b"trash".as_slice() {
        trash_of_value(alloc, value)
    } else if kind == b"restore".as_slice() {
        restore_of_value(alloc, value)
    } else if kind == b"sweep".as_slice() {
        Ok(sweep_of_value(value))
    } else {
        Ok(None)
    }
}

fn save_of_value<T>(
    alloc: Global,
    names: &BTreeMap<Bytes, TaskState<T>>,
    value: &Value,
) -> Result<Option<Opening>, NoMemory>
    ensures opening { IfOk result (λ o. o ≡ save_of_data (seen_names names.now.entries) (view value.now)) }
    ensures times { IfOk result (λ o. IfSome o HasTimes) }
    ensures within { (c : Configuration) → IfOk result (λ o. IfSome o (NamesWithin c)) }
{
    if !has_members(value, members_if(6, value.get("portable").is_some())) {
        return Ok(None);
    }
    match request_of_value(alloc, names, value)? {
        Some(request) => Ok(Some(Opening::Save { request })),
        None => Ok(None),
    }
}

fn update_of_value<T>(
    alloc: Global,
    names: &BTreeMap<Bytes, TaskState<T>>,
    value: &Value,
) -> Result<Option<Opening>, NoMemory>
    ensures opening { IfOk result (λ o. o ≡ update_of_data (seen_names names.now.entries) (view value.now)) }
    ensures times { IfOk result (λ o. IfSome o HasTimes) }
    ensures within { (c : Configuration) → IfOk result (λ o. IfSome o (NamesWithin c)) }
{
    let claimed = members_if(7, value.get("portable").is_some());
    if !has_members(value, members_if(claimed, value.get("preserve").is_some())) {
        return Ok(None);
    }
    let Some(collection) = text_at(value, "collection") else {
        return Ok(None);
    };
    let Some(preserve) = truth_or(value, "preserve", false) else {
        return Ok(None);
    };
    let Some(request) = request_of_value(alloc, names, value)? else {
        return Ok(None);
    };
    Ok(Some(Opening::Update {
        collection: Bytes::copy_of(alloc, collection.as_bytes())?,
        preserve,
        request,
    }))
}

fn read_of_value(alloc: Global, value: &Value) -> Result<Option<Opening>, NoMemory>
    ensures opening { IfOk result (λ o. o ≡ read_of_data (view value.now)) }
    ensures times { IfOk result (λ o. IfSome o HasTimes) }
    ensures within { (c : Configuration) → IfOk result (λ o. IfSome o (NamesWithin c)) }
{
    if !has_members(value, members_if(5, value.get("version").is_some())) {
        return Ok(None);
    }
    let Some(token) = text_at(value, "token") else {
        return Ok(None);
    };
    let Some(collection) = text_at(value, "collection") else {
        return Ok(None);
    };
    let Some(version) = number_of_member(value.get("version")) else {
        return Ok(None);
    };
    Ok(Some(Opening::Read {
        token: Bytes::copy_of(alloc, token.as_bytes())?,
        collection: Bytes::copy_of(alloc, collection.as_bytes())?,
        version,
    }))
}

fn trash_of_value(alloc: Global, value: &Value) -> Result<Option<Opening>, NoMemory>
    ensures opening { IfOk result (λ o. o ≡ trash_of_data (view value.now)) }
    ensures times { IfOk result (λ o. IfSome o HasTimes) }
    ensures within { (c : Configuration) → IfOk result (λ o. IfSome o (NamesWithin c)) }
{
    if !has_members(value, 7) {
        return Ok(None);
    }
    let Some(token) = text_at(value, "token") else {
        return Ok(None);
    };
    let Some(collection) = text_at(value, "collection") else {
        return Ok(None);
    };
    let Some(trash_at) = time_at(value, "trash_at") else {
        return Ok(None);
    };
    let Some(delete_at) = time_at(value, "delete_at") else {
        return Ok(None);
    };
    Ok(Some(Opening::Trash {
        token: Bytes::copy_of(alloc, token.as_bytes())?,
        collection: Bytes::copy_of(alloc, collection.as_bytes())?,
        trash_at,
        delete_at,
    }))
}

fn restore_of_value(alloc: Global, value: &Value) -> Result<Option<Opening>, NoMemory>
    ensures opening { IfOk result (λ o. o ≡ restore_of_data (view value.now)) }
    ensures times { IfOk result (λ o. IfSome o HasTimes) }
    ensures within { (c : Configuration) → IfOk result (λ o. IfSome o (NamesWithin c)) }
{
    if !has_members(value, 5) {
        return Ok(None);
    }
    let Some(token) = text_at(value, "token") else {
        return Ok(None);
    };
    let Some(collection) = text_at(value, "collection") else {
        return Ok(None);
    };
    Ok(Some(Opening::Restore {
        token: Bytes::copy_of(alloc, token.as_bytes())?,
        collection: Bytes::copy_of(alloc, collection.as_bytes())?,
    }))
}

fn sweep_of_value(value: &Value) -> Option<Opening>
    ensures opening { result ≡ sweep_of_data (view value.now) }
    ensures times { IfSome result HasTimes }
    ensures within { (c : Configuration) → IfSome result (NamesWithin c) }
{
    if has_members(value, 3) {
        Some(Opening::Sweep)
    } else {
        None
    }
}

// What a save or an update asks to store.
fn request_of_value<T>(
    alloc: Global,
    names: &BTreeMap<Bytes, TaskState<T>>,
    value: &Value,
) -> Result<Option<SaveRequest>, NoMemory>
    ensures { IfOk result (λ o. o ≡ request_of_data (seen_names names.now.entries) (view value.now)) }
{
    let Some(token) = text_at(value, "token") else {
        return Ok(None);
    };
    let Some(found) = value.get("manifest") else {
        return Ok(None);
    };
    let Some(text) = manifest_of_value(alloc, names, found)? else {
        return Ok(None);
    };
    let Some(want) = want_at(value) else {
        return Ok(None);
    };
    let Some(portable) = text_of_member(alloc, value.get("portable"))? else {
        return Ok(None);
    };
    Ok(Some(SaveRequest {
        token: Bytes::copy_of(alloc, token.as_bytes())?,
        text,
        want,
        portable,
    }))
}

fn want_at(value: &Value) -> Option<u64>
    ensures { result ≡ want_at (view value.now) }
{
    match number_at(value, "want") {
        Some(want) if want <= WANT_MAX => Some(want),
        _ => None,
    }
}

// A text that may be left out. None where the member is no text.
fn text_of_member(alloc: Global, member: Option<&Value>) -> Result<Option<Option<Bytes>>, NoMemory>
    ensures { IfOk result (λ o. o ≡ text_of_data (option_map view (option_copied member.entry))) }
{
    match member {
        Some(value) => match value.as_str() {
            Some(text) => Ok(Some(Some(Bytes::copy_of(alloc, text.as_bytes())?))),
            None => Ok(None),
        },
        None => Ok(Some(None)),
    }
}

// A whole number that may be left out. None where the member is none.
fn number_of_member(member: Option<&Value>) -> Option<Option<u64>>
    ensures { result ≡ number_of_data (option_map view (option_copied member.entry)) }
{
    match member {
        Some(value) => Some(Some(value.as_u64()?)),
        None => Some(None),
    }
}

fn manifest_of_value<T>(
    alloc: Global,
    names: &BTreeMap<Bytes, TaskState<T>>,
    value: &Value,
) -> Result<Option<Bytes>, NoMemory>
    ensures { IfOk result (λ o. o ≡ manifest_of_data (seen_names names.now.entries) (view value.now)) }
{
    if let Some(text) = value.as_str() {
        return Ok(Some(Bytes::copy_of(alloc, text.as_bytes())?));
    }
    match value.as_array() {
        Some(parts) => joined_parts(alloc, names, parts),
        None => Ok(None),
    }
}

fn joined_parts<T>(
    alloc: Global,
    names: &BTreeMap<Bytes, TaskState<T>>,
    parts: &[Value],
) -> Result<Option<Bytes>, NoMemory>
    ensures { IfOk result (λ o. o ≡ joined_parts (seen_names names.now.entries) (items_view parts.now)) }
{
    let mut text = Vec::new(alloc);
    for part in parts {
        let Some(part) = part_of_value(alloc, names, part)? else {
            return Ok(None);
        };
        text.extend_from_slice(part)?;
    }
    Ok(Some(Bytes::of(text)))
}

// Lends a part from where it stands, so that it is copied only into the whole.
fn part_of_value<'a, T>(
    alloc: Global,
    names: &'a BTreeMap<Bytes, TaskState<T>>,
    value: &'a Value,
) -> Result<Option<&'a [u8]>, NoMemory>
    ensures { IfOk result (λ o. option_map (λ s. s.now) o ≡ part_of_data (seen_names names.now.entries) (view value.now)) }
{
    match locator_of_value(alloc, names, value)? {
        Some(text) => Ok(Some(text)),
        None => text_of_reference(alloc, names, value),
    }
}

fn text_of_reference<'a, T>(
    alloc: Global,
    names: &'a BTreeMap<Bytes, TaskState<T>>,
    value: &Value,
) -> Result<Option<&'a [u8]>, NoMemory>
    ensures { IfOk result (λ o. option_map (λ s. s.now) o ≡ text_of_reference (seen_names names.now.entries) (view value.now)) }
{
    if !has_members(value, 1) {
        return Ok(None);
    }
    match text_at(value, "manifest") {
        Some(name) => Ok(ended_text(names, &Bytes::copy_of(alloc, name.as_bytes())?)),
        None => Ok(None),
    }
}

#[tactic(auto, using(crate::proofs::SeenNames::seen_at_name))]
fn ended_text<'a, T>(names: &'a BTreeMap<Bytes, TaskState<T>>, name: &Bytes) -> Option<&'a [u8]>
    ensures { option_map (λ s. s.now) result ≡ ended_text (at_name name.now (seen_names names.now.entries)) }
{
    match names.get(name) {
        Some(TaskState::Row { text }) => Some(text.as_slice()),
        _ => None,
    }
}
