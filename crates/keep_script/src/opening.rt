// What a line opens a task with.
ghost use Rattle.std.specs.Prelude.{◌≡◌, ◌<◌, length, IfOk, IfSome, Option, None, Some, option_map, option_copied};
ghost use Rattle.serde_json.specs.View.{view};
ghost use Rattle.serde_json.specs.Find.{get};
ghost use Rattle.keep_history.specs.Script.{block_request_of_data, digest_at, digest_of_data, ended_locator, get_of_data, locator_of_data, locator_of_reference, opening_of_kind, put_of_data, touch_of_data, untrash_of_data, HasTimes};
ghost use Rattle.keep_history.specs.Names.{at_name, seen_names};
ghost use Rattle.keep_history.specs.Tasks.{NamesWithin};

use crate::fields::{members_if, server_at};
use crate::hexadecimal::bytes_of_text;
use crate::rounds::round_opening_of_kind;
use keep_config::Config;
use keep_config::json::{has_members, text_at};
use keep_history::{Opening, TaskState};
use keep_spec::{Bytes, Digest, NoMemory};
use serde_json::Value;
use std::alloc::Global;
use std::collections::BTreeMap;

/// The opening of a line of this kind, from its other members. None where they aren't those of the kind.
pub(crate) fn opening_of_kind<T>(
    alloc: Global,
    config: &Config,
    names: &BTreeMap<Bytes, TaskState<T>>,
    kind: &[u8],
    value: &Value,
) -> Result<Option<Opening>, NoMemory>
    ensures opening { IfOk result (λ o. o ≡ opening_of_kind config.now (seen_names names.now.entries) kind.now (view value.now)) }
    ensures times { IfOk result (λ o. IfSome o HasTimes) }
    ensures within { IfOk result (λ o. IfSome o (NamesWithin config.now)) }
{
    if kind == b"put".as_slice() {
        put_of_value(alloc, config, value)
    } else if kind == b"get".as_slice() {
        get_of_value(alloc, config, names, value)
    } else if kind == b"touch".as_slice() {
        touch_of_value(alloc, config, names, value)
    } else if kind == b"untrash".as_slice() {
        untrash_of_value(alloc, config, value)
    } else {
        round_opening_of_kind(alloc, config, names, kind, value)
    }
}

fn put_of_value(alloc: Global, config: &Config, value: &Value) -> Result<Option<Opening>, NoMemory>
    ensures opening { IfOk result (λ o. o ≡ put_of_data config.now (view value.now)) }
    ensures times { IfOk result (λ o. IfSome o HasTimes) }
    ensures within { IfOk result (λ o. IfSome o (NamesWithin config.now)) }
{
    let Some(token) = text_at(value, "token") else {
        return Ok(None);
    };
    let Some(server) = server_at(config, value) else {
        return Ok(None);
    };
    let Some(digits) = text_at(value, "bytes") else {
        return Ok(None);
    };
    let Some(digest) = digest_of_member(value.get("digest")) else {
        return Ok(None);
    };
    if !has_members(value, members_if(6, digest.is_some())) {
        return Ok(None);
    }
    let Some(bytes) = bytes_of_text(alloc, digits.as_bytes())? else {
        return Ok(None);
    };
    Ok(Some(Opening::Put {
        token: Bytes::copy_of(alloc, token.as_bytes())?,
        server,
        bytes,
        digest,
    }))
}

// What a get and a touch ask for: a block by its locator.
#[derive(Drop)]
struct BlockRequest {
    token: Bytes,
    server: u32,
    locator: Bytes,
}

fn block_request_of_value<T>(
    alloc: Global,
    config: &Config,
    names: &BTreeMap<Bytes, TaskState<T>>,
    value: &Value,
) -> Result<Option<BlockRequest>, NoMemory>
    ensures request { IfOk result (λ o. option_map (λ r. (r.token, r.server, r.locator)) o ≡ block_request_of_data config.now (seen_names names.now.entries) (view value.now)) }
    ensures within { IfOk result (λ o. IfSome o (λ r. r.server < length config.now.servers)) }
{
    let Some(token) = text_at(value, "token") else {
        return Ok(None);
    };
    let Some(server) = server_at(config, value) else {
        return Ok(None);
    };
    let Some(found) = value.get("locator") else {
        return Ok(None);
    };
    if !has_members(value, 6) {
        return Ok(None);
    }
    let Some(locator) = locator_of_value(alloc, names, found)? else {
        return Ok(None);
    };
    Ok(Some(BlockRequest {
        token: Bytes::copy_of(alloc, token.as_bytes())?,
        server,
        locator: Bytes::copy_of(alloc, locator)?,
    }))
}

fn get_of_value<T>(
    alloc: Global,
    config: &Config,
    names: &BTreeMap<Bytes, TaskState<T>>,
    value: &Value,
) -> Result<Option<Opening>, NoMemory>
    ensures opening { IfOk result (λ o. o ≡ get_of_data config.now (seen_names names.now.entries) (view value.now)) }
    ensures times { IfOk result (λ o. IfSome o HasTimes) }
    ensures within { IfOk result (λ o. IfSome o (NamesWithin config.now)) }
{
    match block_request_of_value(alloc, config, names, value)? {
        Some(
            BlockRequest {
                token,
                server,
                locator,
            },
        ) => Ok(Some(Opening::Get {
            token,
            server,
            locator,
        })),
        None => Ok(None),
    }
}

fn touch_of_value<T>(
    alloc: Global,
    config: &Config,
    names: &BTreeMap<Bytes, TaskState<T>>,
    value: &Value,
) -> Result<Option<Opening>, NoMemory>
    ensures opening { IfOk result (λ o. o ≡ touch_of_data config.now (seen_names names.now.entries) (view value.now)) }
    ensures times { IfOk result (λ o. IfSome o HasTimes) }
    ensures within { IfOk result (λ o. IfSome o (NamesWithin config.now)) }
{
    match block_request_of_value(alloc, config, names, value)? {
        Some(
            BlockRequest {
                token,
                server,
                locator,
            },
        ) => Ok(Some(Opening::Touch {
            token,
            server,
            locator,
        })),
        None => Ok(None),
    }
}

fn untrash_of_value(
    alloc: Global,
    config: &Config,
    value: &Value,
) -> Result<Option<Opening>, NoMemory>
    ensures opening { IfOk result (λ o. o ≡ untrash_of_data config.now (view value.now)) }
    ensures times { IfOk result (λ o. IfSome o HasTimes) }
    ensures within { IfOk result (λ o. IfSome o (NamesWithin config.now)) }
{
    let Some(token) = text_at(value, "token") else {
        return Ok(None);
    };
    let Some(server) = server_at(config, value) else {
        return Ok(None);
    };
    let Some(digest) = digest_at(value, "digest") else {
        return Ok(None);
    };
    if !has_members(value, 6) {
        return Ok(None);
    }
    Ok(Some(Opening::Untrash {
        token: Bytes::copy_of(alloc, token.as_bytes())?,
        server,
        digest,
    }))
}

fn digest_at(value: &Value, field: &str) -> Option<Digest>
    ensures { result ≡ digest_at field.now (view value.now) }
{
    Digest::read(text_at(value, field)?.as_bytes())
}

// A digest that may be left out. None where the member is no digest.
fn digest_of_member(member: Option<&Value>) -> Option<Option<Digest>>
    ensures { result ≡ digest_of_data (option_map view (option_copied member.entry)) }
{
    match member {
        Some(value) => {
            let digest = Digest::read(value.as_str()?.as_bytes())?;
            Some(Some(digest))
        }
        None => Some(None),
    }
}

/// The locator of a text, or of a reference to a task that ended with one, lent from where it stands.
pub(crate) fn locator_of_value<'a, T>(
    alloc: Global,
    names: &'a BTreeMap<Bytes, TaskState<T>>,
    value: &'a Value,
) -> Result<Option<&'a [u8]>, NoMemory>
    ensures { IfOk result (λ o. option_map (λ s. s.now) o ≡ locator_of_data (seen_names names.now.entries) (view value.now)) }
{
    match value.as_str() {
        Some(text) => Ok(Some(text.as_bytes())),
        None => locator_of_reference(alloc, names, value),
    }
}

fn locator_of_reference<'a, T>(
    alloc: Global,
    names: &'a BTreeMap<Bytes, TaskState<T>>,
    value: &Value,
) -> Result<Option<&'a [u8]>, NoMemory>
    ensures { IfOk result (λ o. option_map (λ s. s.now) o ≡ locator_of_reference (seen_names names.now.entries) (view value.now)) }
{
    if !has_members(value, 1) {
        return Ok(None);
    }
    match text_at(value, "locator") {
        Some(name) => Ok(ended_locator(names, &Bytes::copy_of(alloc, name.as_bytes())?)),
        None => Ok(None),
    }
}

#[tactic(auto, using(crate::proofs::SeenNames::seen_at_name))]
fn ended_locator<'a, T>(names: &'a BTreeMap<Bytes, TaskState<T>>, name: &Bytes) -> Option<&'a [u8]>
    ensures { option_map (λ s. s.now) result ≡ ended_locator (at_name name.now (seen_names names.now.entries)) }
{
    match names.get(name) {
        Some(TaskState::Located { locator }) => Some(locator.as_slice()),
        _ => None,
    }
}
