// The bodies of requests.
ghost use Rattle.std.specs.Prelude.{◌≡◌, ◌<◌, ◌≤◌, ◌+◌, ◌^◌, IfOk, IfSome, Option, None, Some, option_map, option_copied, unwrap_or, []};
ghost use Rattle.serde_json.specs.View.{view};
ghost use Rattle.keep_history.specs.Script.{members_if, text_of_data, want_at};
ghost use Rattle.keep_spec.specs.Times.{IsReading};
ghost use Rattle.keep_routes.specs.Bodies.{instant_at, request_of_data, save_of, save_of_data, times_of, times_of_data, update_of, update_of_data};

use keep_clock::read_instant;
use keep_config::json::{has_members, number_at, text_at, truth_or, value_of};
use keep_event::SaveRequest;
use keep_spec::{Bytes, NoMemory};
use serde_json::Value;
use std::alloc::Global;

/// The greatest number of replicas that a request may want.
const WANT_MAX: u64 = 1_000_000_000_000_000_000;

/// What an update asks: whether the version before it is kept, and what is stored.
#[derive(Drop, Debug)]
pub(crate) struct UpdateBody {
    pub(crate) preserve: bool,
    pub(crate) request: SaveRequest,
}

/// The times of a trash, in nanoseconds since 1970.
#[derive(Clone, Copy, Debug)]
pub(crate) struct Times {
    pub(crate) trash_at: u64,
    pub(crate) delete_at: u64,
}

fn members_if(count: usize, given: bool) -> usize
    requires { count < 2 ^ 32 }
    ensures value { result ≡ members_if count given }
    ensures bound { result ≤ count + 1 }
{
    if given { count + 1 } else { count }
}

fn want_at(value: &Value) -> Option<u64>
    ensures { result ≡ want_at (view value.now) }
{
    match number_at(value, "want") {
        Some(want) if want <= WANT_MAX => Some(want),
        _ => None,
    }
}

// A text that may be left out. None where the member is no text.
fn text_of_member(alloc: Global, member: Option<&Value>) -> Result<Option<Option<Bytes>>, NoMemory>
    ensures { IfOk result (λ o. o ≡ text_of_data (option_map view (option_copied member.entry))) }
{
    match member {
        Some(value) => match value.as_str() {
            Some(text) => Ok(Some(Some(Bytes::copy_of(alloc, text.as_bytes())?))),
            None => Ok(None),
        },
        None => Ok(Some(None)),
    }
}

// What is stored, for a token that is handed over.
fn request_of_value(
    alloc: Global,
    token: Bytes,
    value: &Value,
) -> Result<Option<SaveRequest>, NoMemory>
    ensures { IfOk result (λ o. o ≡ request_of_data token (view value.now)) }
{
    let Some(text) = text_at(value, "manifest") else {
        return Ok(None);
    };
    let Some(want) = want_at(value) else {
        return Ok(None);
    };
    let Some(portable) = text_of_member(alloc, value.get("portable"))? else {
        return Ok(None);
    };
    Ok(Some(SaveRequest {
        token,
        text: Bytes::copy_of(alloc, text.as_bytes())?,
        want,
        portable,
    }))
}

fn save_of_value(
    alloc: Global,
    token: Bytes,
    value: &Value,
) -> Result<Option<SaveRequest>, NoMemory>
    ensures { IfOk result (λ o. o ≡ save_of_data token (view value.now)) }
{
    if !has_members(value, members_if(2, value.get("portable").is_some())) {
        return Ok(None);
    }
    request_of_value(alloc, token, value)
}

fn update_of_value(
    alloc: Global,
    token: Bytes,
    value: &Value,
) -> Result<Option<UpdateBody>, NoMemory>
    ensures { IfOk result (λ o. o ≡ update_of_data token (view value.now)) }
{
    let claimed = members_if(2, value.get("portable").is_some());
    if !has_members(value, members_if(claimed, value.get("preserve").is_some())) {
        return Ok(None);
    }
    let Some(preserve) = truth_or(value, "preserve", false) else {
        return Ok(None);
    };
    match request_of_value(alloc, token, value)? {
        Some(request) => Ok(Some(UpdateBody { preserve, request })),
        None => Ok(None),
    }
}

fn instant_at(value: &Value, name: &str) -> Option<u64>
    ensures instant { result ≡ instant_at name.now (view value.now) }
    ensures reading { IfSome result IsReading }
{
    match text_at(value, name) {
        Some(text) => read_instant(text.as_bytes()).ok(),
        None => None,
    }
}

fn times_of_value(value: &Value) -> Option<Times>
    ensures times { result ≡ times_of_data (view value.now) }
    ensures readings { IfSome result (λ t. IsReading t.trash_at) }
{
    if !has_members(value, 2) {
        return None;
    }
    let trash_at = instant_at(value, "trash_at")?;
    let delete_at = instant_at(value, "delete_at")?;
    Some(Times {
        trash_at,
        delete_at,
    })
}

/// What the body of a save asks, for a token that is handed over. None for a body that isn't in the form.
#[tactic(auto, unfolding(crate::specs::Bodies::save_of))]
pub(crate) fn save_of(
    alloc: Global,
    token: Bytes,
    body: &[u8],
) -> Result<Option<SaveRequest>, NoMemory>
    ensures { IfOk result (λ o. o ≡ save_of token body.now) }
{
    match value_of(alloc, body)? {
        Some(value) => save_of_value(alloc, token, &value),
        None => Ok(None),
    }
}

/// The same of an update.
#[tactic(auto, unfolding(crate::specs::Bodies::update_of))]
pub(crate) fn update_of(
    alloc: Global,
    token: Bytes,
    body: &[u8],
) -> Result<Option<UpdateBody>, NoMemory>
    ensures { IfOk result (λ o. o ≡ update_of token body.now) }
{
    match value_of(alloc, body)? {
        Some(value) => update_of_value(alloc, token, &value),
        None => Ok(None),
    }
}

/// The times in the body of a trash.
#[tactic(auto, unfolding(crate::specs::Bodies::times_of))]
pub(crate) fn times_of(alloc: Global, body: &[u8]) -> Result<Option<Times>, NoMemory>
    ensures times { IfOk result (λ o. o ≡ times_of body.now) }
    ensures readings { IfOk result (λ o. IfSome o (λ t. IsReading t.trash_at)) }
{
    match value_of(alloc, body)? {
        Some(value) => Ok(times_of_value(&value)),
        None => Ok(None),
    }
}
