// Readers of JSON values. Numbers, texts and names are as `serde_json` reads them.
ghost use Rattle.std.specs.Prelude.{◌≡◌, IfOk, map, Option, option_map, bytes_eq};
ghost use Rattle.std.specs.List.{list_any};
ghost use Rattle.serde_json.specs.Data.{Data};
ghost use Rattle.serde_json.specs.Find.{as_str};
ghost use Rattle.serde_json.specs.View.{view, items_view, members_view};
ghost use Rattle.keep_spec.specs.Json.{value_of, text_at, number_at, truth_or, each, list_at, has_members, has_only, all_among, each_has_only, items_have_only};

use keep_spec::{Bytes, Items, NoMemory};
use serde_json::{Map, Value};
use std::alloc::Global;
use std::str;

/// Parses a text as `serde_json` does: of a name that stands twice in an object the last counts. `None` if the text isn't UTF-8 or isn't JSON.
pub fn value_of(alloc: Global, text: &[u8]) -> Result<Option<Value>, NoMemory>
    ensures { IfOk result (λ o. option_map view o ≡ value_of text.now) }
{
    let Ok(text) = str::from_utf8(text) else {
        return Ok(None);
    };
    match Value::from_str(alloc, text) {
        Ok(value) => Ok(Some(value)),
        Err(error) if error.is_memory() => Err(NoMemory),
        Err(_) => Ok(None),
    }
}

/// The text under a name of an object. `None` if the value isn't an object, or has no text there.
pub fn text_at<'a>(value: &'a Value, name: &str) -> Option<&'a str>
    ensures { option_map (λ s. s.now) result ≡ text_at name.now (view value.now) }
{
    value.get(name).and_then(Value::as_str)
}

/// The whole number under a name of an object: digits without point and exponent, below 2^64. `None` if there is none.
pub fn number_at(value: &Value, name: &str) -> Option<u64>
    ensures { result ≡ number_at name.now (view value.now) }
{
    value.get(name).and_then(Value::as_u64)
}

/// The truth value under a name of an object; the default if the name is absent; `None` if the value there is of another kind.
pub fn truth_or(value: &Value, name: &str, default: bool) -> Option<bool>
    ensures { result ≡ truth_or default name.now (view value.now) }
{
    match value.get(name) {
        Some(found) => found.as_bool(),
        None => Some(default),
    }
}

/// Whether the value is an object of `count` members, each name counted once.
#[tactic(auto, using(crate::proofs::Members::members_length_of_view))]
pub fn has_members(value: &Value, count: usize) -> bool
    ensures { result ≡ has_members count (view value.now) }
{
    match value.as_object() {
        Some(members) => members.len() == count,
        None => false,
    }
}

/// Whether every member of an object has one of these names. A value of another kind has no members.
pub fn has_only(value: &Value, names: &[&str]) -> bool
    ensures { result ≡ has_only (map (λ n. n.now) names.now) (view value.now) }
{
    match value.as_object() {
        Some(members) => all_among(members, names),
        None => true,
    }
}

fn all_among(members: &Map<String, Value>, names: &[&str]) -> bool
    ensures { result ≡ all_among (map (λ n. n.now) names.now) (members_view members.now.entries) }
{
    for (name, _) in members {
        if !is_among(name.as_bytes(), names) {
            return false;
        }
    }
    true
}

fn is_among(text: &[u8], names: &[&str]) -> bool
    ensures { result ≡ list_any (bytes_eq text.now) (map (λ n. n.now) names.now) }
{
    for name in names {
        if text == name.as_bytes() {
            return true;
        }
    }
    false
}

/// Whether every member of every object in the list under a name has one of these names.
pub fn each_has_only(value: &Value, name: &str, names: &[&str]) -> bool
    ensures { result ≡ each_has_only (map (λ n. n.now) names.now) name.now (view value.now) }
{
    match value.get(name).and_then(Value::as_array) {
        Some(items) => items_have_only(items, names),
        None => true,
    }
}

fn items_have_only(items: &[Value], names: &[&str]) -> bool
    ensures { result ≡ items_have_only (map (λ n. n.now) names.now) (items_view items.now) }
{
    for item in items {
        if !has_only(item, names) {
            return false;
        }
    }
    true
}

/// A value that can be parsed from a member of a list.
pub trait Member: Sized + Drop {
    /// What a JSON value is parsed as; none if it isn't of the form.
    ghost parsed: { Data → Option Self };

    /// Parses a value. `None` if it isn't of the form.
    fn parse(alloc: Global, value: &Value) -> Result<Option<Self>, NoMemory>
        ensures { IfOk result (λ o. o ≡ parsed (view value.now)) };
}

/// A member that is a text.
impl Member for Bytes {
    ghost parsed = { as_str };

    fn parse(alloc: Global, value: &Value) -> Result<Option<Bytes>, NoMemory> {
        match value.as_str() {
            Some(text) => Ok(Some(Bytes::copy_of(alloc, text.as_bytes())?)),
            None => Ok(None),
        }
    }
}

/// Parses each member of a list, in order. `None` if one isn't of the form.
pub fn each<M: Member>(alloc: Global, items: &[Value]) -> Result<Option<Items<M>>, NoMemory>
    ensures { IfOk result (λ o. o ≡ each M.parsed (items_view items.now)) }
{
    let mut members = Vec::new(alloc);
    for item in items {
        let Some(member) = M::parse(alloc, item)? else {
            return Ok(None);
        };
        if members.push(member).is_err() {
            return Err(NoMemory);
        }
    }
    Ok(Some(Items::of(members)))
}

/// Parses each member of the list under a name, in order. `None` if there is no list, or one of its members isn't of the form.
pub fn list_at<M: Member>(
    alloc: Global,
    value: &Value,
    name: &str,
) -> Result<Option<Items<M>>, NoMemory>
    ensures { IfOk result (λ o. o ≡ list_at M.parsed name.now (view value.now)) }
{
    match value.get(name).and_then(Value::as_array) {
        Some(items) => each(alloc, items),
        None => Ok(None),
    }
}
