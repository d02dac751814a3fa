// The lists of a device, read.
ghost use Rattle.std.specs.Prelude.{◌≡◌, ◌<◌, ◌+◌, ◌^◌, IfOk, option_map, codes};
ghost use Rattle.serde_json.specs.View.{view, items_view};
ghost use Rattle.keep_spec.specs.Json.{each, list_at};
ghost use Rattle.keep_event.specs.Lists.{device_of_mount, is_mount_of, is_for, locator_at, source_of, trash_item_of, pull_item_of, each_from, array_at, lists_of_items, lists_of_object, lists_of};
ghost use Rattle.keep_lists.specs.Answers.{AreListsRead, AreItemsRead, shown_locator};

use crate::error::ListsError;
use crate::locator::{BareLocator, read_locator};
use keep_config::Config;
use keep_config::json::{has_members, number_at, text_at, value_of};
use keep_event::{Lists, PullItem, TrashItem};
use keep_spec::{Items, NoMemory};
use serde_json::Value;
use std::alloc::Global;

fn is_mount_of(config: &Config, device: u32, uuid: &[u8]) -> bool
    ensures { result ≡ is_mount_of config.now device uuid.now }
{
    config.mounts.as_slice().iter().any(|mount| mount.device == device
        && mount.uuid.as_bytes().as_slice() == uuid)
}

fn device_of_mount(config: &Config, uuid: &[u8]) -> Option<u32>
    ensures { result ≡ device_of_mount config.now uuid.now }
{
    config
        .mounts
        .as_slice()
        .iter()
        .find(|mount| mount.uuid.as_bytes().as_slice() == uuid)
        .map(|mount| mount.device)
}

// Whether an item names one of the device's mounts.
fn is_for(config: &Config, device: u32, value: &Value) -> bool
    ensures { result ≡ is_for config.now device (view value.now) }
{
    match text_at(value, "mount_uuid") {
        Some(uuid) => is_mount_of(config, device, uuid.as_bytes()),
        None => false,
    }
}

fn locator_at(value: &Value) -> Option<BareLocator>
    ensures { option_map shown_locator result ≡ locator_at (view value.now) }
{
    let text = text_at(value, "locator")?;
    read_locator(text.as_bytes())
}

fn source_of(config: &Config, value: &Value) -> Option<u32>
    ensures { result ≡ source_of config.now (view value.now) }
{
    let uuid = value.as_str()?;
    device_of_mount(config, uuid.as_bytes())
}

fn trash_item_of(config: &Config, device: u32, value: &Value) -> Option<TrashItem>
    ensures { result ≡ trash_item_of config.now device (view value.now) }
{
    let mtime = number_at(value, "block_mtime")?;
    let locator = locator_at(value)?;
    if has_members(value, 3) && is_for(config, device, value) {
        Some(TrashItem {
            digest: locator.digest,
            size: locator.size,
            mtime,
        })
    } else {
        None
    }
}

fn sources_of(
    alloc: Global,
    config: &Config,
    values: &[Value],
) -> Result<Option<Items<u32>>, NoMemory>
    ensures { IfOk result (λ o. o ≡ each (source_of config.now) (items_view values.now)) }
{
    let mut sources = Vec::with_capacity(alloc, values.len())?;
    for value in values {
        match source_of(config, value) {
            Some(source) => {
                if sources.push(source).is_err() {
                    return Err(NoMemory);
                }
            }
            None => return Ok(None),
        }
    }
    Ok(Some(Items::of(sources)))
}

fn sources_at(alloc: Global, config: &Config, value: &Value) -> Result<Option<Items<u32>>, NoMemory>
    ensures { IfOk result (λ o. o ≡ list_at (source_of config.now) (codes "servers") (view value.now)) }
{
    match value.get("servers").and_then(Value::as_array) {
        Some(values) => sources_of(alloc, config, values),
        None => Ok(None),
    }
}

fn pull_item_of(
    alloc: Global,
    config: &Config,
    device: u32,
    value: &Value,
) -> Result<Option<PullItem>, NoMemory>
    ensures { IfOk result (λ o. o ≡ pull_item_of config.now device (view value.now)) }
{
    let Some(sources) = sources_at(alloc, config, value)? else {
        return Ok(None);
    };
    let Some(locator) = locator_at(value) else {
        return Ok(None);
    };
    if has_members(value, 3) && is_for(config, device, value) {
        Ok(Some(PullItem {
            digest: locator.digest,
            size: locator.size,
            sources,
        }))
    } else {
        Ok(None)
    }
}

fn trash_items(
    alloc: Global,
    config: &Config,
    device: u32,
    values: &[Value],
) -> Result<Vec<TrashItem>, ListsError>
    ensures { AreItemsRead (each_from 1 (trash_item_of config.now device) (items_view values.now)) result }
{
    let mut items = Vec::with_capacity(alloc, values.len()).map_err(NoMemory::from)?;
    for (place, value) in values.iter().enumerate() {
        match trash_item_of(config, device, value) {
            Some(item) => {
                if items.push(item).is_err() {
                    return Err(ListsError::NoMemory);
                }
            }
            None => {
                return Err(ListsError::BadList {
                    item: place as u64 + 1,
                });
            }
        }
    }
    Ok(items)
}

// Pull items are numbered after the `trash` items.
fn pull_items(
    alloc: Global,
    config: &Config,
    device: u32,
    trash: usize,
    values: &[Value],
) -> Result<Vec<PullItem>, ListsError>
    requires { trash < 2 ^ 63 }
    ensures { AreItemsRead (each_from (trash + 1) (pull_item_of config.now device) (items_view values.now)) result }
{
    let mut items = Vec::with_capacity(alloc, values.len()).map_err(NoMemory::from)?;
    for (place, value) in values.iter().enumerate() {
        match pull_item_of(alloc, config, device, value)? {
            Some(item) => {
                if items.push(item).is_err() {
                    return Err(ListsError::NoMemory);
                }
            }
            None => {
                return Err(ListsError::BadList {
                    item: trash as u64 + place as u64 + 1,
                });
            }
        }
    }
    Ok(items)
}

#[tactic(auto, using(crate::proofs::Steps::items_length_view))]
fn lists_of(
    alloc: Global,
    config: &Config,
    device: u32,
    trash: &[Value],
    pull: &[Value],
) -> Result<Lists, ListsError>
    ensures { AreListsRead (lists_of_items config.now device (items_view trash.now) (items_view pull.now)) result }
{
    let trash_items = trash_items(alloc, config, device, trash)?;
    let pull_items = pull_items(alloc, config, device, trash.len(), pull)?;
    Ok(Lists {
        trash: Items::of(trash_items),
        pull: Items::of(pull_items),
    })
}

fn lists_of_value(
    alloc: Global,
    config: &Config,
    device: u32,
    value: &Value,
) -> Result<Lists, ListsError>
    ensures { AreListsRead (lists_of_object config.now device (view value.now) (array_at (codes "trash") (view value.now)) (array_at (codes "pull") (view value.now))) result }
{
    let Some(trash) = value.get("trash").and_then(Value::as_array) else {
        return Err(ListsError::BadList { item: 0 });
    };
    let Some(pull) = value.get("pull").and_then(Value::as_array) else {
        return Err(ListsError::BadList { item: 0 });
    };
    if has_members(value, 2) {
        lists_of(alloc, config, device, trash, pull)
    } else {
        Err(ListsError::BadList { item: 0 })
    }
}

/// Reads the lists of a device. An object's names may come in any order, and none but those of the form may; a device may be
/// named by any of its mounts. BadList has the number of the first bad item, from 1, trash items first; 0 where the text isn't
/// one object of exactly the two lists.
#[tactic(auto, unfolding(keep_event::specs::Lists::lists_of))]
pub fn read_lists(
    alloc: Global,
    text: &[u8],
    config: &Config,
    device: u32,
) -> Result<Lists, ListsError>
    ensures { AreListsRead (lists_of config.now device text.now) result }
{
    match value_of(alloc, text)? {
        Some(value) => lists_of_value(alloc, config, device, &value),
        None => Err(ListsError::BadList { item: 0 }),
    }
}
