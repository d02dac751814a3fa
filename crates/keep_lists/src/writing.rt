// The lists of a device, written.
ghost use Rattle.std.specs.Prelude.{◌≡◌, ◌==◌, [], Ok, IfOk, map, find, option_map, string_bytes};
ghost use Rattle.std.specs.Option.{option_map_or};
ghost use Rattle.serde_json.specs.View.{view};
ghost use Rattle.keep_event.specs.Index.{locator_text};
ghost use Rattle.keep_event.specs.Lists.{first_mount, source_data, trash_item_data, pull_item_data, lists_data, lists_text, lists_of};
ghost use Rattle.keep_lists.specs.Writable.{AreWritable};

use hex::encode;
use itoa::Buffer;
use keep_config::Config;
use keep_event::{Lists, PullItem, TrashItem};
use keep_spec::{Bytes, Digest, NoMemory, Uuid};
use serde_json::{Map, Value, put};
use std::alloc::Global;
use std::str;

fn locator_text(alloc: Global, digest: &Digest, size: u64) -> Result<String, NoMemory>
    ensures { IfOk result (λ s. string_bytes s ≡ locator_text digest.now size) }
{
    let mut text = encode(alloc, digest.to_md5().as_slice())?;
    text.push_str("+")?;
    let mut buffer = Buffer::new();
    text.push_str(buffer.format(size))?;
    Ok(text)
}

fn uuid_text(uuid: &Uuid) -> &str
    ensures { result.now ≡ uuid.now }
{
    str::from_utf8(uuid.as_bytes().as_slice()).unwrap()
}

fn mount_of(config: &Config, device: u32) -> Option<Uuid>
    ensures { result ≡ option_map (λ m. m.uuid) (find (λ m. m.device == device) config.now.mounts) }
{
    config
        .mounts
        .as_slice()
        .iter()
        .find(|mount| mount.device == device)
        .map(|mount| mount.uuid)
}

// The UUID of a device's first mount, if it has one.
fn first_mount(config: &Config, device: u32) -> Option<Uuid>
    ensures { option_map_or (λ u. u) result [] ≡ first_mount config.now device }
{
    mount_of(config, device)
}

// A device's name: that of its first mount, or the empty text where it has none.
fn name_of(mount: &Option<Uuid>) -> &str
    ensures { result.now ≡ option_map_or (λ u. u) mount.now [] }
{
    match mount {
        Some(uuid) => uuid_text(uuid),
        None => "",
    }
}

fn trash_item_value(alloc: Global, mount: &str, item: &TrashItem) -> Result<Value, NoMemory>
    ensures { IfOk result (λ v. view v ≡ trash_item_data mount.now item.now) }
{
    let locator = locator_text(alloc, &item.digest, item.size)?;
    let mut members = Map::new(alloc);
    put(&mut members, alloc, "block_mtime", Value::from(item.mtime))?;
    put(&mut members, alloc, "locator", Value::String(locator))?;
    put(
        &mut members,
        alloc,
        "mount_uuid",
        Value::try_from_str(alloc, mount)?,
    )?;
    Ok(Value::Object(members))
}

fn source_values(alloc: Global, config: &Config, sources: &[u32]) -> Result<Vec<Value>, NoMemory>
    ensures { IfOk result (λ v. map view v.items ≡ map (source_data config.now) sources.now) }
{
    let mut values = Vec::with_capacity(alloc, sources.len())?;
    for source in sources {
        let mount = first_mount(config, *source);
        let value = Value::try_from_str(alloc, name_of(&mount))?;
        if values.push(value).is_err() {
            return Err(NoMemory);
        }
    }
    Ok(values)
}

fn pull_item_value(
    alloc: Global,
    config: &Config,
    mount: &str,
    item: &PullItem,
) -> Result<Value, NoMemory>
    ensures { IfOk result (λ v. view v ≡ pull_item_data config.now mount.now item.now) }
{
    let locator = locator_text(alloc, &item.digest, item.size)?;
    let sources = source_values(alloc, config, item.sources.as_slice())?;
    let mut members = Map::new(alloc);
    put(&mut members, alloc, "locator", Value::String(locator))?;
    put(
        &mut members,
        alloc,
        "mount_uuid",
        Value::try_from_str(alloc, mount)?,
    )?;
    put(&mut members, alloc, "servers", Value::Array(sources))?;
    Ok(Value::Object(members))
}

fn trash_values(alloc: Global, mount: &str, items: &[TrashItem]) -> Result<Vec<Value>, NoMemory>
    ensures { IfOk result (λ v. map view v.items ≡ map (trash_item_data mount.now) items.now) }
{
    let mut values = Vec::with_capacity(alloc, items.len())?;
    for item in items {
        let value = trash_item_value(alloc, mount, item)?;
        if values.push(value).is_err() {
            return Err(NoMemory);
        }
    }
    Ok(values)
}

fn pull_values(
    alloc: Global,
    config: &Config,
    mount: &str,
    items: &[PullItem],
) -> Result<Vec<Value>, NoMemory>
    ensures { IfOk result (λ v. map view v.items ≡ map (pull_item_data config.now mount.now) items.now) }
{
    let mut values = Vec::with_capacity(alloc, items.len())?;
    for item in items {
        let value = pull_item_value(alloc, config, mount, item)?;
        if values.push(value).is_err() {
            return Err(NoMemory);
        }
    }
    Ok(values)
}

fn lists_value(
    alloc: Global,
    lists: &Lists,
    config: &Config,
    device: u32,
) -> Result<Value, NoMemory>
    ensures { IfOk result (λ v. view v ≡ lists_data config.now device lists.now) }
{
    let mount = first_mount(config, device);
    let name = name_of(&mount);
    let trash = trash_values(alloc, name, lists.trash.as_slice())?;
    let pull = pull_values(alloc, config, name, lists.pull.as_slice())?;
    let mut members = Map::new(alloc);
    put(&mut members, alloc, "pull", Value::Array(pull))?;
    put(&mut members, alloc, "trash", Value::Array(trash))?;
    Ok(Value::Object(members))
}

/// Writes the lists of a device as one JSON object without spaces, its names in ascending order. The device and each source
/// are named by their first mounts; one that isn't configured gets the empty text for a name. `read_lists` reads the lists again
/// where the device and all sources are configured and sizes are below 10^19.
#[tactic(auto, unfolding(keep_event::specs::Lists::lists_text))]
pub fn write_lists(
    alloc: Global,
    lists: &Lists,
    config: &Config,
    device: u32,
) -> Result<Bytes, NoMemory>
    ensures text { IfOk result (λ b. b ≡ lists_text config.now device lists.now) }
    ensures read_again { IfOk result (λ b. AreWritable config.now device lists.now → lists_of config.now device b ≡ Ok lists.now) }
{
    let value = lists_value(alloc, lists, config, device)?;
    let text = value.to_string(alloc)?;
    Ok(Bytes::of(text.into_bytes()))
}
