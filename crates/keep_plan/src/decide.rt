// What is decided of one digest, by its mentions.
ghost use Rattle.std.specs.Prelude.{◌≡◌, ◌||◌, IfOk, List, None, Option, Some, filter, is_some, length, map, slice_set, take};
ghost use Rattle.keep_spec.specs.Members.{numbers_from};
ghost use Rattle.keep_event.specs.Plan.{is_writable};
ghost use Rattle.keep_plan.specs.Mentions.{last_entry, want_at, greatest_want, holding_by, put};
ghost use Rattle.keep_plan.specs.Decided.{Decides, entry_or, size_of_first};

use crate::decision::Decision;
use crate::mentions::{Mention, Place};
use crate::order::device_order;
use keep_config::Config;
use keep_event::Entry;
use keep_spec::{Digest, NoMemory};
use std::alloc::Global;

/// Decides of a digest by all its mentions. Leaves in `entries` the last entry that each device gave of it.
pub fn decide(
    alloc: Global,
    config: &Config,
    digest: Digest,
    mentions: &[Mention],
    entries: &mut [Option<Entry>],
) -> Result<Decision, NoMemory>
    requires { length entries.old ≡ length config.now.devices }
    ensures decided { IfOk result (Decides (holding_by config.now digest mentions.now)) }
    ensures entries { entries.new ≡ map (λ d. last_entry d mentions.now) (numbers_from 0 (length config.now.devices)) }
{
    let want = note(entries, mentions);
    if want == 0 {
        return Ok(Decision {
            digest,
            want: 0,
            sources: Vec::new(alloc),
            targets: Vec::new(alloc),
            size: 0,
        });
    }
    let order = device_order(alloc, config, digest)?;
    let sources = holders(alloc, &order, entries)?;
    let mut targets = may_hold(alloc, config, &order, entries)?;
    targets.truncate(want as usize);
    Ok(Decision {
        digest,
        want: want as usize,
        size: size_of_first(&sources, entries),
        sources,
        targets,
    })
}

/// Fills in the last entry that each device gave, and answers the greatest want.
fn note(entries: &mut [Option<Entry>], mentions: &[Mention]) -> u8
    ensures entries { entries.new ≡ map (λ d. last_entry d mentions.now) (numbers_from 0 (length entries.old)) }
    ensures want { result ≡ greatest_want mentions.now }
{
    entries.fill(None);
    let mut greatest = 0;
    for mention in mentions {
        put(entries, mention);
        greatest = want_of(mention).max(greatest);
    }
    greatest
}

/// Writes the entry of a mention at its device, if there is such a device.
fn put(entries: &mut [Option<Entry>], mention: &Mention)
    ensures { entries.new ≡ put mention.now.digest mention.now.place entries.old }
{
    if let Place::Held {
        device,
        size,
        mtime,
    } = mention.place
    {
        if (device as usize) < entries.len() {
            let digest = mention.digest;
            entries[device as usize] = Some(Entry {
                digest,
                size,
                mtime,
            });
        }
    }
}

fn want_of(mention: &Mention) -> u8
    ensures { result ≡ want_at mention.now.place }
{
    match mention.place {
        Place::Held { .. } => 0,
        Place::Wanted { want } => want,
    }
}

/// The entry of a device; `None` where it gave none or there is no such device.
pub fn entry(entries: &[Option<Entry>], device: u32) -> Option<Entry>
    ensures { result ≡ entry_or entries.now device }
{
    match entries.get(device as usize) {
        None => None,
        Some(entry) => *entry,
    }
}

/// Whether the device takes changes of its replicas.
pub fn is_writable(config: &Config, device: u32) -> bool
    ensures { result ≡ is_writable config.now device }
{
    match config.devices.as_slice().get(device as usize) {
        None => false,
        Some(device) => !device.read_only,
    }
}

/// The devices that gave an entry, in their order.
fn holders(alloc: Global, order: &[u32], entries: &[Option<Entry>]) -> Result<Vec<u32>, NoMemory>
    ensures { IfOk result (λ v. v.items ≡ filter (λ d. is_some (entry_or entries.now d)) order.now) }
{
    let mut holders = Vec::new(alloc);
    for device in order {
        if entry(entries, *device).is_some() && holders.push(*device).is_err() {
            return Err(NoMemory);
        }
    }
    Ok(holders)
}

/// The devices that are writable or gave an entry, in their order.
fn may_hold(
    alloc: Global,
    config: &Config,
    order: &[u32],
    entries: &[Option<Entry>],
) -> Result<Vec<u32>, NoMemory>
    ensures { IfOk result (λ v. v.items ≡ filter (λ d. is_writable config.now d || is_some (entry_or entries.now d)) order.now) }
{
    let mut devices = Vec::new(alloc);
    for device in order {
        let fits = is_writable(config, *device) || entry(entries, *device).is_some();
        if fits && devices.push(*device).is_err() {
            return Err(NoMemory);
        }
    }
    Ok(devices)
}

/// The size that the first of the holders gave, in bytes; 0 where there is none.
fn size_of_first(holders: &[u32], entries: &[Option<Entry>]) -> u64
    ensures { result ≡ size_of_first entries.now holders.now }
{
    match holders.first() {
        None => 0,
        Some(first) => match entry(entries, *first) {
            None => 0,
            Some(entry) => entry.size,
        },
    }
}
