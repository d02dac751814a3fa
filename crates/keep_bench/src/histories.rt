//! Whether a made history is safe, asked after each of its events. The input is a configuration's line, and then the number of events.
use crate::{print_line, read_config};
use anyhow::Result;
use keep_config::Config;
use keep_core::safe_at;
use keep_event::{
    Answer, Block, DeviceAnswer, DeviceQuery, Event, Query, SaveRequest, TableAnswer, TableQuery,
};
use keep_spec::{Bytes, Digest, Portable, TokenId};
use std::alloc::Global;
use std::str::from_utf8;

const STARTED: u64 = 1_700_000_000_000_000_000;

const SECOND: u64 = 1_000_000_000;

// Events from the put of a block that nobody saves to its trash step, a second each: more than the grace of the configuration, 102 s.
const UNSAVED_FOR: u64 = 111;

// A round of nine events: a sweep or a read, three blocks that are put and saved at once, and a block that nobody saves, which is trashed once its signature is over.
fn event_of(alloc: Global, config: &Config, tick: u64) -> Result<Option<Event>> {
    let asked = match tick % 9 {
        0 => swept_or_read(alloc, tick)?,
        2 | 5 | 8 => saved(alloc, tick)?,
        6 if tick > UNSAVED_FOR => trashed(alloc, config, tick - UNSAVED_FOR)?,
        _ => put(alloc, config, tick)?,
    };
    let Some((query, answer)) = asked else {
        return Ok(None);
    };
    Ok(Some(Event {
        tick,
        reading: reading_at(tick),
        actor: 0,
        query,
        answer,
    }))
}

// A second from event to event.
fn reading_at(tick: u64) -> u64 {
    STARTED.saturating_add(tick.saturating_mul(SECOND))
}

fn block_of(alloc: Global, number: u64) -> Result<Option<Block>> {
    let text = format!(in alloc; "block {number}")?;
    let bytes = Bytes::of(Vec::from_slice(alloc, text.as_bytes())?);
    Ok(Block::of(bytes).ok())
}

// The device that a block is put on.
fn device_of(config: &Config, number: u64) -> u32 {
    let devices = (config.devices.len() as u64).max(1);
    u32::try_from((number / 3) % devices).unwrap_or(0)
}

fn put(alloc: Global, config: &Config, tick: u64) -> Result<Option<(Query, Answer)>> {
    let Some(block) = block_of(alloc, tick)? else {
        return Ok(None);
    };
    let token = Some(TokenId { number: 1 });
    Ok(Some((
        Query::Device(device_of(config, tick), DeviceQuery::Write { block, token }),
        Answer::Device(DeviceAnswer::Written {
            mtime: reading_at(tick),
        }),
    )))
}

fn trashed(alloc: Global, config: &Config, number: u64) -> Result<Option<(Query, Answer)>> {
    let Some(block) = block_of(alloc, number)? else {
        return Ok(None);
    };
    Ok(Some((
        Query::Device(device_of(config, number), DeviceQuery::TrashNext),
        Answer::Device(DeviceAnswer::Trashed {
            digest: block.digest(),
            deadline: u64::MAX,
            round: 1,
        }),
    )))
}

// The collection that an event saves, updates or reads.
fn number_at(tick: u64) -> u64 {
    tick / 6 + 1
}

fn swept_or_read(alloc: Global, tick: u64) -> Result<Option<(Query, Answer)>> {
    if tick % 2 == 1 {
        return read(alloc, tick);
    }
    let answer = TableAnswer::Swept {
        versions: 0,
        collections: 0,
    };
    Ok(Some((Query::Table(TableQuery::Sweep), Answer::Table(answer))))
}

// What the event before saved.
fn read(alloc: Global, tick: u64) -> Result<Option<(Query, Answer)>> {
    let Some(block) = block_of(alloc, tick.saturating_sub(2))? else {
        return Ok(None);
    };
    let query = TableQuery::Read {
        token: Bytes::of(Vec::from_slice(alloc, b"alice")?),
        collection: number_at(tick),
        version: None,
    };
    let answer = TableAnswer::Row {
        number: number_at(tick),
        version: 1,
        expiry: u32::try_from(reading_at(tick) / SECOND + 100).ok(),
        want: 1,
        trash_at: None,
        text: text_of(alloc, &block.digest())?,
    };
    Ok(Some((Query::Table(query), Answer::Table(answer))))
}

fn portable() -> Portable {
    Portable {
        digest: Digest::of_md5([0; 16]),
        size: 0,
    }
}

// The block that was put before, as a new collection, or as a new version of the one that was saved before.
fn saved(alloc: Global, tick: u64) -> Result<Option<(Query, Answer)>> {
    let Some(block) = block_of(alloc, tick.saturating_sub(1))? else {
        return Ok(None);
    };
    let request = request_of(alloc, &block.digest())?;
    let number = number_at(tick);
    let portable = portable();
    if tick % 6 == 2 {
        let answer = TableAnswer::Saved {
            number,
            version: 1,
            portable,
        };
        return Ok(Some((
            Query::Table(TableQuery::Save { request }),
            Answer::Table(answer),
        )));
    }
    let query = TableQuery::Update {
        collection: number,
        preserve: tick % 5 == 0,
        request,
    };
    let answer = TableAnswer::Updated {
        number,
        version: 2,
        portable,
    };
    Ok(Some((Query::Table(query), Answer::Table(answer))))
}

fn text_of(alloc: Global, digest: &Digest) -> Result<Bytes> {
    let mut text = Vec::from_slice(alloc, b". ")?;
    text.extend_from_slice(&digest.write())?;
    text.extend_from_slice(b"+9 0:9:f\n")?;
    Ok(Bytes::of(text))
}

fn request_of(alloc: Global, digest: &Digest) -> Result<SaveRequest> {
    Ok(SaveRequest {
        token: Bytes::of(Vec::from_slice(alloc, b"alice")?),
        text: text_of(alloc, digest)?,
        want: 1,
        portable: None,
    })
}

// After how many of the events the history is safe; none where a block could not be made.
fn count_safe(alloc: Global, config: &Config, count: u64) -> Result<Option<u64>> {
    let mut events = Vec::new(alloc);
    let mut safe: u64 = 0;
    for tick in 0..count {
        let Some(event) = event_of(alloc, config, tick)? else {
            return Ok(None);
        };
        events.push(event)?;
        if safe_at(alloc, config, &events).is_ok() {
            safe = safe.saturating_add(1);
        }
    }
    Ok(Some(safe))
}

fn judge(rt: &HostRuntime, config: &Config, count: u64) -> Result<()> {
    match count_safe(rt.alloc(), config, count)? {
        Some(safe) => Ok(println!(rt; "{safe} of {count} safe")?),
        None => print_line(rt, "no block"),
    }
}

fn count_of(line: &[u8]) -> Option<u64> {
    from_utf8(line).ok()?.trim().parse::<u64>().ok()
}

// Asks after each event of the history that the input describes.
pub fn ask(rt: &HostRuntime, input: &[u8]) -> Result<()> {
    let Some((config, rest)) = read_config(rt.alloc(), input) else {
        return print_line(rt, "no configuration");
    };
    match count_of(rest) {
        Some(count) => judge(rt, &config, count),
        None => print_line(rt, "no number"),
    }
}
