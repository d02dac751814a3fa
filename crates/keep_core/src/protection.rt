// The digests that held collections and live signatures name.
ghost use Rattle.std.specs.Prelude.{◌≡◌, ◌↔◌, ◌++◌, [], reverse, flat_map, IfOk, OnOk, Contains, if◌then◌else◌};
ghost use Rattle.std.specs.List.Sorted.{IsStrictlySortedBy};
ghost use Rattle.std.specs.Ordering.{nat_cmp};
ghost use Rattle.std.specs.Cmp.Lexicographic.{slice_cmp};
ghost use Rattle.keep_spec.specs.Times.{expiry_at};
ghost use Rattle.keep_core.specs.Seen.{is_live_at, live_of, live_put, live_read, put_digest};
ghost use Rattle.keep_safety.specs.Signatures.{digest_named};
ghost use Rattle.keep_safety.specs.Times.{now};
ghost use Rattle.keep_core.specs.Unheld.{protected_digests};

use crate::digests::digests_of;
use crate::held::referred;
use keep_config::Config;
use keep_event::{Answer, DeviceAnswer, DeviceQuery, Event, Query, TableAnswer, TableQuery};
use keep_spec::{Digest, NANOS_PER_SECOND, NoMemory};
use std::alloc::Global;

/// Returns the digests that held collections and live signatures name after the events, ascending, each once.
///
/// A version is held until an update or a sweep of the events removes it. A signature is live while a reading still to come may accept it: up to its expiry and the skew after the latest reading.
pub fn protected(alloc: Global, config: &Config, events: &[Event]) -> Result<Vec<Digest>, NoMemory>
    ensures { IfOk result (λ v. v.items ≡ protected_digests config.now (reverse events.now)) }
{
    let mut digests = referred(alloc, config, events)?;
    push_signed(alloc, config, latest(events), events, &mut digests)?;
    digests.sort_unstable();
    digests.dedup();
    Ok(digests)
}

fn push_all(digests: &mut Vec<Digest>, more: &[Digest]) -> Result<(), NoMemory>
    ensures { OnOk result (digests.new.items ≡ digests.old.items ++ more.now) }
{
    match digests.extend_from_slice(more) {
        Ok(()) => Ok(()),
        Err(_) => Err(NoMemory),
    }
}

// The greatest reading.
fn latest(events: &[Event]) -> u64
    ensures { result ≡ now (reverse events.now) }
{
    let mut latest = 0;
    for event in events {
        latest = event.reading.max(latest);
    }
    latest
}

// Appends the digests whose signatures are live at a reading.
fn push_signed(
    alloc: Global,
    config: &Config,
    latest: u64,
    events: &[Event],
    digests: &mut Vec<Digest>,
) -> Result<(), NoMemory>
    ensures { OnOk result (digests.new.items ≡ digests.old.items ++ flat_map (live_of config.now latest) events.now) }
{
    for event in events {
        match &event.query {
            Query::Device(_, query) => push_put(config, latest, query, &event.answer, digests)?,
            Query::Table(query) => {
                push_read(alloc, config, latest, query, &event.answer, digests)?
            }
        }
    }
    Ok(())
}

// Whether a signature is live at a reading, by its expiry in seconds.
fn is_live(config: &Config, latest: u64, expiry: u32) -> bool
    ensures { result ≡ is_live_at config.now latest expiry }
{
    let end = (u64::from(expiry) + u64::from(config.skew)) * NANOS_PER_SECOND;
    latest <= end
}

// When what is signed at a time, in nanoseconds since 1970, expires, in seconds.
fn expiry_at(ttl: u32, mtime: u64) -> u32
    ensures { result ≡ expiry_at ttl mtime }
{
    let expiry = mtime / NANOS_PER_SECOND + u64::from(ttl);
    expiry.min(u64::from(u32::MAX)) as u32
}

// The digest that a put, a touch or a comparison names, where it carries a token.
fn put_digest(query: &DeviceQuery) -> Option<Digest>
    ensures { result ≡ put_digest query.now }
{
    match query {
        DeviceQuery::CompareTouch { block, token } | DeviceQuery::Write { block, token } => {
            token.map(|_| block.digest())
        }
        DeviceQuery::Touch { digest, token } => token.map(|_| *digest),
        _ => None,
    }
}

// Appends the digest that an answer of a device signs, where that signature is live.
fn push_put(
    config: &Config,
    latest: u64,
    query: &DeviceQuery,
    answer: &Answer,
    digests: &mut Vec<Digest>,
) -> Result<(), NoMemory>
    ensures { OnOk result (digests.new.items ≡ digests.old.items ++ live_put config.now latest (put_digest query.now) answer.now) }
{
    let Some(digest) = put_digest(query) else {
        return Ok(());
    };
    let Answer::Device(answer) = answer else {
        return Ok(());
    };
    let mtime = match answer {
        DeviceAnswer::Touched { mtime } | DeviceAnswer::Written { mtime } => *mtime,
        _ => return Ok(()),
    };
    if is_live(config, latest, expiry_at(config.ttl, mtime)) && digests.push(digest).is_err() {
        return Err(NoMemory);
    }
    Ok(())
}

// Appends the digests that an answer of the table signs, where their signatures are live.
fn push_read(
    alloc: Global,
    config: &Config,
    latest: u64,
    query: &TableQuery,
    answer: &Answer,
    digests: &mut Vec<Digest>,
) -> Result<(), NoMemory>
    ensures { OnOk result (digests.new.items ≡ digests.old.items ++ live_read config.now latest query.now answer.now) }
{
    let TableQuery::Read { token, .. } = query else {
        return Ok(());
    };
    let Answer::Table(answer) = answer else {
        return Ok(());
    };
    let TableAnswer::Row {
        expiry: Some(expiry),
        text,
        ..
    } = answer
    else {
        return Ok(());
    };
    if config.token(token.as_slice()).is_none() || !is_live(config, latest, *expiry) {
        return Ok(());
    }
    let signed = digests_of(alloc, text.as_slice())?;
    push_all(digests, &signed)
}
