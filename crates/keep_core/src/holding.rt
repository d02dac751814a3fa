// Which devices hold a block, by the events alone.
ghost use Rattle.std.specs.Prelude.{◌≡◌, ℕ, List, true, filter, reverse, IfOk, OnOk, if◌then◌else◌};
ghost use Rattle.std.specs.BTreeSet.{contains};
ghost use Rattle.std.specs.Ordering.{nat_cmp};
ghost use Rattle.std.specs.Cmp.Lexicographic.{slice_cmp};
ghost use Rattle.keep_spec.specs.Members.{numbers_from};
ghost use Rattle.keep_core.specs.Unheld.{holders};
ghost use Rattle.keep_safety.specs.Holds.{holds, holds_after, held_after, is_named};
ghost use Rattle.keep_safety.specs.Signatures.{digest_named};

use keep_config::Config;
use keep_event::{Answer, DeviceAnswer, DeviceQuery, Event, Query};
use keep_spec::{Digest, NoMemory};
use std::alloc::Global;
use std::collections::BTreeSet;

/// Returns the devices of the configuration that hold a block after the events, by their numbers, ascending.
pub fn holders(
    alloc: Global,
    config: &Config,
    events: &[Event],
    digest: &Digest,
) -> Result<Vec<u32>, NoMemory>
    ensures { IfOk result (λ v. v.items ≡ holders config.now (reverse events.now) digest.now) }
{
    holders_among(alloc, config.devices.len() as u32, events, digest)
}

// Those of so many devices.
#[tactic(auto, using(crate::proofs::Numbers::filter_next))]
fn holders_among(
    alloc: Global,
    devices: u32,
    events: &[Event],
    digest: &Digest,
) -> Result<Vec<u32>, NoMemory>
    ensures { IfOk result (λ v. v.items ≡ filter (λ d. holds d digest.now (reverse events.now)) (numbers_from 0 devices)) }
{
    let mut found = Vec::new(alloc);
    for device in 0..devices {
        if holds(events, device, digest) && found.push(device).is_err() {
            return Err(NoMemory);
        }
    }
    Ok(found)
}

/// Whether a device, by its number, holds a block after the events.
pub fn holds(events: &[Event], device: u32, digest: &Digest) -> bool
    ensures { result ≡ holds device digest.now (reverse events.now) }
{
    let mut held = false;
    for event in events {
        held = holds_after(event, device, digest, held);
    }
    held
}

fn holds_after(event: &Event, device: u32, digest: &Digest, before: bool) -> bool
    ensures { result ≡ holds_after device digest.now event.now.query event.now.answer before }
{
    let Query::Device(number, query) = &event.query else {
        return before;
    };
    let Answer::Device(answer) = &event.answer else {
        return before;
    };
    if *number != device {
        return before;
    }
    held_after(query, answer, digest, before)
}

fn held_after(query: &DeviceQuery, answer: &DeviceAnswer, digest: &Digest, before: bool) -> bool
    ensures { result ≡ held_after digest.now (digest_named query.now) answer.now before }
{
    match answer {
        DeviceAnswer::Written { .. } | DeviceAnswer::Back { .. } => names(query, digest) || before,
        DeviceAnswer::Trashed {
            digest: trashed,
            ..
        } => digest != trashed && before,
        _ => before,
    }
}

fn names(query: &DeviceQuery, digest: &Digest) -> bool
    ensures { result ≡ is_named digest.now (digest_named query.now) }
{
    match digest_named(query) {
        Some(named) => named == *digest,
        None => false,
    }
}

// The digest that a query names.
fn digest_named(query: &DeviceQuery) -> Option<Digest>
    ensures { result ≡ digest_named query.now }
{
    match query {
        DeviceQuery::CompareTouch { block, .. } | DeviceQuery::Write { block, .. } => {
            Some(block.digest())
        }
        DeviceQuery::Fetch { digest }
        | DeviceQuery::Touch { digest, .. }
        | DeviceQuery::Untrash { digest } => Some(*digest),
        _ => None,
    }
}

/// Returns the digests that a device, by its number, holds after the events.
pub(crate) fn held_by(
    alloc: Global,
    events: &[Event],
    device: u32,
) -> Result<BTreeSet<Digest>, NoMemory>
    ensures { IfOk result (λ s. (h : List ℕ) → contains (slice_cmp nat_cmp) s h ≡ holds device h (reverse events.now)) }
{
    let mut held = BTreeSet::new(alloc);
    for event in events {
        note_held(event, device, &mut held)?;
    }
    Ok(held)
}

// Notes what an event says of the digests that a device holds.
fn note_held(event: &Event, device: u32, held: &mut BTreeSet<Digest>) -> Result<(), NoMemory>
    ensures { OnOk result ((h : List ℕ) → contains (slice_cmp nat_cmp) held.new h ≡ holds_after device h event.now.query event.now.answer (contains (slice_cmp nat_cmp) held.old h)) }
{
    let Query::Device(number, query) = &event.query else {
        return Ok(());
    };
    let Answer::Device(answer) = &event.answer else {
        return Ok(());
    };
    if *number != device {
        return Ok(());
    }
    note_answer(query, answer, held)
}

fn note_answer(
    query: &DeviceQuery,
    answer: &DeviceAnswer,
    held: &mut BTreeSet<Digest>,
) -> Result<(), NoMemory>
    ensures { OnOk result ((h : List ℕ) → contains (slice_cmp nat_cmp) held.new h ≡ held_after h (digest_named query.now) answer.now (contains (slice_cmp nat_cmp) held.old h)) }
{
    match answer {
        DeviceAnswer::Written { .. } => note_named(digest_named(query), held),
        DeviceAnswer::Back { .. } => note_named(digest_named(query), held),
        DeviceAnswer::Trashed { digest, .. } => {
            held.remove(digest);
            Ok(())
        }
        _ => Ok(()),
    }
}

fn note_named(named: Option<Digest>, held: &mut BTreeSet<Digest>) -> Result<(), NoMemory>
    ensures { OnOk result ((h : List ℕ) → contains (slice_cmp nat_cmp) held.new h ≡ (if is_named h named then true else contains (slice_cmp nat_cmp) held.old h)) }
{
    let Some(digest) = named else {
        return Ok(());
    };
    match held.insert(digest) {
        Ok(_) => Ok(()),
        Err(_) => Err(NoMemory),
    }
}
