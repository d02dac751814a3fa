// The digests that held versions of collections name, by what was saved, updated, trashed, restored and swept. An event costs a few look-ups and a walk over its own
// collection's versions: a sweep is only noted, and a collection's versions go through the sweeps since they were last looked at when they are looked at again.
ghost use Rattle.std.specs.Prelude.{◌≡◌, ◌↔◌, ◌+◌, ◌++◌, ◌∷◌, [], ℕ, List, false, reverse, flat_map, IfOk, OnOk, if◌then◌else◌, ◌==◌, Some, All};
ghost use Rattle.std.specs.BTreeMap.{get};
ghost use Rattle.std.specs.Ordering.{nat_cmp};
ghost use Rattle.keep_spec.specs.Members.{IsIn};
ghost use Rattle.keep_spec.specs.Times.{grace};
ghost use Rattle.keep_event.specs.Requests.{digests_of};
ghost use Rattle.keep_safety.specs.Rows.{refs, is_over};
ghost use Rattle.keep_core.specs.Seen.{superseded, updated, change_of, last_sweep, begins_by, swept_by, passed, was_past, was_over, outlives_by, tracked_of, left, named_where, named_left, with_made, made_after, tracked_after, sweep_after};

use crate::digests::digests_of;
use keep_config::Config;
use keep_event::{Answer, Event, Query, SaveRequest, TableAnswer, TableQuery};
use keep_safety::Superseded;
use keep_spec::{Digest, Items, NoMemory};
use std::alloc::Global;
use std::collections::BTreeMap;
use std::ops::Bound;

/// A version of a collection, with the digests that it names.
#[derive(Drop, Debug)]
pub struct Version {
    /// The collection's number.
    pub collection: u64,
    pub superseded: Option<Superseded>,
    pub named: Items<Digest>,
}

/// What is kept of a collection.
#[derive(Drop, Debug)]
pub struct Tracked {
    /// Its versions after the first `events` events; sweeps since then haven't been applied to them.
    pub versions: Items<Version>,
    pub events: u64,
    /// The time above which a sweep removes it, in nanoseconds since 1970.
    pub delete_at: Option<u64>,
}

/// What an event changes of the versions that are held.
#[derive(Drop, Debug)]
pub enum Change {
    Nothing,
    /// A new version of a collection. An update supersedes the one before, which is preserved where `superseding` says so.
    Made {
        collection: u64,
        superseding: Option<bool>,
        named: Items<Digest>,
    },
    Swept,
    /// The time above which a sweep removes a collection.
    Timed {
        collection: u64,
        delete_at: Option<u64>,
    },
}

/// What is known after some events.
#[derive(Drop, Debug)]
pub struct Held {
    pub collections: BTreeMap<u64, Tracked>,
    /// Sweeps by their readings, each with the number of events up to it; a later sweep at a reading as great or greater takes its place.
    pub sweeps: BTreeMap<u128, u64>,
}

// ---- sweeps

// How many events there were up to the latest sweep at a reading above a time; 0 where there was none.
fn last_sweep(sweeps: &BTreeMap<u128, u64>, time: u128) -> u64
    ensures { result ≡ last_sweep time sweeps.now.entries }
{
    let mut later = sweeps.range((Bound::Excluded(time), Bound::Unbounded));
    match later.next() {
        Some((_, events)) => *events,
        None => 0,
    }
}

fn begins_by(sweeps: &BTreeMap<u128, u64>, reading: u128) -> bool
    ensures { result ≡ begins_by reading sweeps.now.entries }
{
    match sweeps.first_key_value() {
        Some((first, _)) => *first <= reading,
        None => false,
    }
}

fn note_sweep(sweeps: &mut BTreeMap<u128, u64>, reading: u128, events: u64) -> Result<(), NoMemory>
    ensures { OnOk result ((t : ℕ) → last_sweep t sweeps.new.entries ≡ swept_by reading events t (last_sweep t sweeps.old.entries)) }
{
    while begins_by(sweeps, reading) {
        sweeps.pop_first();
    }
    match sweeps.insert(reading, events) {
        Ok(_) => Ok(()),
        Err(_) => Err(NoMemory),
    }
}

// Whether a sweep after so many events was at a reading above a time.
fn has_passed(sweeps: &BTreeMap<u128, u64>, events: u64, time: u128) -> bool
    ensures { result ≡ passed events (λ t. last_sweep t sweeps.now.entries) time }
{
    events < last_sweep(sweeps, time)
}

fn was_past(sweeps: &BTreeMap<u128, u64>, events: u64, at: Option<u64>) -> bool
    ensures { result ≡ was_past (passed events (λ t. last_sweep t sweeps.now.entries)) at }
{
    match at {
        None => false,
        Some(at) => has_passed(sweeps, events, u128::from(at)),
    }
}

// When a version that was superseded goes, in nanoseconds since 1970: at a reading above this.
fn end_of(config: &Config, superseded: Superseded) -> u128
    ensures { result ≡ superseded.at + grace config.now.ttl config.now.skew }
{
    u128::from(superseded.at) + u128::from(config.grace_nanos())
}

fn was_over(
    config: &Config,
    sweeps: &BTreeMap<u128, u64>,
    events: u64,
    superseded: Option<Superseded>,
) -> bool
    ensures { result ≡ was_over config.now (passed events (λ t. last_sweep t sweeps.now.entries)) superseded }
{
    match superseded {
        None => false,
        Some(by) => !by.preserved && has_passed(sweeps, events, end_of(config, by)),
    }
}

// Whether a version is left by the sweeps after so many events.
fn outlives(
    config: &Config,
    sweeps: &BTreeMap<u128, u64>,
    events: u64,
    delete_at: Option<u64>,
    superseded: Option<Superseded>,
) -> bool
    ensures { result ≡ outlives_by config.now (passed events (λ t. last_sweep t sweeps.now.entries)) delete_at superseded }
{
    !was_past(sweeps, events, delete_at) && !was_over(config, sweeps, events, superseded)
}

// The versions that the sweeps since have left.
fn left(
    alloc: Global,
    config: &Config,
    sweeps: &BTreeMap<u128, u64>,
    tracked: Tracked,
) -> Result<Vec<Version>, NoMemory>
    ensures { IfOk result (λ v. v.items ≡ left config.now (λ t. last_sweep t sweeps.now.entries) tracked) }
{
    let Tracked {
        versions,
        events,
        delete_at,
    } = tracked;
    let mut left = Vec::new(alloc);
    for version in versions.into_vec() {
        let stays = outlives(config, sweeps, events, delete_at, version.superseded);
        if stays && left.push(version).is_err() {
            return Err(NoMemory);
        }
    }
    Ok(left)
}

// ---- the versions of a collection

// Whether a version goes at an update's reading: it isn't preserved, and was superseded longer ago than the grace.
fn is_over(config: &Config, reading: u64, superseded: Option<Superseded>) -> bool
    ensures { result ≡ is_over config.now reading superseded }
{
    match superseded {
        None => false,
        Some(by) => !by.preserved && end_of(config, by) < u128::from(reading),
    }
}

// A version after an update of a collection.
fn after_update(version: Version, collection: u64, reading: u64, preserved: bool) -> Version
    ensures { result ≡ superseded collection reading preserved version }
{
    if version.collection == collection && version.superseded.is_none() {
        let by = Superseded {
            at: reading,
            preserved,
        };
        return Version {
            superseded: Some(by),
            ..version
        };
    }
    version
}

// The versions after an update of a collection, but for the one that it makes.
fn updated(
    alloc: Global,
    config: &Config,
    reading: u64,
    collection: u64,
    preserved: bool,
    versions: Vec<Version>,
) -> Result<Vec<Version>, NoMemory>
    ensures { IfOk result (λ v. v.items ≡ updated config.now reading collection preserved versions.items) }
{
    let mut kept = Vec::new(alloc);
    for version in versions {
        let goes = version.collection == collection && is_over(config, reading, version.superseded);
        if !goes {
            let version = after_update(version, collection, reading, preserved);
            if kept.push(version).is_err() {
                return Err(NoMemory);
            }
        }
    }
    Ok(kept)
}

fn with_new(versions: Vec<Version>, new: Version) -> Result<Vec<Version>, NoMemory>
    ensures { IfOk result (λ v. v.items ≡ versions.items ++ new ∷ []) }
{
    let mut versions = versions;
    match versions.push(new) {
        Ok(()) => Ok(versions),
        Err(_) => Err(NoMemory),
    }
}

// The versions of a collection and a new one, which an update puts in the place of the one before.
fn with_made(
    alloc: Global,
    config: &Config,
    reading: u64,
    new: Version,
    superseding: Option<bool>,
    versions: Vec<Version>,
) -> Result<Vec<Version>, NoMemory>
    ensures { IfOk result (λ v. v.items ≡ with_made config.now reading new superseding versions.items) }
{
    match superseding {
        None => with_new(versions, new),
        Some(preserved) => {
            let kept = updated(alloc, config, reading, new.collection, preserved, versions)?;
            with_new(kept, new)
        }
    }
}

// ---- what an event changes

fn change_of(alloc: Global, event: &Event) -> Result<Change, NoMemory>
    ensures { IfOk result (λ change. change ≡ change_of event.now.query event.now.answer) }
{
    let Query::Table(query) = &event.query else {
        return Ok(Change::Nothing);
    };
    let Answer::Table(answer) = &event.answer else {
        return Ok(Change::Nothing);
    };
    change_by(alloc, query, answer)
}

// The same of an event of the table.
fn change_by(alloc: Global, query: &TableQuery, answer: &TableAnswer) -> Result<Change, NoMemory>
    ensures { IfOk result (λ change. change ≡ change_of (Query.Table query.now) (Answer.Table answer.now)) }
{
    match query {
        TableQuery::Save { request } => match answer {
            TableAnswer::Saved { number, .. } => made(alloc, *number, None, request),
            _ => Ok(Change::Nothing),
        },
        TableQuery::Update {
            preserve,
            request,
            ..
        } => match answer {
            TableAnswer::Updated { number, .. } => made(alloc, *number, Some(*preserve), request),
            _ => Ok(Change::Nothing),
        },
        TableQuery::SetTrash { collection, .. } => match answer {
            TableAnswer::TrashSet { delete_at, .. } => Ok(timed(*collection, Some(*delete_at))),
            _ => Ok(Change::Nothing),
        },
        TableQuery::Restore { collection, .. } => match answer {
            TableAnswer::Restored => Ok(timed(*collection, None)),
            _ => Ok(Change::Nothing),
        },
        TableQuery::Sweep => match answer {
            TableAnswer::Swept { .. } => Ok(Change::Swept),
            _ => Ok(Change::Nothing),
        },
        _ => Ok(Change::Nothing),
    }
}

fn timed(collection: u64, delete_at: Option<u64>) -> Change
    ensures { result ≡ Change.Timed collection delete_at }
{
    Change::Timed {
        collection,
        delete_at,
    }
}

fn made(
    alloc: Global,
    collection: u64,
    superseding: Option<bool>,
    request: &SaveRequest,
) -> Result<Change, NoMemory>
    ensures { IfOk result (λ change. change ≡ Change.Made collection superseding (digests_of request.now.text)) }
{
    let named = digests_of(alloc, request.text.as_slice())?;
    Ok(Change::Made {
        collection,
        superseding,
        named: Items::of(named),
    })
}

// ---- collections

// Takes out what is kept of a collection.
fn take_tracked(alloc: Global, collections: &mut BTreeMap<u64, Tracked>, collection: u64) -> Tracked
    ensures taken { result ≡ tracked_of (get nat_cmp collections.old collection) }
    ensures others { (n : ℕ) → (collection == n) ≡ false → get nat_cmp collections.new n ≡ get nat_cmp collections.old n }
{
    match collections.remove(&collection) {
        Some(tracked) => tracked,
        None => Tracked {
            versions: Items::of(Vec::new(alloc)),
            events: 0,
            delete_at: None,
        },
    }
}

fn put_tracked(
    collections: &mut BTreeMap<u64, Tracked>,
    collection: u64,
    tracked: Tracked,
) -> Result<(), NoMemory>
    ensures { OnOk result ((n : ℕ) → get nat_cmp collections.new n ≡ (if collection == n then Some tracked else get nat_cmp collections.old n)) }
{
    match collections.insert(collection, tracked) {
        Ok(_) => Ok(()),
        Err(_) => Err(NoMemory),
    }
}

// Notes a new version of a collection.
fn note_made(
    alloc: Global,
    config: &Config,
    reading: u64,
    events: u64,
    new: Version,
    superseding: Option<bool>,
    held: &mut Held,
) -> Result<(), NoMemory>
    ensures collections { OnOk result ((n : ℕ) → tracked_of (get nat_cmp held.new.collections n)
        ≡ made_after config.now (λ t. last_sweep t held.old.sweeps.entries) reading events new superseding n (tracked_of (get nat_cmp held.old.collections n))) }
    ensures sweeps { OnOk result (held.new.sweeps.entries ≡ held.old.sweeps.entries) }
{
    let collection = new.collection;
    let tracked = take_tracked(alloc, &mut held.collections, collection);
    let delete_at = tracked.delete_at;
    let left = left(alloc, config, &held.sweeps, tracked)?;
    let versions = with_made(alloc, config, reading, new, superseding, left)?;
    let tracked = Tracked {
        versions: Items::of(versions),
        events,
        delete_at,
    };
    put_tracked(&mut held.collections, collection, tracked)
}

// Notes the time above which a collection goes.
fn note_time(
    alloc: Global,
    config: &Config,
    events: u64,
    collection: u64,
    delete_at: Option<u64>,
    held: &mut Held,
) -> Result<(), NoMemory>
    ensures collections { OnOk result ((n : ℕ) → tracked_of (get nat_cmp held.new.collections n)
        ≡ tracked_after config.now (λ t. last_sweep t held.old.sweeps.entries) 0 events (Change.Timed collection delete_at) n (tracked_of (get nat_cmp held.old.collections n))) }
    ensures sweeps { OnOk result (held.new.sweeps.entries ≡ held.old.sweeps.entries) }
{
    let tracked = take_tracked(alloc, &mut held.collections, collection);
    let versions = left(alloc, config, &held.sweeps, tracked)?;
    let tracked = Tracked {
        versions: Items::of(versions),
        events,
        delete_at,
    };
    put_tracked(&mut held.collections, collection, tracked)
}

// Notes what an event changes, by its reading and the number of events up to it.
fn note(
    alloc: Global,
    config: &Config,
    reading: u64,
    events: u64,
    change: Change,
    held: &mut Held,
) -> Result<(), NoMemory>
    ensures collections { OnOk result ((n : ℕ) → tracked_of (get nat_cmp held.new.collections n)
        ≡ tracked_after config.now (λ t. last_sweep t held.old.sweeps.entries) reading events change n (tracked_of (get nat_cmp held.old.collections n))) }
    ensures sweeps { OnOk result ((t : ℕ) → last_sweep t held.new.sweeps.entries ≡ sweep_after change reading events t (last_sweep t held.old.sweeps.entries)) }
{
    match change {
        Change::Nothing => Ok(()),
        Change::Made {
            collection,
            superseding,
            named,
        } => {
            let new = Version {
                collection,
                superseded: None,
                named,
            };
            note_made(alloc, config, reading, events, new, superseding, held)
        }
        Change::Swept => note_sweep(&mut held.sweeps, u128::from(reading), events),
        Change::Timed {
            collection,
            delete_at,
        } => note_time(alloc, config, events, collection, delete_at, held),
    }
}

fn push_where(stays: bool, more: &[Digest], digests: &mut Vec<Digest>) -> Result<(), NoMemory>
    ensures { OnOk result (digests.new.items ≡ digests.old.items ++ named_where stays more.now) }
{
    if !stays {
        return Ok(());
    }
    match digests.extend_from_slice(more) {
        Ok(()) => Ok(()),
        Err(_) => Err(NoMemory),
    }
}

// Appends the digests that the versions of a collection name.
fn push_named(
    config: &Config,
    sweeps: &BTreeMap<u128, u64>,
    tracked: &Tracked,
    digests: &mut Vec<Digest>,
) -> Result<(), NoMemory>
    ensures { OnOk result (digests.new.items ≡ digests.old.items ++ named_left config.now (λ t. last_sweep t sweeps.now.entries) tracked.now) }
{
    for version in tracked.versions.as_slice() {
        let stays = outlives(
            config,
            sweeps,
            tracked.events,
            tracked.delete_at,
            version.superseded,
        );
        push_where(stays, version.named.as_slice(), digests)?;
    }
    Ok(())
}

// The digests that the versions of all collections name.
fn all_named(alloc: Global, config: &Config, held: &Held) -> Result<Vec<Digest>, NoMemory>
    ensures found { All (λ e. get nat_cmp held.now.collections e.0 ≡ Some e.1) held.now.collections.entries }
    ensures named { IfOk result (λ v. v.items ≡ flat_map (λ e. named_left config.now (λ t. last_sweep t held.now.sweeps.entries) e.1) held.now.collections.entries) }
{
    let mut digests = Vec::new(alloc);
    for (_, tracked) in held.collections.iter() {
        push_named(config, &held.sweeps, tracked, &mut digests)?;
    }
    Ok(digests)
}

/// Returns the digests that held versions name after the events, some more than once, in no order.
pub(crate) fn referred(
    alloc: Global,
    config: &Config,
    events: &[Event],
) -> Result<Vec<Digest>, NoMemory>
    ensures { IfOk result (λ v. (h : List ℕ) → IsIn h v.items ↔ IsIn h (refs config.now (reverse events.now))) }
{
    let mut held = Held {
        collections: BTreeMap::new(alloc),
        sweeps: BTreeMap::new(alloc),
    };
    for (index, event) in events.iter().enumerate() {
        let change = change_of(alloc, event)?;
        note(
            alloc,
            config,
            event.reading,
            index as u64 + 1,
            change,
            &mut held,
        )?;
    }
    all_named(alloc, config, &held)
}
