// What an opening makes: a task, or an end at once.
ghost use Rattle.std.specs.Prelude.{◌≡◌, ◌<◌, ℕ, List, IfOk, IsTrue, All, length};
ghost use Rattle.keep_spec.specs.Config.{devices_of};
ghost use Rattle.keep_history.specs.Tasks.{opened, put_opened, get_opened, touch_opened, untrash_opened, on_any, permitted_block, asks_table, by_verdict, has_other_digest, is_read_only, is_task_query, writable};
ghost use Rattle.keep_history.specs.Script.{HasTimes};
ghost use Rattle.keep_event.specs.Requests.{MayAskTable};
ghost use Rattle.keep_history.specs.declared.task.Task.{Task as TheTask};
ghost use Rattle.keep_spec.specs.declared.token.TokenId.{TokenId as TheTokenId};
ghost use Rattle.keep_tasks.specs.Openings.{AsksTable, made};

use crate::uuid::collection_number;
use keep_config::Config;
use keep_event::{Block, TableQuery};
use keep_history::{Opening, Outcome};
use keep_locator::Locator;
use keep_sign::verify;
use keep_spec::{Bytes, Digest, Items, NoMemory, TokenId, Unverified, Verified};
use std::alloc::Global;

fn is_read_only(config: &Config, device: u32) -> bool
    ensures { result ≡ is_read_only config.now device }
{
    match config.devices.as_slice().get(device as usize) {
        Some(device) => device.read_only,
        None => false,
    }
}

// The devices of a server that take changes, each once, in the order of its mounts.
fn writable(alloc: Global, config: &Config, server: u32) -> Result<Items<u32>, NoMemory>
    ensures devices { IfOk result (λ ds. ds ≡ writable config.now server) }
    ensures within { IfOk result (λ ds. All (λ d. d < length config.now.devices) ds) }
{
    let mut devices = config.devices_of(alloc, server)?;
    devices.retain(|device| !is_read_only(config, *device));
    Ok(Items::of(devices))
}

fn has_other_digest(block: &Block, digest: Option<Digest>) -> bool
    ensures { result ≡ has_other_digest block.now digest }
{
    match digest {
        Some(digest) => block.digest() != digest,
        None => false,
    }
}

/// What a put goes on with: its devices, at least one, and its block.
pub(crate) fn put_parts(
    alloc: Global,
    config: &Config,
    server: u32,
    bytes: Bytes,
    digest: Option<Digest>,
) -> Result<Result<(Items<u32>, Block), Outcome>, NoMemory>
    ensures opened { IfOk result (λ r. (id : TheTokenId) → (token : List ℕ) → put_opened config.now server id token bytes digest ≡ made (λ p. TheTask.Put p.0 token id p.1) r) }
    ensures some { IfOk result (λ r. IfOk r (λ p. 0 < length p.0)) }
    ensures within { IfOk result (λ r. IfOk r (λ p. All (λ d. d < length config.now.devices) p.0)) }
{
    let Ok(block) = Block::of(bytes) else {
        return Ok(Err(Outcome::TooLong));
    };
    if has_other_digest(&block, digest) {
        return Ok(Err(Outcome::HashMismatch {
            computed: block.digest(),
        }));
    }
    if block.bytes().is_empty() {
        let locator = Vec::from_slice(alloc, b"d41d8cd98f00b204e9800998ecf8427e+0")?;
        return Ok(Err(Outcome::Stored {
            locator: Bytes::of(locator),
        }));
    }
    let devices = writable(alloc, config, server)?;
    if devices.len() == 0 {
        return Ok(Err(Outcome::NoRoom));
    }
    Ok(Ok((devices, block)))
}

// The digest that a verdict lets a token ask for.
fn by_verdict(verdict: Result<Verified, Unverified>) -> Result<Digest, Outcome>
    ensures { result ≡ by_verdict verdict }
{
    match verdict {
        Ok(verified) => Ok(verified.digest),
        Err(Unverified::Missing) => Err(Outcome::Forbidden),
        Err(Unverified::Expired { expiry }) => Err(Outcome::Expired { expiry }),
        Err(Unverified::Invalid) => Err(Outcome::Forbidden),
    }
}

// The digest that a locator other than the empty block's lets a token ask for.
fn permitted(
    config: &Config,
    id: TokenId,
    token: &[u8],
    locator: &Locator<'_>,
    reading: u64,
) -> Result<Digest, Outcome>
    ensures { result ≡ permitted_block config.now id token.now locator.now reading }
{
    if id.number == 0 {
        return Ok(locator.digest());
    }
    let secret = config.secret.as_slice();
    by_verdict(verify(locator, token, config.ttl, secret, reading))
}

/// What a get goes on with: its devices, at least one, and its digest.
pub(crate) fn get_parts(
    alloc: Global,
    config: &Config,
    server: u32,
    id: TokenId,
    token: &[u8],
    text: &[u8],
    reading: u64,
) -> Result<Result<(Items<u32>, Digest), Outcome>, NoMemory>
    ensures opened { IfOk result (λ r. get_opened config.now server id token.now text.now reading ≡ made (λ p. TheTask.Get p.0 p.1) r) }
    ensures some { IfOk result (λ r. IfOk r (λ p. 0 < length p.0)) }
    ensures within { IfOk result (λ r. IfOk r (λ p. All (λ d. d < length config.now.devices) p.0)) }
{
    let locator = match Locator::read(text) {
        Ok(locator) => locator,
        Err(error) => {
            return Ok(Err(Outcome::BadLocator {
                at: error.at as u64,
            }));
        }
    };
    if locator.is_empty_block() {
        return Ok(Err(Outcome::Bytes {
            bytes: Bytes::of(Vec::new(alloc)),
        }));
    }
    let digest = match permitted(config, id, token, &locator, reading) {
        Ok(digest) => digest,
        Err(outcome) => return Ok(Err(outcome)),
    };
    let devices = Items::of(config.devices_of(alloc, server)?);
    if devices.len() == 0 {
        return Ok(Err(Outcome::NotFound));
    }
    Ok(Ok((devices, digest)))
}

/// What a touch goes on with: its devices, at least one, its digest, and the locator without its hints.
pub(crate) fn touch_parts(
    alloc: Global,
    config: &Config,
    server: u32,
    id: TokenId,
    token: &[u8],
    text: &[u8],
    reading: u64,
) -> Result<Result<(Items<u32>, Digest, Bytes), Outcome>, NoMemory>
    ensures opened { IfOk result (λ r. touch_opened config.now server id token.now text.now reading ≡ made (λ p. TheTask.Touch p.0 token.now id p.1 p.2) r) }
    ensures some { IfOk result (λ r. IfOk r (λ p. 0 < length p.0)) }
    ensures within { IfOk result (λ r. IfOk r (λ p. All (λ d. d < length config.now.devices) p.0)) }
{
    let locator = match Locator::read(text) {
        Ok(locator) => locator,
        Err(error) => {
            return Ok(Err(Outcome::BadLocator {
                at: error.at as u64,
            }));
        }
    };
    let stripped = Bytes::of(Vec::from_slice(alloc, locator.stripped())?);
    if locator.is_empty_block() {
        return Ok(Err(Outcome::Touched { locator: stripped }));
    }
    let digest = match permitted(config, id, token, &locator, reading) {
        Ok(digest) => digest,
        Err(outcome) => return Ok(Err(outcome)),
    };
    let devices = writable(alloc, config, server)?;
    if devices.len() == 0 {
        return Ok(Err(Outcome::NotFound));
    }
    Ok(Ok((devices, digest, stripped)))
}

/// The devices that an untrash goes on with, at least one.
pub(crate) fn untrash_parts(
    alloc: Global,
    config: &Config,
    server: u32,
    id: TokenId,
) -> Result<Result<Items<u32>, Outcome>, NoMemory>
    ensures opened { IfOk result (λ r. (digest : List ℕ) → untrash_opened config.now server id digest ≡ made (λ p. TheTask.Untrash p digest) r) }
    ensures some { IfOk result (λ r. IfOk r (λ p. 0 < length p)) }
    ensures within { IfOk result (λ r. IfOk r (λ p. All (λ d. d < length config.now.devices) p)) }
{
    if id.number != 0 {
        return Ok(Err(Outcome::Forbidden));
    }
    let devices = writable(alloc, config, server)?;
    if devices.len() == 0 {
        return Ok(Err(Outcome::NotFound));
    }
    Ok(Ok(devices))
}

/// The query of an opening that asks the table. Where the times of a trash are readings, it may be asked.
#[tactic(auto, unfolding(keep_history::specs::Tasks::opened))]
pub(crate) fn table_query(config: &Config, opening: Opening) -> TableQuery
    requires { AsksTable opening }
    ensures opened { (reading : ℕ) → opened config.now opening reading ≡ asks_table result }
    ensures task { IsTrue (is_task_query result) }
    ensures askable { HasTimes opening → MayAskTable result }
{
    match opening {
        Opening::Save { request } => TableQuery::Save { request },
        Opening::Update {
            collection,
            preserve,
            request,
        } => TableQuery::Update {
            collection: collection_number(config, collection.as_slice()),
            preserve,
            request,
        },
        Opening::Read {
            token,
            collection,
            version,
        } => TableQuery::Read {
            token,
            collection: collection_number(config, collection.as_slice()),
            version,
        },
        Opening::Trash {
            token,
            collection,
            trash_at,
            delete_at,
        } => TableQuery::SetTrash {
            token,
            collection: collection_number(config, collection.as_slice()),
            trash_at,
            delete_at,
        },
        Opening::Restore { token, collection } => TableQuery::Restore {
            token,
            collection: collection_number(config, collection.as_slice()),
        },
        Opening::Sweep => TableQuery::Sweep,
        _ => unreachable!(),
    }
}
