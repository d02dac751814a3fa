// Getting a block.
ghost use Rattle.std.specs.Prelude.{◌≡◌, ◌≤◌, true, length, bytes_eq, IfOk, IfErr};
ghost use Rattle.md5.specs.Md5.{md5};
ghost use Rattle.keep_spec.specs.Causes.{Rose};
ghost use Rattle.keep_spec.specs.Locator.{digest, is_locator};
ghost use Rattle.keep_client.specs.Answers.{servers_for, get_request, ButForMemory, Asks, IsGot, IsGetAnswer, BlamesLink};
ghost use Rattle.keep_client.specs.Tallies.{IsHeard};

use crate::error::ClientError;
use crate::exchange::exchange;
use crate::link::{Link, Standing};
use crate::requests::{get_request, servers_for};
use crate::said::Said;
use keep_config::Config;
use keep_locator::Locator;
use keep_spec::{Bytes, Digest};
use keep_wire::Response;
use md5::Md5;
use std::alloc::Global;

/// Asks servers for the block of a locator, in the order of their weights for it, until one answers 200 with bytes that have the locator's digest. The size that the locator states isn't looked at.
///
/// A token that isn't visible ASCII is sent as none. `BadLocator` comes exactly where the text isn't a locator, `NotFound` where every server answered 404, and `Unread` where no server gave the block and not all answered 404.
pub fn get_block<L: Link>(
    alloc: Global,
    link: &mut L,
    config: &Config,
    token: &[u8],
    locator: &[u8],
) -> Result<Bytes, ClientError>
    ensures bytes { IfOk result (λ b. md5 b ≡ digest locator.now) }
    ensures answer { IsGetAnswer config.now token.now locator.now (L.told link.old) (L.told link.new) result }
    ensures closed { L.standing link.old ≡ Standing.Closed → L.standing link.new ≡ Standing.Closed }
    ensures never_falls { L.faults link.old ≤ L.faults link.new }
    ensures cause { IfErr result (λ e. BlamesLink e → Rose (L.faults link.old) (L.faults link.new)) }
{
    match Locator::read(locator) {
        Ok(name) => get_named(alloc, link, config, token, locator, &name.digest()),
        Err(bad) => Err(ClientError::BadLocator { at: bad.at }),
    }
}

fn get_named<L: Link>(
    alloc: Global,
    link: &mut L,
    config: &Config,
    token: &[u8],
    locator: &[u8],
    block: &Digest,
) -> Result<Bytes, ClientError>
    requires named { block.now ≡ digest locator.now }
    requires locator { is_locator locator.now ≡ true }
    ensures bytes { IfOk result (λ b. md5 b ≡ block.now) }
    ensures answer { ButForMemory result (Asks (servers_for config.now block.now) (get_request token.now locator.now) (L.told link.old) (L.told link.new) (λ said. IsGot block.now (length (servers_for config.now block.now)) said result)) }
    ensures closed { L.standing link.old ≡ Standing.Closed → L.standing link.new ≡ Standing.Closed }
    ensures never_falls { L.faults link.old ≤ L.faults link.new }
    ensures cause { IfErr result (λ e. BlamesLink e → Rose (L.faults link.old) (L.faults link.new)) }
{
    let servers = servers_for(alloc, config, block)?;
    let request = get_request(alloc, token, locator)?;
    ask_each(alloc, link, &servers, request.as_slice(), block)
}

// Asks servers one after another, until one gives the block.
fn ask_each<L: Link>(
    alloc: Global,
    link: &mut L,
    servers: &[u32],
    request: &[u8],
    block: &Digest,
) -> Result<Bytes, ClientError>
    ensures bytes { IfOk result (λ b. md5 b ≡ block.now) }
    ensures answer { ButForMemory result (Asks servers.now request.now (L.told link.old) (L.told link.new) (λ said. IsGot block.now (length servers.now) said result)) }
    ensures closed { L.standing link.old ≡ Standing.Closed → L.standing link.new ≡ Standing.Closed }
    ensures never_falls { L.faults link.old ≤ L.faults link.new }
    ensures cause { IfErr result (λ e. BlamesLink e → Rose (L.faults link.old) (L.faults link.new)) }
{
    let mut misses = Misses::new();
    for server in servers {
        let said = match exchange(alloc, link, *server, request) {
            Ok(said) => said,
            Err(_) => return Err(ClientError::NoMemory),
        };
        match heard(block, said) {
            Ok(bytes) => return Ok(bytes),
            Err(miss) => misses.count(miss),
        }
    }
    Err(misses.error())
}

// Why a server hasn't given a block.
#[derive(Clone, Copy, Debug, PartialEq, Eq)]
enum Miss {
    Missing,
    Wrong,
    Failed,
    Refused,
}

// The block that a server gave, or why it gave none.
fn heard(digest: &Digest, said: Said) -> Result<Bytes, Miss>
    ensures { IsHeard digest.now said result }
{
    match said {
        Said::Failed => Err(Miss::Failed),
        Said::Broken => Err(Miss::Wrong),
        Said::Answered(response) => answered(digest, response),
    }
}

fn answered(digest: &Digest, response: Response) -> Result<Bytes, Miss>
    ensures { IsHeard digest.now (Said.Answered response) result }
{
    let Response { status, body } = response;
    match status {
        200 if has_digest(body.as_slice(), digest) => Ok(body),
        200 => Err(Miss::Wrong),
        404 => Err(Miss::Missing),
        _ => Err(Miss::Refused),
    }
}

fn has_digest(bytes: &[u8], digest: &Digest) -> bool
    ensures { result ≡ bytes_eq (md5 bytes.now) digest.now }
{
    Digest::of_md5(<Md5 as md5::Digest>::digest(bytes)) == *digest
}

// How many of the servers that gave no block did so for which cause; those that lack it aren't counted.
#[derive(Clone, Copy)]
struct Misses {
    wrong: usize,
    failed: usize,
    refused: usize,
}

impl Misses {
    ghost use Rattle.std.specs.Prelude.{◌≡◌, ◌<◌, ◌-◌, ◌^◌};
    ghost use Rattle.keep_client.specs.Tallies.{with_miss, error_of};

    fn new() -> Misses
        ensures { result ≡ record { wrong = 0; failed = 0; refused = 0 } }
    {
        Misses {
            wrong: 0,
            failed: 0,
            refused: 0,
        }
    }

    fn count(&mut self, miss: Miss)
        requires wrong { self.old.wrong < 2 ^ 64 - 1 }
        requires failed { self.old.failed < 2 ^ 64 - 1 }
        requires refused { self.old.refused < 2 ^ 64 - 1 }
        ensures { self.new ≡ with_miss self.old miss }
    {
        match miss {
            Miss::Missing => (),
            Miss::Wrong => self.wrong += 1,
            Miss::Failed => self.failed += 1,
            Miss::Refused => self.refused += 1,
        }
    }

    // What it comes to where all servers were asked.
    fn error(&self) -> ClientError
        ensures { result ≡ error_of self.now }
    {
        if self.wrong == 0 && self.failed == 0 && self.refused == 0 {
            return ClientError::NotFound;
        }
        ClientError::Unread {
            wrong: self.wrong,
            failed: self.failed,
            refused: self.refused,
        }
    }
}
