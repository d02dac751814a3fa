// Putting a block.
ghost use Rattle.std.specs.Prelude.{◌≡◌, ◌≤◌, length, IfErr};
ghost use Rattle.std.specs.Io.BufRead.{strip_last};
ghost use Rattle.std.specs.Option.{option_copied};
ghost use Rattle.keep_spec.specs.Causes.{Rose};
ghost use Rattle.keep_client.specs.Answers.{locator_for, acknowledged, ButForMemory, Asks, IsPut, IsPutAnswer, BlamesLink};

use crate::error::ClientError;
use crate::exchange::exchange;
use crate::link::{Link, Standing};
use crate::requests::{put_request, servers_for};
use crate::said::Said;
use keep_config::Config;
use keep_event::Block;
use keep_locator::Locator;
use keep_spec::{Bytes, Items, NoMemory};
use std::alloc::Global;

/// What a put returns.
#[derive(Drop, Debug)]
pub struct PutDone {
    /// The locators by which servers acknowledged the block, in the order in which they did.
    pub locators: Items<Bytes>,
}

/// Asks servers to store a block until `copies` of them have acknowledged it, in the order of their weights for it. A server acknowledges by a 200 whose body is a locator of the block's digest and length, with at most one newline at its end. With 0 copies no server is asked.
///
/// A token that isn't visible ASCII is sent as none. `TooFew` comes exactly where all servers were asked and fewer acknowledged. After `NoMemory` some of them may have stored the block.
pub fn put_block<L: Link>(
    alloc: Global,
    link: &mut L,
    config: &Config,
    token: &[u8],
    block: &Block,
    copies: u32,
) -> Result<PutDone, ClientError>
    ensures answer { IsPutAnswer config.now token.now block.now copies (L.told link.old) (L.told link.new) result }
    ensures closed { L.standing link.old ≡ Standing.Closed → L.standing link.new ≡ Standing.Closed }
    ensures never_falls { L.faults link.old ≤ L.faults link.new }
    ensures cause { IfErr result (λ e. BlamesLink e → Rose (L.faults link.old) (L.faults link.new)) }
{
    let servers = servers_for(alloc, config, &block.digest())?;
    let request = put_request(alloc, token, block)?;
    store_on(
        alloc,
        link,
        &servers,
        request.as_slice(),
        block,
        copies as usize,
    )
}

// Asks servers one after another, until enough have acknowledged the block.
fn store_on<L: Link>(
    alloc: Global,
    link: &mut L,
    servers: &[u32],
    request: &[u8],
    block: &Block,
    copies: usize,
) -> Result<PutDone, ClientError>
    ensures answer { ButForMemory result (Asks servers.now request.now (L.told link.old) (L.told link.new) (λ said. IsPut block.now copies (length servers.now) said result)) }
    ensures closed { L.standing link.old ≡ Standing.Closed → L.standing link.new ≡ Standing.Closed }
    ensures never_falls { L.faults link.old ≤ L.faults link.new }
    ensures cause { IfErr result (λ e. BlamesLink e → Rose (L.faults link.old) (L.faults link.new)) }
{
    let mut tally = Tally::new(alloc);
    for server in servers {
        if tally.acked() == copies {
            return Ok(tally.into_done());
        }
        let said = match exchange(alloc, link, *server, request) {
            Ok(said) => said,
            Err(_) => return Err(ClientError::NoMemory),
        };
        match tally.take(alloc, block, &said) {
            Ok(()) => (),
            Err(_) => return Err(ClientError::NoMemory),
        }
    }
    tally.into_end(copies)
}

// What the servers that were asked to store a block have said.
#[derive(Drop)]
struct Tally {
    locators: Vec<Bytes>,
    failed: usize,
    refused: usize,
}

impl Tally {
    ghost use Rattle.std.specs.Prelude.{◌≡◌, ◌<◌, ◌∷◌, ◌++◌, ◌^◌, ◌-◌, [], ℕ, List, IfOk, OnOk, length, if◌then◌else◌};
    ghost use Rattle.keep_client.specs.declared.said.Said.{Said};
    ghost use Rattle.keep_client.specs.Tallies.{AreTallied, end_of, with_miss_of};

    fn new(alloc: Global) -> Tally
        ensures { (block : List ℕ) → AreTallied block [] result }
    {
        Tally {
            locators: Vec::new(alloc),
            failed: 0,
            refused: 0,
        }
    }

    fn acked(&self) -> usize
        ensures { result ≡ length self.now.locators.items }
    {
        self.locators.len()
    }

    // Counts what one more server has said.
    fn take(&mut self, alloc: Global, block: &Block, said: &Said) -> Result<(), NoMemory>
        requires failed { self.old.failed < 2 ^ 64 - 1 }
        requires refused { self.old.refused < 2 ^ 64 - 1 }
        ensures { OnOk result ((before : List Said) → AreTallied block.now before self.old → AreTallied block.now (before ++ said.now ∷ []) self.new) }
    {
        match acknowledged(block, said) {
            Some(locator) => self.keep(alloc, locator),
            None => {
                self.miss(said);
                Ok(())
            }
        }
    }

    fn keep(&mut self, alloc: Global, locator: &[u8]) -> Result<(), NoMemory>
        ensures { OnOk result ((self.new.locators.items ≡ self.old.locators.items ++ locator.now ∷ []) × (self.new.failed ≡ self.old.failed) × (self.new.refused ≡ self.old.refused)) }
    {
        let copy = Bytes::copy_of(alloc, locator)?;
        match self.locators.push(copy) {
            Ok(()) => Ok(()),
            Err(_) => Err(NoMemory),
        }
    }

    // Counts a server that hasn't acknowledged.
    fn miss(&mut self, said: &Said)
        requires failed { self.old.failed < 2 ^ 64 - 1 }
        requires refused { self.old.refused < 2 ^ 64 - 1 }
        ensures { self.new ≡ with_miss_of self.old said.now }
    {
        match said {
            Said::Failed => self.failed += 1,
            Said::Broken => self.refused += 1,
            Said::Answered(_) => self.refused += 1,
        }
    }

    fn into_done(self) -> PutDone
        ensures { result.locators ≡ self.locators.items }
    {
        PutDone {
            locators: Items::of(self.locators),
        }
    }

    // What it comes to once all servers were asked.
    fn into_end(self, copies: usize) -> Result<PutDone, ClientError>
        ensures { result ≡ end_of self copies }
    {
        if self.locators.len() == copies {
            return Ok(self.into_done());
        }
        Err(ClientError::TooFew {
            acked: self.locators.len(),
            failed: self.failed,
            refused: self.refused,
        })
    }
}

fn without_newline(text: &[u8]) -> &[u8]
    ensures { result.now ≡ strip_last 10 text.now }
{
    if text.ends_with(b"\n") {
        &text[..text.len() - 1]
    } else {
        text
    }
}

// The text, where it is a locator of the block's digest and length.
fn locator_for<'a>(block: &Block, text: &'a [u8]) -> Option<&'a [u8]>
    ensures { option_copied result ≡ locator_for block.now text.now }
{
    let Ok(locator) = Locator::read(text) else {
        return None;
    };
    if locator.digest() == block.digest() && locator.size() == block.bytes().len() as u64 {
        Some(text)
    } else {
        None
    }
}

// The locator by which a server acknowledges the block.
fn acknowledged<'a>(block: &Block, said: &'a Said) -> Option<&'a [u8]>
    ensures { option_copied result ≡ acknowledged block.now said.now }
{
    match said {
        Said::Failed => None,
        Said::Broken => None,
        Said::Answered(response) => {
            if response.status == 200 {
                locator_for(block, without_newline(response.body.as_slice()))
            } else {
                None
            }
        }
    }
}
