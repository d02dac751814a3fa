// Pull workers.
ghost use Rattle.std.specs.Prelude.{◌≡◌, ◌+◌, ◌<◌, ◌≤◌, ℕ, All, IfOk, IsOk, OnErr, true};
ghost use Rattle.keep_spec.specs.Config.{Configuration};
ghost use Rattle.keep_history.specs.declared.task.Outcome.{Outcome as TheOutcome};
ghost use Rattle.keep_history.specs.Workers.{by_device, fetch_from, fetching_answered, item_done, item_failed, items_max, taking, taking_answered, writing_answered};
ghost use Rattle.keep_workers.specs.Pulls.{IsPullingFew, PullMayAsk, PullMoves, SamePlace, block_in, is_write, known_sources, pulling};

use crate::items::{ITEMS_MAX, one_more};
use keep_config::Config;
use keep_event::{Answer, Block, DeviceAnswer, DeviceQuery, Query, Reply};
use keep_history::Outcome;
use keep_spec::{Digest, NoMemory};
use keep_steps::{Opened, Steps};
use std::alloc::Global;

/// A pull worker: it takes one item after another from its device's list of blocks to pull, fetches the block from a source, and writes it. What it asks says
/// where it is with an item. Only an item's sources and a block's bytes want memory, which the reply has too.
#[derive(Drop)]
pub struct PullWorker {
    alloc: Global,
    device: u32,
    // The number of devices of the configuration.
    devices: usize,
    query: Query,
    // Those that are asked for the block after the one that is asked now.
    sources: Vec<u32>,
    done: u64,
    failed: u64,
    ended: bool,
}

// The block that a source answers, where it isn't too long for one. The bytes are copied only where they are a block.
fn block_in(alloc: Global, answer: &DeviceAnswer) -> Result<Option<Block>, NoMemory>
    ensures { IfOk result (λ b. b ≡ block_in answer.now) }
{
    match answer {
        DeviceAnswer::Block { bytes } => {
            if bytes.len() > Block::MAX_SIZE {
                return Ok(None);
            }
            match Block::of(bytes.duplicate(alloc)?) {
                Ok(block) => Ok(Some(block)),
                Err(_) => Ok(None),
            }
        }
        _ => Ok(None),
    }
}

// Those of some sources that are below the number of devices, in their order.
fn known_sources(alloc: Global, devices: usize, sources: &[u32]) -> Result<Vec<u32>, NoMemory>
    ensures known { IfOk result (λ ds. ds.items ≡ known_sources devices sources.now) }
    ensures below { IfOk result (λ ds. All (λ d. d < devices) ds.items) }
{
    let mut known = Vec::from_slice(alloc, sources)?;
    known.retain(|source| (*source as usize) < devices);
    Ok(known)
}

impl Steps for PullWorker {
    ghost use Rattle.keep_workers.specs.Pulls.{IsPulling, PullMayAsk, is_write};

    ghost query_of = { λ w. w.query };

    ghost has_ended = { λ w. w.ended };

    ghost stands = { IsPulling };

    ghost may_ask = { PullMayAsk };

    ghost sure = { λ w. is_write w.query };

    fn ended(&self) -> bool {
        self.ended
    }

    fn query(&self) -> &Query {
        &self.query
    }

    fn take(&mut self, reply: &Reply) -> Result<Option<Outcome>, NoMemory> {
        let end = self.take_answer(&reply.answer)?;
        self.ended = end.is_some();
        Ok(end)
    }
}

impl PullWorker {
    ghost use Rattle.keep_history.specs.Tasks.{opened};
    ghost use Rattle.keep_history.specs.declared.task.Opening.{Opening as TheOpening};
    ghost use Rattle.keep_steps.specs.Steps.{IsOpened, IsReady};
    ghost use Rattle.std.specs.Prelude.{length};
    ghost use Rattle.keep_history.specs.Workers.{pull_answered};
    ghost use Rattle.keep_history.specs.Workers.{Phase as ThePhase};
    ghost use Rattle.keep_workers.specs.Pulls.{IsInPhase};

    /// Opens a pull worker of a device, by its number in the configuration. It never ends at once.
    pub fn open(alloc: Global, config: &Config, device: u32) -> Opened<PullWorker>
        requires within { device < length config.now.devices }
        ensures opened { (reading : ℕ) → IsOpened (opened config.now (TheOpening.PullWorker device) reading) result (λ w task.
            IsReady (⟦<PullWorker as Steps>⟧.has_ended w) (⟦<PullWorker as Steps>⟧.stands w) (⟦<PullWorker as Steps>⟧.may_ask w) config.now task) }
    {
        Opened::Task(PullWorker {
            alloc,
            device,
            devices: config.devices.len(),
            query: Query::Device(device, DeviceQuery::PullNext),
            sources: Vec::new(alloc),
            done: 0,
            failed: 0,
            ended: false,
        })
    }

    // Takes an answer, and returns the end where it is one.
    fn take_answer(&mut self, answer: &Answer) -> Result<Option<Outcome>, NoMemory>
        ensures moved { IfOk result (λ end. (c : Configuration) → (phase : ThePhase) → IsPullingFew self.old → IsInPhase self.old phase → self.old.devices ≡ length c.devices → PullMoves (by_device (pull_answered c phase) answer.now (pulling phase self.old)) self.new end) }
        ensures stays { IfOk result (λ _. SamePlace self.old self.new) }
        ensures askable { (devices : ℕ) → PullMayAsk self.old devices → PullMayAsk self.new devices }
        ensures sure { is_write self.old.query ≡ true → IsOk result }
        ensures unchanged { OnErr result (self.new ≡ self.old) }
    {
        match answer {
            Answer::Device(answer) => self.take_of_device(answer),
            Answer::Table(_) => Ok(None),
        }
    }

    // Takes a device's answer to what was asked.
    fn take_of_device(&mut self, answer: &DeviceAnswer) -> Result<Option<Outcome>, NoMemory>
        ensures moved { IfOk result (λ end. (c : Configuration) → (phase : ThePhase) → IsPullingFew self.old → IsInPhase self.old phase → self.old.devices ≡ length c.devices → PullMoves (pull_answered c phase answer.now (pulling phase self.old)) self.new end) }
        ensures stays { IfOk result (λ _. SamePlace self.old self.new) }
        ensures askable { (devices : ℕ) → PullMayAsk self.old devices → PullMayAsk self.new devices }
        ensures sure { is_write self.old.query ≡ true → IsOk result }
        ensures unchanged { OnErr result (self.new ≡ self.old) }
    {
        match &self.query {
            Query::Device(_, DeviceQuery::Fetch { digest }) => {
                let digest = *digest;
                self.take_fetched(digest, answer)
            }
            Query::Device(_, DeviceQuery::Write { block: _, token: _ }) => {
                Ok(self.take_written(answer))
            }
            _ => self.take_item(answer),
        }
    }

    // Takes what the device answered where an item was asked for.
    fn take_item(&mut self, answer: &DeviceAnswer) -> Result<Option<Outcome>, NoMemory>
        ensures moved { IfOk result (λ end. (c : Configuration) → IsPullingFew self.old → IsInPhase self.old taking → self.old.devices ≡ length c.devices → PullMoves (taking_answered c answer.now (pulling taking self.old)) self.new end) }
        ensures stays { IfOk result (λ _. SamePlace self.old self.new) }
        ensures askable { (devices : ℕ) → PullMayAsk self.old devices → PullMayAsk self.new devices }
        ensures unchanged { OnErr result (self.new ≡ self.old) }
    {
        match answer {
            DeviceAnswer::Pull { item } => {
                self.sources = known_sources(self.alloc, self.devices, item.sources.as_slice())?;
                Ok(self.fetch_next(item.digest))
            }
            DeviceAnswer::Idle => Ok(Some(self.pulled())),
            _ => Ok(None),
        }
    }

    // Takes what a source answered. Whatever it is in place of a block, the next source is asked.
    fn take_fetched(
        &mut self,
        digest: Digest,
        answer: &DeviceAnswer,
    ) -> Result<Option<Outcome>, NoMemory>
        ensures moved { IfOk result (λ end. (phase : ThePhase) → IsPullingFew self.old → PullMoves (fetching_answered digest self.old.sources.items answer.now (pulling phase self.old)) self.new end) }
        ensures stays { IfOk result (λ _. SamePlace self.old self.new) }
        ensures askable { (devices : ℕ) → PullMayAsk self.old devices → PullMayAsk self.new devices }
        ensures unchanged { OnErr result (self.new ≡ self.old) }
    {
        match block_in(self.alloc, answer)? {
            Some(block) => {
                self.query = Query::Device(self.device, DeviceQuery::Write { block, token: None });
                Ok(None)
            }
            None => Ok(self.fetch_next(digest)),
        }
    }

    // Takes what the device answered to the write.
    fn take_written(&mut self, answer: &DeviceAnswer) -> Option<Outcome>
        ensures moved { (phase : ThePhase) → IsPullingFew self.old → PullMoves (writing_answered answer.now (pulling phase self.old)) self.new result }
        ensures stays { SamePlace self.old self.new }
        ensures askable { (devices : ℕ) → PullMayAsk self.old devices → PullMayAsk self.new devices }
    {
        match answer {
            DeviceAnswer::Written { mtime: _ } => self.item_done(),
            _ => self.item_failed(),
        }
    }

    // Fetches from the first of the sources that are left; where there is none, the item has failed.
    fn fetch_next(&mut self, digest: Digest) -> Option<Outcome>
        ensures moved { (phase : ThePhase) → IsPullingFew self.old → PullMoves (fetch_from digest self.old.sources.items (pulling phase self.old)) self.new result }
        ensures stays { SamePlace self.old self.new }
        ensures askable { (devices : ℕ) → PullMayAsk self.old devices → PullMayAsk self.new devices }
    {
        if self.sources.is_empty() {
            return self.item_failed();
        }
        let source = self.sources.remove(0);
        self.query = Query::Device(source, DeviceQuery::Fetch { digest });
        None
    }

    // The item's block was written.
    fn item_done(&mut self) -> Option<Outcome>
        ensures moved { (phase : ThePhase) → IsPullingFew self.old → PullMoves (item_done (pulling phase self.old)) self.new result }
        ensures stays { SamePlace self.old self.new }
        ensures askable { (devices : ℕ) → PullMayAsk self.old devices → PullMayAsk self.new devices }
    {
        self.done = one_more(self.done);
        self.ask_for_item()
    }

    // The item's block was not written.
    fn item_failed(&mut self) -> Option<Outcome>
        ensures moved { (phase : ThePhase) → IsPullingFew self.old → PullMoves (item_failed (pulling phase self.old)) self.new result }
        ensures stays { SamePlace self.old self.new }
        ensures askable { (devices : ℕ) → PullMayAsk self.old devices → PullMayAsk self.new devices }
    {
        self.failed = one_more(self.failed);
        self.ask_for_item()
    }

    // Asks for the next item; at the greatest number of them it ends.
    fn ask_for_item(&mut self) -> Option<Outcome>
        ensures moved { self.old.done + self.old.failed ≤ items_max → PullMoves (pulling taking self.old) self.new result }
        ensures stays { SamePlace self.old self.new }
        ensures askable { (devices : ℕ) → PullMayAsk self.old devices → PullMayAsk self.new devices }
    {
        self.query = Query::Device(self.device, DeviceQuery::PullNext);
        if self.done.saturating_add(self.failed) < ITEMS_MAX {
            None
        } else {
            Some(self.pulled())
        }
    }

    fn pulled(&self) -> Outcome
        ensures { result ≡ TheOutcome.Pulled self.now.done self.now.failed }
    {
        Outcome::Pulled {
            done: self.done,
            failed: self.failed,
        }
    }
}
