// Puts.
ghost use Rattle.std.specs.Prelude.{◌≡◌, ◌<◌, ℕ, List, All, length, IfOk, Some, None};
ghost use Rattle.keep_spec.specs.Config.{Configuration};
ghost use Rattle.keep_history.specs.Tasks.{compare_end, write_end, stored, on_device};
ghost use Rattle.keep_history.specs.declared.task.Task.{Task as TheTask};
ghost use Rattle.keep_tasks.specs.Kinds.{block_text, block_unsigned, as_write, given};

use crate::opening::put_parts;
use crate::unsigned::Unsigned;
use crate::walk::Walk;
use keep_config::Config;
use keep_event::{Answer, Block, DeviceAnswer, DeviceQuery, Query, Reply, TableQuery};
use keep_history::Outcome;
use keep_spec::{Bytes, Digest, Items, NoMemory, TokenId};
use keep_steps::{Opened, Steps};
use std::alloc::Global;
use std::mem;

/// A put: it asks each writable device of its server to compare the block with what it has, and only then one after another to write it, until one holds it.
#[derive(Drop)]
pub struct PutTask {
    walk: Walk,
    /// The devices of the writes, while the devices are asked to compare.
    writes: Option<Items<u32>>,
    locator: Option<Unsigned>,
    ended: bool,
}

// The end `Stored` by a replica's time. The locator is taken.
fn stored(locator: &mut Option<Unsigned>, mtime: u64) -> Option<Outcome>
    ensures end { (c : Configuration) → (token bytes : List ℕ) → locator.old ≡ Some (block_unsigned c token bytes) → result ≡ stored c token bytes mtime }
    ensures kept { result ≡ None → locator.new ≡ locator.old }
{
    let locator = locator.take()?;
    Some(Outcome::Stored {
        locator: locator.sign(mtime),
    })
}

// How an answer to a comparison ends a put, if it does.
fn compare_end(locator: &mut Option<Unsigned>, answer: &Answer) -> Option<Outcome>
    ensures end { (c : Configuration) → (token bytes : List ℕ) → locator.old ≡ Some (block_unsigned c token bytes) → result ≡ on_device (compare_end c token bytes) answer.now }
    ensures kept { result ≡ None → locator.new ≡ locator.old }
{
    match answer {
        Answer::Device(DeviceAnswer::Touched { mtime }) => stored(locator, *mtime),
        Answer::Device(DeviceAnswer::Collision) => Some(Outcome::Collision),
        _ => None,
    }
}

// How an answer to a write ends a put, if it does.
fn write_end(locator: &mut Option<Unsigned>, answer: &Answer) -> Option<Outcome>
    ensures end { (c : Configuration) → (token bytes : List ℕ) → locator.old ≡ Some (block_unsigned c token bytes) → result ≡ on_device (write_end c token bytes) answer.now }
    ensures kept { result ≡ None → locator.new ≡ locator.old }
{
    match answer {
        Answer::Device(DeviceAnswer::Written { mtime }) => stored(locator, *mtime),
        Answer::Device(DeviceAnswer::Collision) => Some(Outcome::Collision),
        _ => None,
    }
}

// The beginning of a block's locator: its digest and its size.
fn block_text(alloc: Global, block: &Block) -> Result<Vec<u8>, NoMemory>
    ensures { IfOk result (λ v. v.items ≡ block_text block.now) }
{
    let mut out = Vec::from_slice(alloc, &block.digest().write())?;
    out.extend_from_slice(b"+")?;
    out.extend_from_slice(block.bytes().len().to_string(alloc)?.as_bytes())?;
    Ok(out)
}

// The query to write what was compared.
fn as_write(query: Query) -> DeviceQuery
    ensures { result ≡ as_write query }
{
    match query {
        Query::Device(_, DeviceQuery::CompareTouch { block, token }) => {
            DeviceQuery::Write { block, token }
        }
        _ => DeviceQuery::Restart,
    }
}

impl Steps for PutTask {
    ghost use Rattle.keep_tasks.specs.Kinds.{IsPut, ArePut};
    ghost use Rattle.std.specs.Prelude.{true};

    ghost query_of = { λ t. t.walk.query };

    ghost has_ended = { λ t. t.ended };

    ghost stands = { λ t. IsPut t.walk t.locator t.writes };

    ghost may_ask = { λ t n. ArePut n t.walk t.writes };

    ghost sure = { λ t. true };

    fn ended(&self) -> bool {
        self.ended
    }

    fn query(&self) -> &Query {
        &self.walk.query
    }

    fn take(&mut self, reply: &Reply) -> Result<Option<Outcome>, NoMemory> {
        let end = self.take_answer(&reply.answer);
        self.ended = end.is_some();
        Ok(end)
    }
}

impl PutTask {
    ghost use Rattle.keep_tasks.specs.Kinds.{IsPut, ArePut, BeginsWrites};
    ghost use Rattle.keep_steps.specs.Steps.{IsTaken};
    ghost use Rattle.keep_history.specs.Next.{Answered, Next};
    ghost use Rattle.keep_history.specs.Tasks.{next};
    ghost use Rattle.std.specs.Prelude.{false, true, [], ◌∷◌, ◌++◌, is_some};
    ghost use Rattle.keep_history.specs.Tasks.{opened};
    ghost use Rattle.keep_history.specs.declared.task.Opening.{Opening as TheOpening};
    ghost use Rattle.keep_steps.specs.Steps.{IsOpened, IsReady};

    /// Opens a put of bytes, at a server of the configuration. It ends at once with `UnknownToken`, `TooLong`, `HashMismatch`, `Stored` of the empty block or
    /// `NoRoom`, in this order.
    pub fn open(
        alloc: Global,
        config: &Config,
        server: u32,
        token: Bytes,
        bytes: Bytes,
        digest: Option<Digest>,
    ) -> Result<Opened<PutTask>, NoMemory>
        requires within { server < length config.now.servers }
        ensures opened { IfOk result (λ o. (reading : ℕ) → IsOpened (opened config.now (TheOpening.Put token server bytes digest) reading) o (λ t task.
            IsReady (⟦<PutTask as Steps>⟧.has_ended t) (⟦<PutTask as Steps>⟧.stands t) (⟦<PutTask as Steps>⟧.may_ask t) config.now task)) }
    {
        let Some(id) = config.token(token.as_slice()) else {
            return Ok(Opened::Ended(Outcome::UnknownToken));
        };
        match put_parts(alloc, config, server, bytes, digest)? {
            Ok((devices, block)) => {
                let task = PutTask::begin(alloc, config, devices, token, id, block)?;
                Ok(Opened::Task(task))
            }
            Err(outcome) => Ok(Opened::Ended(outcome)),
        }
    }

    /// A put of a block on some devices, at least one.
    pub(crate) fn begin(
        alloc: Global,
        config: &Config,
        devices: Items<u32>,
        token: Bytes,
        id: TokenId,
        block: Block,
    ) -> Result<PutTask, NoMemory>
        requires some { 0 < length devices }
        ensures open { IfOk result (λ t. t.ended ≡ false) }
        ensures stands { IfOk result (λ t. IsPut t.walk t.locator t.writes (next config.now (TheTask.Put devices token id block)) []) }
        ensures may_ask { IfOk result (λ t. (n : ℕ) → All (λ d. d < n) devices → ArePut n t.walk t.writes) }
    {
        let digest = block.digest();
        let text = block_text(alloc, &block)?;
        let locator = Unsigned::new(alloc, config, token, digest, text.as_slice())?;
        let compares = Vec::from_slice(alloc, devices.as_slice())?;
        let query = DeviceQuery::CompareTouch {
            block,
            token: Some(id),
        };
        let Some(walk) = Walk::begin(compares, query) else {
            unreachable!()
        };
        Ok(PutTask {
            walk,
            writes: Some(devices),
            locator: Some(locator),
            ended: false,
        })
    }

    // All devices have compared: the first of them is asked to write. Without devices the put ends.
    fn begin_writes(&mut self) -> Option<Outcome>
        ensures begins { BeginsWrites self.old.walk self.old.writes self.new.walk self.new.writes result }
        ensures locator { self.new.locator ≡ self.old.locator }
        ensures may_ask { (n : ℕ) → ArePut n self.old.walk self.old.writes → ArePut n self.new.walk self.new.writes }
    {
        let Some(devices) = self.writes.take() else {
            return Some(Outcome::NoRoom);
        };
        let query = mem::replace(&mut self.walk.query, Query::Table(TableQuery::Sweep));
        match Walk::begin(devices.into_vec(), as_write(query)) {
            Some(walk) => {
                self.walk = walk;
                None
            }
            None => Some(Outcome::NoRoom),
        }
    }

    // Takes the answer to a comparison or to a write.
    fn take_answer(&mut self, answer: &Answer) -> Option<Outcome>
        ensures taken { (tick : ℕ) → (next : List Answered → Next) → (answers : List Answered) → IsPut self.old.walk self.old.locator self.old.writes next answers → IsTaken next (answers ++ given tick answer.now ∷ []) result (IsPut self.new.walk self.new.locator self.new.writes next) }
        ensures may_ask { (n : ℕ) → ArePut n self.old.walk self.old.writes → ArePut n self.new.walk self.new.writes }
    {
        if self.writes.is_some() {
            self.take_compared(answer)
        } else {
            self.take_written(answer)
        }
    }

    // Takes the answer to a comparison.
    fn take_compared(&mut self, answer: &Answer) -> Option<Outcome>
        requires comparing { is_some self.old.writes ≡ true }
        ensures taken { (tick : ℕ) → (next : List Answered → Next) → (answers : List Answered) → IsPut self.old.walk self.old.locator self.old.writes next answers → IsTaken next (answers ++ given tick answer.now ∷ []) result (IsPut self.new.walk self.new.locator self.new.writes next) }
        ensures may_ask { (n : ℕ) → ArePut n self.old.walk self.old.writes → ArePut n self.new.walk self.new.writes }
    {
        if let Some(end) = compare_end(&mut self.locator, answer) {
            return Some(end);
        }
        if self.walk.advance(answer) {
            return None;
        }
        self.begin_writes()
    }

    // Takes the answer to a write.
    fn take_written(&mut self, answer: &Answer) -> Option<Outcome>
        requires writing { is_some self.old.writes ≡ false }
        ensures taken { (tick : ℕ) → (next : List Answered → Next) → (answers : List Answered) → IsPut self.old.walk self.old.locator self.old.writes next answers → IsTaken next (answers ++ given tick answer.now ∷ []) result (IsPut self.new.walk self.new.locator self.new.writes next) }
        ensures may_ask { (n : ℕ) → ArePut n self.old.walk self.old.writes → ArePut n self.new.walk self.new.writes }
    {
        if let Some(end) = write_end(&mut self.locator, answer) {
            return Some(end);
        }
        if self.walk.advance(answer) {
            return None;
        }
        Some(self.walk.seen.not_written())
    }
}
