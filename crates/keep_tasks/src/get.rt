// Gets.
ghost use Rattle.std.specs.Prelude.{◌≡◌, ◌<◌, ℕ, All, length, IfOk};
ghost use Rattle.keep_history.specs.Tasks.{fetch_end, on_device};
ghost use Rattle.keep_history.specs.declared.task.Task.{Task as TheTask};

use crate::opening::get_parts;
use crate::walk::Walk;
use keep_config::Config;
use keep_event::{Answer, DeviceAnswer, DeviceQuery, Query, Reply};
use keep_history::Outcome;
use keep_spec::{Digest, Items, NoMemory};
use keep_steps::{Opened, Steps};
use std::alloc::Global;

/// A get: it fetches from each device of its server until one has the block. Only the end `Bytes` wants memory, for the bytes, which the reply has too.
#[derive(Drop)]
pub struct GetTask {
    alloc: Global,
    walk: Walk,
    ended: bool,
}

// How an answer to a fetch ends a get, if it does.
fn fetch_end(alloc: Global, answer: &Answer) -> Result<Option<Outcome>, NoMemory>
    ensures { IfOk result (λ o. o ≡ on_device fetch_end answer.now) }
{
    match answer {
        Answer::Device(DeviceAnswer::Block { bytes }) => Ok(Some(Outcome::Bytes {
            bytes: bytes.duplicate(alloc)?,
        })),
        _ => Ok(None),
    }
}

impl Steps for GetTask {
    ghost use Rattle.keep_tasks.specs.Kinds.{IsGet};
    ghost use Rattle.keep_tasks.specs.Walks.{AreBelow};
    ghost use Rattle.std.specs.Prelude.{false};

    ghost query_of = { λ t. t.walk.query };

    ghost has_ended = { λ t. t.ended };

    ghost stands = { λ t. IsGet t.walk };

    ghost may_ask = { λ t n. AreBelow n t.walk };

    ghost sure = { λ t. false };

    fn ended(&self) -> bool {
        self.ended
    }

    fn query(&self) -> &Query {
        &self.walk.query
    }

    fn take(&mut self, reply: &Reply) -> Result<Option<Outcome>, NoMemory> {
        if let Some(end) = fetch_end(self.alloc, &reply.answer)? {
            self.ended = true;
            return Ok(Some(end));
        }
        if self.walk.advance(&reply.answer) {
            return Ok(None);
        }
        self.ended = true;
        Ok(Some(self.walk.seen.not_fetched()))
    }
}

impl GetTask {
    ghost use Rattle.keep_tasks.specs.Kinds.{IsGet};
    ghost use Rattle.keep_history.specs.Tasks.{next};
    ghost use Rattle.keep_spec.specs.Config.{Configuration};
    ghost use Rattle.std.specs.Prelude.{false, []};
    ghost use Rattle.std.specs.Prelude.{ℕ};
    ghost use Rattle.keep_tasks.specs.Walks.{AreBelow};
    ghost use Rattle.keep_history.specs.Tasks.{opened};
    ghost use Rattle.keep_history.specs.declared.task.Opening.{Opening as TheOpening};
    ghost use Rattle.keep_steps.specs.Steps.{IsOpened, IsReady};

    /// Opens a get of a locator, at a server of the configuration and a reading (nanoseconds since 1970). It ends at once with `UnknownToken`, `BadLocator`,
    /// `Bytes` of the empty block, `Forbidden` or `Expired`, or `NotFound` where the server has no device, in this order.
    pub fn open(
        alloc: Global,
        config: &Config,
        server: u32,
        token: &[u8],
        locator: &[u8],
        reading: u64,
    ) -> Result<Opened<GetTask>, NoMemory>
        requires within { server < length config.now.servers }
        ensures opened { IfOk result (λ o. IsOpened (opened config.now (TheOpening.Get token.now server locator.now) reading) o (λ t task.
            IsReady (⟦<GetTask as Steps>⟧.has_ended t) (⟦<GetTask as Steps>⟧.stands t) (⟦<GetTask as Steps>⟧.may_ask t) config.now task)) }
    {
        let Some(id) = config.token(token) else {
            return Ok(Opened::Ended(Outcome::UnknownToken));
        };
        match get_parts(alloc, config, server, id, token, locator, reading)? {
            Ok((devices, digest)) => Ok(Opened::Task(GetTask::begin(alloc, devices, digest))),
            Err(outcome) => Ok(Opened::Ended(outcome)),
        }
    }

    /// A get of a digest from some devices, at least one.
    pub(crate) fn begin(alloc: Global, devices: Items<u32>, digest: Digest) -> GetTask
        requires some { 0 < length devices }
        ensures open { result.ended ≡ false }
        ensures stands { (c : Configuration) → IsGet result.walk (next c (TheTask.Get devices digest)) [] }
        ensures may_ask { (n : ℕ) → All (λ d. d < n) devices → AreBelow n result.walk }
    {
        let Some(walk) = Walk::begin(devices.into_vec(), DeviceQuery::Fetch { digest }) else {
            unreachable!()
        };
        GetTask {
            alloc,
            walk,
            ended: false,
        }
    }
}
