// Untrashes.
ghost use Rattle.std.specs.Prelude.{◌≡◌, ◌<◌, ℕ, All, length, IfOk};
ghost use Rattle.keep_history.specs.declared.task.Task.{Task as TheTask};

use crate::opening::untrash_parts;
use crate::walk::Walk;
use keep_config::Config;
use keep_event::{DeviceQuery, Query, Reply};
use keep_history::Outcome;
use keep_spec::{Digest, Items, NoMemory};
use keep_steps::{Opened, Steps};
use std::alloc::Global;

/// An untrash: it asks each writable device of its server to bring a trashed copy back.
#[derive(Drop)]
pub struct UntrashTask {
    walk: Walk,
    ended: bool,
}

impl Steps for UntrashTask {
    ghost use Rattle.keep_tasks.specs.Kinds.{IsUntrash};
    ghost use Rattle.keep_tasks.specs.Walks.{AreBelow};
    ghost use Rattle.std.specs.Prelude.{true};

    ghost query_of = { λ t. t.walk.query };

    ghost has_ended = { λ t. t.ended };

    ghost stands = { λ t. IsUntrash t.walk };

    ghost may_ask = { λ t n. AreBelow n t.walk };

    ghost sure = { λ t. true };

    fn ended(&self) -> bool {
        self.ended
    }

    fn query(&self) -> &Query {
        &self.walk.query
    }

    fn take(&mut self, reply: &Reply) -> Result<Option<Outcome>, NoMemory> {
        if self.walk.advance(&reply.answer) {
            return Ok(None);
        }
        self.ended = true;
        Ok(Some(self.walk.seen.untrashed()))
    }
}

impl UntrashTask {
    ghost use Rattle.keep_tasks.specs.Kinds.{IsUntrash};
    ghost use Rattle.keep_tasks.specs.Walks.{AreBelow};
    ghost use Rattle.keep_history.specs.Tasks.{next};
    ghost use Rattle.keep_spec.specs.Config.{Configuration};
    ghost use Rattle.std.specs.Prelude.{false, [], ℕ};
    ghost use Rattle.keep_history.specs.Tasks.{opened};
    ghost use Rattle.keep_history.specs.declared.task.Opening.{Opening as TheOpening};
    ghost use Rattle.keep_steps.specs.Steps.{IsOpened, IsReady};

    /// Opens an untrash of a digest, at a server of the configuration. It ends at once with `UnknownToken`, `Forbidden` for a token other than the system's, or
    /// `NotFound` where the server has no writable device, in this order.
    pub fn open(
        alloc: Global,
        config: &Config,
        server: u32,
        token: &[u8],
        digest: Digest,
    ) -> Result<Opened<UntrashTask>, NoMemory>
        requires within { server < length config.now.servers }
        ensures opened { IfOk result (λ o. (reading : ℕ) → IsOpened (opened config.now (TheOpening.Untrash token.now server digest) reading) o (λ t task.
            IsReady (⟦<UntrashTask as Steps>⟧.has_ended t) (⟦<UntrashTask as Steps>⟧.stands t) (⟦<UntrashTask as Steps>⟧.may_ask t) config.now task)) }
    {
        let Some(id) = config.token(token) else {
            return Ok(Opened::Ended(Outcome::UnknownToken));
        };
        match untrash_parts(alloc, config, server, id)? {
            Ok(devices) => Ok(Opened::Task(UntrashTask::begin(devices, digest))),
            Err(outcome) => Ok(Opened::Ended(outcome)),
        }
    }

    /// An untrash of a digest on some devices, at least one.
    pub(crate) fn begin(devices: Items<u32>, digest: Digest) -> UntrashTask
        requires some { 0 < length devices }
        ensures open { result.ended ≡ false }
        ensures stands { (c : Configuration) → IsUntrash result.walk (next c (TheTask.Untrash devices digest)) [] }
        ensures may_ask { (n : ℕ) → All (λ d. d < n) devices → AreBelow n result.walk }
    {
        let Some(walk) = Walk::begin(devices.into_vec(), DeviceQuery::Untrash { digest }) else {
            unreachable!()
        };
        UntrashTask { walk, ended: false }
    }
}
