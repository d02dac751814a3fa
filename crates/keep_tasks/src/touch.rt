// Touches.
ghost use Rattle.std.specs.Prelude.{◌≡◌, ◌<◌, ℕ, List, All, length, IfOk, Some, None};
ghost use Rattle.keep_spec.specs.Config.{Configuration};
ghost use Rattle.keep_history.specs.Tasks.{touch_end, on_device};
ghost use Rattle.keep_history.specs.declared.task.Task.{Task as TheTask};
ghost use Rattle.keep_tasks.specs.Unsigned.{unsigned};

use crate::opening::touch_parts;
use crate::unsigned::Unsigned;
use crate::walk::Walk;
use keep_config::Config;
use keep_event::{Answer, DeviceAnswer, DeviceQuery, Query, Reply};
use keep_history::Outcome;
use keep_spec::{Bytes, Digest, Items, NoMemory, TokenId};
use keep_steps::{Opened, Steps};
use std::alloc::Global;

/// A touch: it renews the replica's time on the first writable device of its server that has the block, and signs the locator by that time.
#[derive(Drop)]
pub struct TouchTask {
    walk: Walk,
    locator: Option<Unsigned>,
    ended: bool,
}

// How an answer to a touch ends it, if it does. Only then the locator is taken.
#[tactic(auto, unfolding(keep_history::specs::Tasks::touched_locator))]
fn touch_end(locator: &mut Option<Unsigned>, answer: &Answer) -> Option<Outcome>
    ensures end { (c : Configuration) → (token digest text : List ℕ) → locator.old ≡ Some (unsigned c token digest text) → result ≡ on_device (touch_end c token digest text) answer.now }
    ensures kept { result ≡ None → locator.new ≡ locator.old }
{
    match answer {
        Answer::Device(DeviceAnswer::Touched { mtime }) => {
            let locator = locator.take()?;
            Some(Outcome::Touched {
                locator: locator.sign(*mtime),
            })
        }
        _ => None,
    }
}

impl Steps for TouchTask {
    ghost use Rattle.keep_tasks.specs.Kinds.{IsTouch};
    ghost use Rattle.keep_tasks.specs.Walks.{AreBelow};
    ghost use Rattle.std.specs.Prelude.{true};

    ghost query_of = { λ t. t.walk.query };

    ghost has_ended = { λ t. t.ended };

    ghost stands = { λ t. IsTouch t.walk t.locator };

    ghost may_ask = { λ t n. AreBelow n t.walk };

    ghost sure = { λ t. true };

    fn ended(&self) -> bool {
        self.ended
    }

    fn query(&self) -> &Query {
        &self.walk.query
    }

    fn take(&mut self, reply: &Reply) -> Result<Option<Outcome>, NoMemory> {
        if let Some(end) = touch_end(&mut self.locator, &reply.answer) {
            self.ended = true;
            return Ok(Some(end));
        }
        if self.walk.advance(&reply.answer) {
            return Ok(None);
        }
        self.ended = true;
        Ok(Some(self.walk.seen.not_touched()))
    }
}

impl TouchTask {
    ghost use Rattle.keep_tasks.specs.Kinds.{IsTouch};
    ghost use Rattle.keep_tasks.specs.Walks.{AreBelow};
    ghost use Rattle.keep_history.specs.Tasks.{next};
    ghost use Rattle.std.specs.Prelude.{false, [], ℕ};
    ghost use Rattle.keep_history.specs.Tasks.{opened};
    ghost use Rattle.keep_history.specs.declared.task.Opening.{Opening as TheOpening};
    ghost use Rattle.keep_steps.specs.Steps.{IsOpened, IsReady};

    /// Opens a touch of a locator, at a server of the configuration and a reading (nanoseconds since 1970). It ends at once as a get does, but with `Touched` of
    /// the empty block, and with `NotFound` where the server has no writable device.
    pub fn open(
        alloc: Global,
        config: &Config,
        server: u32,
        token: Bytes,
        locator: &[u8],
        reading: u64,
    ) -> Result<Opened<TouchTask>, NoMemory>
        requires within { server < length config.now.servers }
        ensures opened { IfOk result (λ o. IsOpened (opened config.now (TheOpening.Touch token server locator.now) reading) o (λ t task.
            IsReady (⟦<TouchTask as Steps>⟧.has_ended t) (⟦<TouchTask as Steps>⟧.stands t) (⟦<TouchTask as Steps>⟧.may_ask t) config.now task)) }
    {
        let Some(id) = config.token(token.as_slice()) else {
            return Ok(Opened::Ended(Outcome::UnknownToken));
        };
        match touch_parts(
            alloc,
            config,
            server,
            id,
            token.as_slice(),
            locator,
            reading,
        )? {
            Ok((devices, digest, stripped)) => {
                let task = TouchTask::begin(
                    alloc,
                    config,
                    devices,
                    token,
                    id,
                    digest,
                    stripped.as_slice(),
                )?;
                Ok(Opened::Task(task))
            }
            Err(outcome) => Ok(Opened::Ended(outcome)),
        }
    }

    /// A touch of a digest on some devices, at least one. `stripped` is the locator without its hints.
    pub(crate) fn begin(
        alloc: Global,
        config: &Config,
        devices: Items<u32>,
        token: Bytes,
        id: TokenId,
        digest: Digest,
        stripped: &[u8],
    ) -> Result<TouchTask, NoMemory>
        requires some { 0 < length devices }
        ensures open { IfOk result (λ t. t.ended ≡ false) }
        ensures stands { IfOk result (λ t. IsTouch t.walk t.locator (next config.now (TheTask.Touch devices token id digest stripped.now)) []) }
        ensures may_ask { IfOk result (λ t. (n : ℕ) → All (λ d. d < n) devices → AreBelow n t.walk) }
    {
        let locator = Unsigned::new(alloc, config, token, digest, stripped)?;
        let query = DeviceQuery::Touch {
            digest,
            token: Some(id),
        };
        let Some(walk) = Walk::begin(devices.into_vec(), query) else {
            unreachable!()
        };
        Ok(TouchTask {
            walk,
            locator: Some(locator),
            ended: false,
        })
    }
}
