// Empty workers.
ghost use Rattle.std.specs.Prelude.{◌≡◌, ◌+◌, ◌<◌};
ghost use Rattle.keep_history.specs.Workers.{by_device, empty_answered, items_max};
ghost use Rattle.keep_workers.specs.Empties.{EmptyMoves, emptying, with_removed};

use crate::items::{ITEMS_MAX, one_more};
use keep_config::Config;
use keep_event::{Answer, DeviceAnswer, DeviceQuery, Query, Reply};
use keep_history::Outcome;
use keep_spec::NoMemory;
use keep_steps::{Opened, Steps};

/// An empty worker: it has the device remove the trashed copies whose deadline has passed, one after another.
#[derive(Drop)]
pub struct EmptyWorker {
    query: Query,
    removed: u64,
    ended: bool,
}

impl Steps for EmptyWorker {
    ghost use Rattle.keep_workers.specs.Empties.{IsEmptying};
    ghost use Rattle.keep_event.specs.Port.{MayAsk};
    ghost use Rattle.std.specs.Prelude.{true};

    ghost query_of = { λ w. w.query };

    ghost has_ended = { λ w. w.ended };

    ghost stands = { IsEmptying };

    ghost may_ask = { λ w n. MayAsk n w.query };

    ghost sure = { λ w. true };

    fn ended(&self) -> bool {
        self.ended
    }

    fn query(&self) -> &Query {
        &self.query
    }

    fn take(&mut self, reply: &Reply) -> Result<Option<Outcome>, NoMemory> {
        let end = self.take_answer(&reply.answer);
        self.ended = end.is_some();
        Ok(end)
    }
}

impl EmptyWorker {
    ghost use Rattle.keep_history.specs.Tasks.{opened};
    ghost use Rattle.keep_history.specs.declared.task.Opening.{Opening as TheOpening};
    ghost use Rattle.keep_steps.specs.Steps.{IsOpened, IsReady};
    ghost use Rattle.std.specs.Prelude.{ℕ, length};

    /// Opens an empty worker of a device, by its number in the configuration. It never ends at once.
    pub fn open(_config: &Config, device: u32) -> Opened<EmptyWorker>
        requires within { device < length _config.now.devices }
        ensures opened { (reading : ℕ) → IsOpened (opened _config.now (TheOpening.EmptyWorker device) reading) result (λ w task.
            IsReady (⟦<EmptyWorker as Steps>⟧.has_ended w) (⟦<EmptyWorker as Steps>⟧.stands w) (⟦<EmptyWorker as Steps>⟧.may_ask w) _config.now task) }
    {
        Opened::Task(EmptyWorker {
            query: Query::Device(device, DeviceQuery::EmptyNext),
            removed: 0,
            ended: false,
        })
    }

    // Takes the device's answer, and returns the end where it is one.
    fn take_answer(&mut self, answer: &Answer) -> Option<Outcome>
        ensures moved { self.old.removed < items_max → EmptyMoves (by_device empty_answered answer.now (emptying self.old)) self.new result }
        ensures asks_the_same { self.new.query ≡ self.old.query }
    {
        match answer {
            Answer::Device(
                DeviceAnswer::Emptied {
                    digest: _,
                    deadline: _,
                },
            ) => self.copy_removed(),
            Answer::Device(DeviceAnswer::Idle) => Some(Outcome::Emptied {
                copies: self.removed,
            }),
            Answer::Device(DeviceAnswer::StoreFault) => Some(Outcome::StoreFault),
            Answer::Device(DeviceAnswer::ReadOnly) => Some(Outcome::ReadOnly),
            _ => None,
        }
    }

    // One copy more was removed; at the greatest number of them it ends.
    fn copy_removed(&mut self) -> Option<Outcome>
        ensures moved { self.old.removed < items_max → EmptyMoves (with_removed (self.old.removed + 1)) self.new result }
        ensures asks_the_same { self.new.query ≡ self.old.query }
    {
        self.removed = one_more(self.removed);
        if self.removed < ITEMS_MAX {
            None
        } else {
            Some(Outcome::Emptied {
                copies: self.removed,
            })
        }
    }
}
