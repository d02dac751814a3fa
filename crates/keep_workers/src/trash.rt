// Trash workers.
ghost use Rattle.std.specs.Prelude.{◌≡◌, ◌+◌, ◌<◌, ◌≤◌};
ghost use Rattle.keep_history.specs.Workers.{by_device, items_max, trash_answered};
ghost use Rattle.keep_workers.specs.Trashes.{IsTrashingFew, TrashMoves, after_items, trashing};

use crate::items::{ITEMS_MAX, one_more};
use keep_config::Config;
use keep_event::{Answer, DeviceAnswer, DeviceQuery, Query, Reply};
use keep_history::Outcome;
use keep_spec::NoMemory;
use keep_steps::{Opened, Steps};

/// A trash worker: it has the device take one item after another from its list of blocks to trash.
#[derive(Drop)]
pub struct TrashWorker {
    query: Query,
    taken: u64,
    trashed: u64,
    ended: bool,
}

impl Steps for TrashWorker {
    ghost use Rattle.keep_workers.specs.Trashes.{IsTrashing};
    ghost use Rattle.keep_event.specs.Port.{MayAsk};
    ghost use Rattle.std.specs.Prelude.{true};

    ghost query_of = { λ w. w.query };

    ghost has_ended = { λ w. w.ended };

    ghost stands = { IsTrashing };

    ghost may_ask = { λ w n. MayAsk n w.query };

    ghost sure = { λ w. true };

    fn ended(&self) -> bool {
        self.ended
    }

    fn query(&self) -> &Query {
        &self.query
    }

    fn take(&mut self, reply: &Reply) -> Result<Option<Outcome>, NoMemory> {
        let end = self.take_answer(&reply.answer);
        self.ended = end.is_some();
        Ok(end)
    }
}

impl TrashWorker {
    ghost use Rattle.keep_history.specs.Tasks.{opened};
    ghost use Rattle.keep_history.specs.declared.task.Opening.{Opening as TheOpening};
    ghost use Rattle.keep_steps.specs.Steps.{IsOpened, IsReady};
    ghost use Rattle.std.specs.Prelude.{ℕ, length};

    /// Opens a trash worker of a device, by its number in the configuration. It never ends at once.
    pub fn open(_config: &Config, device: u32) -> Opened<TrashWorker>
        requires within { device < length _config.now.devices }
        ensures opened { (reading : ℕ) → IsOpened (opened _config.now (TheOpening.TrashWorker device) reading) result (λ w task.
            IsReady (⟦<TrashWorker as Steps>⟧.has_ended w) (⟦<TrashWorker as Steps>⟧.stands w) (⟦<TrashWorker as Steps>⟧.may_ask w) _config.now task) }
    {
        Opened::Task(TrashWorker {
            query: Query::Device(device, DeviceQuery::TrashNext),
            taken: 0,
            trashed: 0,
            ended: false,
        })
    }

    // Takes the device's answer, and returns the end where it is one.
    fn take_answer(&mut self, answer: &Answer) -> Option<Outcome>
        ensures moved { IsTrashingFew self.old → TrashMoves (by_device trash_answered answer.now (trashing self.old)) self.new result }
        ensures asks_the_same { self.new.query ≡ self.old.query }
    {
        match answer {
            Answer::Device(answer) => self.take_of_device(answer),
            Answer::Table(_) => None,
        }
    }

    // Takes what the device answered. A read-only device takes the item from its list all the same.
    fn take_of_device(&mut self, answer: &DeviceAnswer) -> Option<Outcome>
        ensures moved { IsTrashingFew self.old → TrashMoves (trash_answered answer.now (trashing self.old)) self.new result }
        ensures asks_the_same { self.new.query ≡ self.old.query }
    {
        match answer {
            DeviceAnswer::Trashed {
                digest: _,
                deadline: _,
                round: _,
            } => self.item_taken(one_more(self.trashed)),
            DeviceAnswer::Young {
                digest: _,
                mtime: _,
            } => self.item_taken(self.trashed),
            DeviceAnswer::Skipped {
                digest: _,
                mtime: _,
            } => self.item_taken(self.trashed),
            DeviceAnswer::Gone { digest: _ } => self.item_taken(self.trashed),
            DeviceAnswer::ReadOnly => self.item_taken(self.trashed),
            DeviceAnswer::Idle => Some(Outcome::Trashed {
                replicas: self.trashed,
            }),
            DeviceAnswer::StoreFault => Some(Outcome::StoreFault),
            _ => None,
        }
    }

    // One item more was taken, and so many replicas are trashed with it; at the greatest number of items it ends.
    fn item_taken(&mut self, trashed: u64) -> Option<Outcome>
        ensures moved { self.old.taken < items_max → trashed ≤ self.old.taken + 1 → TrashMoves (after_items (self.old.taken + 1) trashed) self.new result }
        ensures asks_the_same { self.new.query ≡ self.old.query }
    {
        self.taken = one_more(self.taken);
        self.trashed = trashed;
        if self.taken < ITEMS_MAX {
            None
        } else {
            Some(Outcome::Trashed {
                replicas: self.trashed,
            })
        }
    }
}
