// A round as a task: how it is opened, and its steps.
ghost use Rattle.std.specs.Prelude.{◌≡◌, ℕ, IfOk, IsOk, OnErr, true};
ghost use Rattle.keep_balance.specs.declared.task.Place.TheVariants as P;

use crate::copies::copy_config;
use crate::prefixes::prefixes;
use crate::task::{BalanceTask, Place};
use keep_config::Config;
use keep_event::{Answer, Query, Reply, TableQuery};
use keep_gather::Gather;
use keep_history::Outcome;
use keep_spec::NoMemory;
use keep_steps::{Opened, Steps};
use std::alloc::Global;

impl Steps for BalanceTask {
    ghost use Rattle.keep_balance.specs.Gathering.{BalanceMayAsk, is_sure};
    ghost use Rattle.keep_balance.specs.Standing.{Stands};

    ghost query_of = { λ t. t.query };

    ghost has_ended = { λ t. t.ended };

    ghost stands = { Stands };

    ghost may_ask = { BalanceMayAsk };

    ghost sure = { λ t. is_sure t.place };

    fn ended(&self) -> bool {
        self.ended
    }

    fn query(&self) -> &Query {
        &self.query
    }

    fn take(&mut self, reply: &Reply) -> Result<Option<Outcome>, NoMemory> {
        let end = self.take_answer(&reply.answer, reply.tick)?;
        self.ended = end.is_some();
        Ok(end)
    }
}

impl BalanceTask {
    ghost use Rattle.keep_event.specs.declared.event.Answer.TheVariants as A;
    ghost use Rattle.keep_history.specs.Balance.{Balancing};
    ghost use Rattle.keep_history.specs.Tasks.{opened};
    ghost use Rattle.keep_history.specs.declared.task.Opening.{Opening as TheOpening};
    ghost use Rattle.keep_balance.specs.Gathering.{is_sure};
    ghost use Rattle.keep_balance.specs.Standing.{given, IsAfter, Shows};
    ghost use Rattle.keep_steps.specs.Steps.{IsOpened, IsReady};

    /// Opens a balance round. It keeps a copy of the configuration, and never ends at once. NoMemory is the only error.
    pub fn open(alloc: Global, config: &Config) -> Result<Opened<BalanceTask>, NoMemory>
        ensures opened { (reading : ℕ) → IfOk result (λ o. IsOpened (opened config.now TheOpening.Balance reading) o (λ t task.
            IsReady (⟦<BalanceTask as Steps>⟧.has_ended t) (⟦<BalanceTask as Steps>⟧.stands t) (⟦<BalanceTask as Steps>⟧.may_ask t) config.now task)) }
    {
        let prefixes = prefixes(alloc, config.index_digits)?;
        let config = copy_config(alloc, config)?;
        Ok(Opened::Task(BalanceTask {
            alloc,
            config,
            prefixes,
            place: Place::Begin,
            query: Query::Table(TableQuery::BeginRound),
            gather: Gather::new(alloc, 0, 0),
            cleared_at: 0,
            left: Vec::new(alloc),
            trash: 0,
            pull: 0,
            lost: 0,
            stale: 0,
            ended: false,
        }))
    }

    // Takes the answer to what was asked, which came with this tick, and returns the end where it is one. After NoMemory nothing has changed.
    fn take_answer(&mut self, answer: &Answer, tick: u64) -> Result<Option<Outcome>, NoMemory>
        ensures taken { IfOk result (λ end. (s : Balancing) → Shows self.old s → IsAfter self.old (given tick answer.now) s self.new end) }
        ensures config { IfOk result (λ _. self.new.config ≡ self.old.config) }
        ensures sure { is_sure self.old.place ≡ true → IsOk result }
        ensures unchanged { OnErr result (self.new ≡ self.old) }
    {
        match self.place {
            Place::Begin => {
                self.take_begun(answer);
                Ok(None)
            }
            Place::Clear { device } => self.take_cleared(device, answer, tick),
            Place::Page { device, next } => self.take_paged(device, next, answer, tick),
            Place::Scan => self.take_of_table(answer, tick),
            Place::Accept { device } => Ok(self.take_of_device(device, answer)),
        }
    }

    // Takes the answer to a scan.
    fn take_of_table(&mut self, answer: &Answer, tick: u64) -> Result<Option<Outcome>, NoMemory>
        ensures taken { IfOk result (λ end. (s : Balancing) → Shows self.old s → self.old.place ≡ P.Scan → IsAfter self.old (given tick answer.now) s self.new end) }
        ensures config { IfOk result (λ _. self.new.config ≡ self.old.config) }
        ensures unchanged { OnErr result (self.new ≡ self.old) }
    {
        match answer {
            Answer::Table(answer) => self.take_scanned(answer, tick),
            Answer::Device(_) => Ok(None),
        }
    }

    // Takes the answer to a device's lists.
    fn take_of_device(&mut self, device: u32, answer: &Answer) -> Option<Outcome>
        ensures taken { (tick : ℕ) → (s : Balancing) → Shows self.old s → self.old.place ≡ P.Accept device → IsAfter self.old (given tick answer.now) s self.new result }
        ensures config { self.new.config ≡ self.old.config }
    {
        match answer {
            Answer::Device(answer) => self.take_accepted(device, answer),
            Answer::Table(_) => None,
        }
    }
}
