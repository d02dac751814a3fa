// A task of any kind, and its opening.
ghost use Rattle.std.specs.Prelude.{◌≡◌, IfOk};
ghost use Rattle.keep_history.specs.Script.{HasTimes};
ghost use Rattle.keep_history.specs.Tasks.{opened, NamesWithin};
ghost use Rattle.keep_steps.specs.Steps.{IsOpened, IsReady};

use keep_balance::BalanceTask;
use keep_config::Config;
use keep_event::{Query, Reply};
use keep_history::{Opening, Outcome};
use keep_spec::NoMemory;
use keep_steps::{Opened, Steps};
use keep_tasks::{Running, open_task};
use keep_workers::{EmptyWorker, PullWorker, TrashWorker};
use std::alloc::Global;

/// A task of any kind of opening, between two queries.
#[derive(Drop)]
pub enum AnyTask {
    /// A client's task, or a restart.
    Client(Running),
    Balance(BalanceTask),
    TrashWorker(TrashWorker),
    PullWorker(PullWorker),
    EmptyWorker(EmptyWorker),
}

impl Steps for AnyTask {
    ghost use Rattle.keep_running.specs.Running as any;

    ghost query_of = { any.query_of };

    ghost has_ended = { any.has_ended };

    ghost stands = { any.stands };

    ghost may_ask = { any.may_ask };

    ghost sure = { any.sure };

    fn ended(&self) -> bool {
        match self {
            AnyTask::Client(task) => task.ended(),
            AnyTask::Balance(task) => task.ended(),
            AnyTask::TrashWorker(worker) => worker.ended(),
            AnyTask::PullWorker(worker) => worker.ended(),
            AnyTask::EmptyWorker(worker) => worker.ended(),
        }
    }

    fn query(&self) -> &Query {
        match self {
            AnyTask::Client(task) => task.query(),
            AnyTask::Balance(task) => task.query(),
            AnyTask::TrashWorker(worker) => worker.query(),
            AnyTask::PullWorker(worker) => worker.query(),
            AnyTask::EmptyWorker(worker) => worker.query(),
        }
    }

    fn take(&mut self, reply: &Reply) -> Result<Option<Outcome>, NoMemory> {
        match self {
            AnyTask::Client(task) => task.take(reply),
            AnyTask::Balance(task) => task.take(reply),
            AnyTask::TrashWorker(worker) => worker.take(reply),
            AnyTask::PullWorker(worker) => worker.take(reply),
            AnyTask::EmptyWorker(worker) => worker.take(reply),
        }
    }
}

/// Opens a task of the kind that an opening names, at a reading (nanoseconds since 1970), or ends at once. Nothing is asked. The server or device that the
/// opening names is one of the configuration, and the times of a trash are readings. The only error is NoMemory.
pub fn open_any(
    alloc: Global,
    config: &Config,
    opening: Opening,
    reading: u64,
) -> Result<Opened<AnyTask>, NoMemory>
    requires within { NamesWithin config.now opening }
    requires times { HasTimes opening }
    ensures opened { IfOk result (λ o. IsOpened (opened config.now opening reading) o (λ t task.
        IsReady (⟦<AnyTask as Steps>⟧.has_ended t) (⟦<AnyTask as Steps>⟧.stands t) (⟦<AnyTask as Steps>⟧.may_ask t) config.now task)) }
{
    match opening {
        Opening::Balance => {
            let opened = BalanceTask::open(alloc, config)?;
            Ok(opened.map(AnyTask::Balance))
        }
        Opening::TrashWorker { device } => {
            Ok(TrashWorker::open(config, device).map(AnyTask::TrashWorker))
        }
        Opening::PullWorker { device } => {
            Ok(PullWorker::open(alloc, config, device).map(AnyTask::PullWorker))
        }
        Opening::EmptyWorker { device } => {
            Ok(EmptyWorker::open(config, device).map(AnyTask::EmptyWorker))
        }
        _ => {
            let opened = open_task(alloc, config, opening, reading)?;
            Ok(opened.map(AnyTask::Client))
        }
    }
}
