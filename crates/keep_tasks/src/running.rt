// A client's task of any kind, or a restart, and its opening.
ghost use Rattle.std.specs.Prelude.{◌≡◌, IfOk};
ghost use Rattle.keep_history.specs.Script.{HasTimes};
ghost use Rattle.keep_history.specs.Tasks.{opened, NamesWithin};
ghost use Rattle.keep_tasks.specs.Openings.{IsOfClient};
ghost use Rattle.keep_steps.specs.Steps.{IsOpened, IsReady};

use crate::get::GetTask;
use crate::opening::table_query;
use crate::put::PutTask;
use crate::restart::RestartTask;
use crate::table::TableTask;
use crate::touch::TouchTask;
use crate::untrash::UntrashTask;
use keep_config::Config;
use keep_event::{Query, Reply};
use keep_history::{Opening, Outcome};
use keep_spec::NoMemory;
use keep_steps::{Opened, Steps};
use std::alloc::Global;

/// A client's task of any kind, or a restart, between two queries.
#[derive(Drop)]
pub enum Running {
    Put(PutTask),
    Get(GetTask),
    Touch(TouchTask),
    Untrash(UntrashTask),
    Restart(RestartTask),
    Table(TableTask),
}

impl Steps for Running {
    ghost use Rattle.keep_tasks.specs.Running as running;

    ghost query_of = { running.query_of };

    ghost has_ended = { running.has_ended };

    ghost stands = { running.stands };

    ghost may_ask = { running.may_ask };

    ghost sure = { running.sure };

    fn ended(&self) -> bool {
        match self {
            Running::Put(task) => task.ended(),
            Running::Get(task) => task.ended(),
            Running::Touch(task) => task.ended(),
            Running::Untrash(task) => task.ended(),
            Running::Restart(task) => task.ended(),
            Running::Table(task) => task.ended(),
        }
    }

    fn query(&self) -> &Query {
        match self {
            Running::Put(task) => task.query(),
            Running::Get(task) => task.query(),
            Running::Touch(task) => task.query(),
            Running::Untrash(task) => task.query(),
            Running::Restart(task) => task.query(),
            Running::Table(task) => task.query(),
        }
    }

    fn take(&mut self, reply: &Reply) -> Result<Option<Outcome>, NoMemory> {
        match self {
            Running::Put(task) => task.take(reply),
            Running::Get(task) => task.take(reply),
            Running::Touch(task) => task.take(reply),
            Running::Untrash(task) => task.take(reply),
            Running::Restart(task) => task.take(reply),
            Running::Table(task) => task.take(reply),
        }
    }
}

/// Opens a task of the kind that an opening names, at a reading (nanoseconds since 1970), or ends at once. Nothing is asked. The opening is neither a balance
/// nor a worker; the server or device that it names is one of the configuration, and the times of a trash are readings. The only error is NoMemory.
pub fn open_task(
    alloc: Global,
    config: &Config,
    opening: Opening,
    reading: u64,
) -> Result<Opened<Running>, NoMemory>
    requires kind { IsOfClient opening }
    requires within { NamesWithin config.now opening }
    requires times { HasTimes opening }
    ensures opened { IfOk result (λ o. IsOpened (opened config.now opening reading) o (λ t task.
        IsReady (⟦<Running as Steps>⟧.has_ended t) (⟦<Running as Steps>⟧.stands t) (⟦<Running as Steps>⟧.may_ask t) config.now task)) }
{
    match opening {
        Opening::Put {
            token,
            server,
            bytes,
            digest,
        } => {
            let opened = PutTask::open(alloc, config, server, token, bytes, digest)?;
            Ok(opened.map(Running::Put))
        }
        Opening::Get {
            token,
            server,
            locator,
        } => {
            let (token, locator) = (token.as_slice(), locator.as_slice());
            let opened = GetTask::open(alloc, config, server, token, locator, reading)?;
            Ok(opened.map(Running::Get))
        }
        Opening::Touch {
            token,
            server,
            locator,
        } => {
            let locator = locator.as_slice();
            let opened = TouchTask::open(alloc, config, server, token, locator, reading)?;
            Ok(opened.map(Running::Touch))
        }
        Opening::Untrash {
            token,
            server,
            digest,
        } => {
            let opened = UntrashTask::open(alloc, config, server, token.as_slice(), digest)?;
            Ok(opened.map(Running::Untrash))
        }
        Opening::Restart { device } => {
            Ok(RestartTask::open(config, device).map(Running::Restart))
        }
        _ => {
            let opened = TableTask::open(alloc, config, table_query(config, opening))?;
            Ok(opened.map(Running::Table))
        }
    }
}
