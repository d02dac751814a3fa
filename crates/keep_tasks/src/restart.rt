// Restarts.
ghost use Rattle.std.specs.Prelude.{◌≡◌, ◌<◌};

use keep_config::Config;
use keep_event::{DeviceQuery, Query, Reply};
use keep_history::Outcome;
use keep_spec::NoMemory;
use keep_steps::{Opened, Steps};

/// A restart: it asks the device once to forget its lists.
#[derive(Drop)]
pub struct RestartTask {
    query: Query,
    ended: bool,
}

impl Steps for RestartTask {
    ghost use Rattle.keep_tasks.specs.Kinds.{IsRestart};
    ghost use Rattle.keep_event.specs.Port.{MayAsk};
    ghost use Rattle.std.specs.Prelude.{true};

    ghost query_of = { λ t. t.query };

    ghost has_ended = { λ t. t.ended };

    ghost stands = { λ t. IsRestart t.query };

    ghost may_ask = { λ t n. MayAsk n t.query };

    ghost sure = { λ t. true };

    fn ended(&self) -> bool {
        self.ended
    }

    fn query(&self) -> &Query {
        &self.query
    }

    fn take(&mut self, _reply: &Reply) -> Result<Option<Outcome>, NoMemory> {
        self.ended = true;
        Ok(Some(Outcome::Restarted))
    }
}

impl RestartTask {
    ghost use Rattle.keep_history.specs.Tasks.{opened};
    ghost use Rattle.keep_history.specs.declared.task.Opening.{Opening as TheOpening};
    ghost use Rattle.keep_steps.specs.Steps.{IsOpened, IsReady};
    ghost use Rattle.std.specs.Prelude.{ℕ, length};

    /// Opens a restart of a device, by its number in the configuration. It never ends at once.
    pub fn open(_config: &Config, device: u32) -> Opened<RestartTask>
        requires within { device < length _config.now.devices }
        ensures opened { (reading : ℕ) → IsOpened (opened _config.now (TheOpening.Restart device) reading) result (λ t task.
            IsReady (⟦<RestartTask as Steps>⟧.has_ended t) (⟦<RestartTask as Steps>⟧.stands t) (⟦<RestartTask as Steps>⟧.may_ask t) _config.now task) }
    {
        Opened::Task(RestartTask {
            query: Query::Device(device, DeviceQuery::Restart),
            ended: false,
        })
    }
}
