// The queries of a task to the cluster, one after another.
ghost use Rattle.std.specs.Prelude.{◌≡◌, ◌++◌, None, IfOk, OnOk, OnErr, length};
ghost use Rattle.keep_event.specs.Port.{NoneFalls};
ghost use Rattle.keep_cluster.specs.Cluster.{faults_at};
ghost use Rattle.keep_run.specs.Asked.{DoesTurns, StopsTurns, device_of, line_at, outcome_of};
ghost use Rattle.keep_run.specs.Standing.{IsAskable};

use keep_cluster::Cluster;
use keep_event::{Answer, PortError, Query};
use keep_history::Outcome;
use keep_running::AnyTask;
use keep_script::{push_event_line, push_table_event_line};
use keep_spec::NoMemory;
use keep_steps::{Step, Steps};
use keep_store::Store;

/// A task that has not ended, and who asks for it: the number of its opening among all openings, from 0.
#[derive(Drop)]
pub(crate) struct Open {
    pub(crate) task: AnyTask,
    pub(crate) actor: u32,
}

/// How the turns of a task stopped.
#[derive(Drop, Debug)]
pub(crate) enum Turned {
    /// The task ended.
    Ended { outcome: Outcome },
    /// The turns are over, and the task asks on.
    Asks,
    /// There was no event left for it.
    Spent,
}

// The device that the line of a query's event names; 0 for the table.
fn device_of(query: &Query) -> u32
    ensures { result ≡ device_of query.now }
{
    match query {
        Query::Device(device, _) => *device,
        Query::Table(_) => 0,
    }
}

// Appends the line of an event.
fn push_line(out: &mut Vec<u8>, name: &[u8], device: u32, answer: &Answer) -> Result<(), NoMemory>
    ensures { OnOk result (out.new.items ≡ out.old.items ++ line_at name.now device answer.now) }
{
    match answer {
        Answer::Device(answer) => push_event_line(out, name, device, answer),
        Answer::Table(answer) => push_table_event_line(out, name, answer),
    }
}

// Asks the next query of a task, and appends the line of its event.
fn ask_once<S: Store>(
    cluster: &mut Cluster<'_, S>,
    open_task: &mut Open,
    name: &[u8],
    out: &mut Vec<u8>,
) -> Result<Turned, NoMemory>
    requires askable { IsAskable (length cluster.old.config.devices) open_task.old }
    ensures done { IfOk result (λ t. DoesTurns 1 cluster.old cluster.new open_task.old open_task.new name.now out.old.items out.new.items t) }
    ensures stopped { OnErr result (StopsTurns 1 cluster.old cluster.new open_task.old) }
    ensures askable { IfOk result (λ t. outcome_of t ≡ None → IsAskable (length cluster.old.config.devices) open_task.new) }
    ensures devices { length cluster.new.config.devices ≡ length cluster.old.config.devices }
    ensures reading { cluster.new.reading ≡ cluster.old.reading }
    ensures never_fall { NoneFalls (faults_at cluster.old.devices) (faults_at cluster.new.devices) }
{
    let device = device_of(open_task.task.query());
    let Step { reply, end } = match open_task.task.step(open_task.actor, cluster) {
        Ok(step) => step,
        Err(PortError::Failed) => unreachable!(),
        Err(PortError::Spent { drawn: _ }) => return Ok(Turned::Spent),
        Err(PortError::NoMemory) => return Err(NoMemory),
    };
    push_line(out, name, device, &reply.answer)?;
    match end {
        Some(outcome) => Ok(Turned::Ended { outcome }),
        None => Ok(Turned::Asks),
    }
}

/// Asks a task up to so many times at the reading of the cluster, or until it ends, and appends a line for each event. After `NoMemory` the first of the
/// events were made.
pub(crate) fn ask_turns<S: Store>(
    cluster: &mut Cluster<'_, S>,
    turns: u64,
    open_task: &mut Open,
    name: &[u8],
    out: &mut Vec<u8>,
) -> Result<Turned, NoMemory>
    requires askable { IsAskable (length cluster.old.config.devices) open_task.old }
    ensures done { IfOk result (λ t. DoesTurns turns cluster.old cluster.new open_task.old open_task.new name.now out.old.items out.new.items t) }
    ensures stopped { OnErr result (StopsTurns turns cluster.old cluster.new open_task.old) }
    ensures askable { IfOk result (λ t. outcome_of t ≡ None → IsAskable (length cluster.old.config.devices) open_task.new) }
    ensures devices { length cluster.new.config.devices ≡ length cluster.old.config.devices }
    ensures never_fall { NoneFalls (faults_at cluster.old.devices) (faults_at cluster.new.devices) }
{
    for turn in 0..turns {
        match ask_once(cluster, open_task, name, out)? {
            Turned::Asks => {}
            Turned::Ended { outcome } => return Ok(Turned::Ended { outcome }),
            Turned::Spent => return Ok(Turned::Spent),
        }
    }
    Ok(Turned::Asks)
}
