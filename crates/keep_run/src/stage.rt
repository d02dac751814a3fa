// What a command does to the stage of a run.
ghost use Rattle.std.specs.Prelude.{◌≡◌, ◌≤◌, ◌<◌, ◌+◌, ◌++◌, ◌^◌, None, OnOk, OnErr, IfOk, length};
ghost use Rattle.keep_spec.specs.Times.{IsReading};
ghost use Rattle.keep_event.specs.Port.{NoneFalls};
ghost use Rattle.keep_cluster.specs.Cluster.{faults_at};
ghost use Rattle.keep_history.specs.Effects.{state_after, line_of_end};
ghost use Rattle.keep_history.specs.Names.{at_name, with_name};
ghost use Rattle.keep_history.specs.Script.{reading_of, HasTimes, HasCommandTimes, IsCommandWithin};
ghost use Rattle.keep_history.specs.Tasks.{NamesWithin};
ghost use Rattle.keep_run.specs.Asked.{DoesTurns, StopsTurns, outcome_of};
ghost use Rattle.keep_run.specs.Commands.{IsCommandDone, IsCommandStopped, IsAskingDone, IsAskingStopped, state_opened, text_opened, state_put, done_of};
ghost use Rattle.keep_run.specs.Scenes.{IsStageOf, HasRoom, GrowsByLine};
ghost use Rattle.keep_run.specs.Named.{open_task_of};
ghost use Rattle.keep_run.specs.Standing.{IsAskable};

use crate::asking::{Open, Turned, ask_turns};
use keep_cluster::Cluster;
use keep_config::Config;
use keep_history::{Command, Opening, Outcome, TaskState};
use keep_running::{AnyTask, open_any};
use keep_script::push_end_line;
use keep_spec::{Bytes, NoMemory};
use keep_steps::Opened;
use keep_store::Store;
use std::alloc::Global;
use std::collections::BTreeMap;

// A step asks once.
const STEP_TURNS: u64 = 1;

// A finish has one turn more than there may be events, so that it stops where its task ends or where no event is left.
const FINISH_TURNS: u64 = 1_099_511_627_777;

/// What stands between two lines of a run: the devices and the table, and what has become of each name.
#[derive(Drop)]
pub(crate) struct Stage<'a, S: Store> {
    pub(crate) cluster: Cluster<'a, S>,
    pub(crate) names: BTreeMap<Bytes, TaskState<Open>>,
}

/// How a command was done.
#[derive(Clone, Copy, Debug, PartialEq, Eq)]
pub(crate) enum Done {
    /// All of it was.
    Whole,
    /// It asked for an event more than there may be.
    Spent,
    /// It can't be done with these names, and nothing was.
    Refused,
}

fn state_after<T: Drop>(outcome: Outcome) -> TaskState<T>
    ensures { result ≡ state_after outcome }
{
    match outcome {
        Outcome::Stored { locator } => TaskState::Located { locator },
        Outcome::Touched { locator } => TaskState::Located { locator },
        Outcome::Row {
            version: _,
            want: _,
            trash_at: _,
            text,
        } => TaskState::Row { text },
        _ => TaskState::Ended,
    }
}

fn open_task_of(state: Option<TaskState<Open>>) -> Option<Open>
    ensures { result ≡ open_task_of state }
{
    match state {
        Some(TaskState::Open { task }) => Some(task),
        _ => None,
    }
}

// Sets what has become of a name's task, and returns what had become of it before. It is generic, as are those that let a task go, so that what the kinds of
// task have is of no matter to their proofs.
fn set_name<T: Drop>(
    names: &mut BTreeMap<Bytes, TaskState<T>>,
    name: Bytes,
    state: TaskState<T>,
) -> Result<Option<TaskState<T>>, NoMemory>
    ensures previous { IfOk result (λ old. old ≡ at_name name names.old.entries) }
    ensures set { OnOk result (names.new.entries ≡ with_name name state names.old.entries) }
    ensures unchanged { OnErr result (names.new.entries ≡ names.old.entries) }
    ensures one_more { length names.new.entries ≤ length names.old.entries + 1 }
{
    match names.insert(name, state) {
        Ok(old) => Ok(old),
        Err(_) => Err(NoMemory),
    }
}

// Sets what has become of a name's task, and lets go what had become of it before.
fn replace_state<T: Drop>(
    names: &mut BTreeMap<Bytes, TaskState<T>>,
    name: Bytes,
    state: TaskState<T>,
) -> Result<(), NoMemory>
    ensures set { OnOk result (names.new.entries ≡ with_name name state names.old.entries) }
    ensures one_more { length names.new.entries ≤ length names.old.entries + 1 }
{
    let _ = set_name(names, name, state)?;
    Ok(())
}

// Lets a task go.
fn let_go<T: Drop>(_task: T) {}

// What becomes of a name by an opening. Appends the line of an end at once.
fn state_opened(
    opened: Opened<AnyTask>,
    actor: u32,
    name: &[u8],
    out: &mut Vec<u8>,
) -> Result<TaskState<Open>, NoMemory>
    ensures state { IfOk result (λ s. s ≡ state_opened actor opened) }
    ensures printed { IfOk result (λ _. out.new.items ≡ out.old.items ++ text_opened name.now opened) }
{
    match opened {
        Opened::Task(task) => Ok(TaskState::Open {
            task: Open { task, actor },
        }),
        Opened::Ended(outcome) => {
            push_end_line(out, name, &outcome)?;
            Ok(state_after(outcome))
        }
    }
}

// Opens a task, which makes no event.
fn open_named<S: Store>(
    alloc: Global,
    config: &Config,
    stage: &mut Stage<'_, S>,
    name: Bytes,
    reading: u64,
    opening: Opening,
    out: &mut Vec<u8>,
) -> Result<Done, NoMemory>
    requires sound { IsStageOf config.now stage.old }
    requires room { HasRoom stage.old }
    requires times { HasTimes opening }
    requires within { NamesWithin config.now opening }
    ensures done { IfOk result (IsCommandDone config.now (Command.Open name reading opening) stage.old stage.new out.old.items out.new.items) }
    ensures stopped { OnErr result (IsCommandStopped config.now (Command.Open name reading opening) stage.old stage.new) }
    ensures sound { IfOk result (λ _. IsStageOf config.now stage.new) }
    ensures grows { GrowsByLine stage.old stage.new }
    ensures same_cluster { stage.new.cluster ≡ stage.old.cluster }
{
    let actor = stage.names.len() as u32;
    let opened = open_any(alloc, config, opening, reading)?;
    let state = state_opened(opened, actor, name.as_slice(), out)?;
    replace_state(&mut stage.names, name, state)?;
    Ok(Done::Whole)
}

// Sets what became of a name whose task was asked, and appends the line of its end.
fn put_back<T: Drop>(
    names: &mut BTreeMap<Bytes, TaskState<T>>,
    name: Bytes,
    open_task: T,
    turned: Turned,
    out: &mut Vec<u8>,
) -> Result<Done, NoMemory>
    ensures set { IfOk result (λ _. names.new.entries ≡ with_name name (state_put open_task turned) names.old.entries) }
    ensures printed { IfOk result (λ _. out.new.items ≡ out.old.items ++ line_of_end name (outcome_of turned)) }
    ensures done { IfOk result (λ d. d ≡ done_of turned) }
    ensures one_more { length names.new.entries ≤ length names.old.entries + 1 }
{
    match turned {
        Turned::Ended { outcome } => {
            push_end_line(out, name.as_slice(), &outcome)?;
            replace_state(names, name, state_after(outcome))?;
            Ok(Done::Whole)
        }
        Turned::Asks => {
            replace_state(names, name, TaskState::Open { task: open_task })?;
            Ok(Done::Whole)
        }
        Turned::Spent => {
            replace_state(names, name, TaskState::Open { task: open_task })?;
            Ok(Done::Spent)
        }
    }
}

// Asks a task up to so many times at a reading, and returns it as it stands, and how its turns stopped.
fn ask_at<S: Store>(
    cluster: &mut Cluster<'_, S>,
    turns: u64,
    reading: u64,
    mut open_task: Open,
    name: &[u8],
    out: &mut Vec<u8>,
) -> Result<(Open, Turned), NoMemory>
    requires reading { IsReading reading }
    requires askable { IsAskable (length cluster.old.config.devices) open_task }
    ensures done { IfOk result (λ p. DoesTurns turns (record cluster.old { reading = reading }) cluster.new open_task p.0 name.now out.old.items out.new.items p.1) }
    ensures stopped { OnErr result (StopsTurns turns (record cluster.old { reading = reading }) cluster.new open_task) }
    ensures askable { IfOk result (λ p. outcome_of p.1 ≡ None → IsAskable (length cluster.old.config.devices) p.0) }
    ensures devices { length cluster.new.config.devices ≡ length cluster.old.config.devices }
    ensures never_fall { NoneFalls (faults_at cluster.old.devices) (faults_at cluster.new.devices) }
{
    cluster.set_reading(reading);
    match ask_turns(cluster, turns, &mut open_task, name, out) {
        Ok(turned) => Ok((open_task, turned)),
        Err(NoMemory) => {
            let_go(open_task);
            Err(NoMemory)
        }
    }
}

// Asks the open task of a name up to so many times.
fn ask_named<S: Store>(
    alloc: Global,
    config: &Config,
    stage: &mut Stage<'_, S>,
    turns: u64,
    name: Bytes,
    reading: u64,
    out: &mut Vec<u8>,
) -> Result<Done, NoMemory>
    requires sound { IsStageOf config.now stage.old }
    requires reading { IsReading reading }
    ensures done { IfOk result (IsAskingDone turns config.now name reading stage.old stage.new out.old.items out.new.items) }
    ensures stopped { OnErr result (IsAskingStopped turns config.now name reading stage.old stage.new) }
    ensures sound { IfOk result (λ _. IsStageOf config.now stage.new) }
    ensures grows { GrowsByLine stage.old stage.new }
    ensures never_fall { NoneFalls (faults_at stage.old.cluster.devices) (faults_at stage.new.cluster.devices) }
    ensures devices { length stage.new.cluster.config.devices ≡ length stage.old.cluster.config.devices }
{
    let state = set_name(&mut stage.names, name.duplicate(alloc)?, TaskState::Ended)?;
    match open_task_of(state) {
        Some(open_task) => {
            let (open_task, turned) = ask_at(
                &mut stage.cluster,
                turns,
                reading,
                open_task,
                name.as_slice(),
                out,
            )?;
            put_back(&mut stage.names, name, open_task, turned, out)
        }
        None => Ok(Done::Refused),
    }
}

/// Does a command, and appends its text to `out`. After `NoMemory` the first of its events were made, and part of the text may stand in `out`.
pub(crate) fn do_command<S: Store>(
    alloc: Global,
    config: &Config,
    stage: &mut Stage<'_, S>,
    command: Command,
    out: &mut Vec<u8>,
) -> Result<Done, NoMemory>
    requires sound { IsStageOf config.now stage.old }
    requires room { HasRoom stage.old }
    requires reading { IsReading (reading_of command) }
    requires times { HasCommandTimes command }
    requires within { IsCommandWithin config.now command }
    ensures done { IfOk result (IsCommandDone config.now command stage.old stage.new out.old.items out.new.items) }
    ensures stopped { OnErr result (IsCommandStopped config.now command stage.old stage.new) }
    ensures sound { IfOk result (λ _. IsStageOf config.now stage.new) }
    ensures grows { GrowsByLine stage.old stage.new }
    ensures never_fall { NoneFalls (faults_at stage.old.cluster.devices) (faults_at stage.new.cluster.devices) }
    ensures devices { length stage.new.cluster.config.devices ≡ length stage.old.cluster.config.devices }
{
    match command {
        Command::Open {
            name,
            reading,
            opening,
        } => open_named(alloc, config, stage, name, reading, opening, out),
        Command::Step { name, reading } => {
            ask_named(alloc, config, stage, STEP_TURNS, name, reading, out)
        }
        Command::Finish { name, reading } => {
            ask_named(alloc, config, stage, FINISH_TURNS, name, reading, out)
        }
    }
}
