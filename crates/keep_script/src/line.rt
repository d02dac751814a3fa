// The command of a line.
ghost use Rattle.std.specs.Prelude.{◌≡◌, IfOk, IfSome, is_some, option_map};
ghost use Rattle.serde_json.specs.View.{view};
ghost use Rattle.keep_spec.specs.Config.{Configuration};
ghost use Rattle.keep_spec.specs.Times.{IsReading};
ghost use Rattle.keep_history.specs.Names.{at_name, seen_names};
ghost use Rattle.keep_history.specs.Script.{command_of, command_of_data, finishes, is_of_open, open_named, opens, reading_of, steps, HasCommandTimes, IsCommandWithin};
ghost use Rattle.keep_script.specs.Lines.{IsRead};

use crate::fields::{name_at, reading_at};
use crate::opening::opening_of_kind;
use keep_config::Config;
use keep_config::json::{has_members, text_at, value_of};
use keep_history::{Command, TaskState};
use keep_spec::{Bytes, NoMemory};
use serde_json::Value;
use std::alloc::Global;
use std::collections::BTreeMap;

/// Why a text has no command.
#[derive(Clone, Copy, Debug, PartialEq, Eq)]
pub enum CommandError {
    /// It is no script line after these names.
    NotALine,
    /// Memory was refused.
    NoMemory,
}

/// Reads one script line, without its newline, given the names that earlier lines opened and what has become of their tasks. `NotALine` comes exactly where
/// the text is no script line of this configuration after these names: not in its form, a name that is taken, not open or ended, a server or device out of
/// range, or a reference to a task without such a result. An error changes nothing. The form of the lines is this project's own.
#[tactic(auto, unfolding(keep_history::specs::Script::command_of))]
pub fn read_line<T>(
    alloc: Global,
    config: &Config,
    names: &BTreeMap<Bytes, TaskState<T>>,
    text: &[u8],
) -> Result<Command, CommandError>
    ensures command { IsRead (command_of config.now (seen_names names.now.entries) text.now) result }
    ensures reading { IfOk result (λ c. IsReading (reading_of c)) }
    ensures times { IfOk result HasCommandTimes }
    ensures within { IfOk result (IsCommandWithin config.now) }
{
    let value = match value_of(alloc, text) {
        Ok(Some(value)) => value,
        Ok(None) => return Err(CommandError::NotALine),
        Err(NoMemory) => return Err(CommandError::NoMemory),
    };
    match command_of_value(alloc, config, names, &value) {
        Ok(Some(command)) => Ok(command),
        Ok(None) => Err(CommandError::NotALine),
        Err(NoMemory) => Err(CommandError::NoMemory),
    }
}

fn command_of_value<T>(
    alloc: Global,
    config: &Config,
    names: &BTreeMap<Bytes, TaskState<T>>,
    value: &Value,
) -> Result<Option<Command>, NoMemory>
    ensures command { IfOk result (λ o. o ≡ command_of_data config.now (seen_names names.now.entries) (view value.now)) }
    ensures reading { IfOk result (λ o. IfSome o (λ c. IsReading (reading_of c))) }
    ensures times { IfOk result (λ o. IfSome o HasCommandTimes) }
    ensures within { IfOk result (λ o. IfSome o (IsCommandWithin config.now)) }
{
    if value.get("open").is_some() {
        opens(alloc, config, names, value)
    } else if value.get("step").is_some() {
        steps(alloc, names, value)
    } else {
        finishes(alloc, names, value)
    }
}

fn opens<T>(
    alloc: Global,
    config: &Config,
    names: &BTreeMap<Bytes, TaskState<T>>,
    value: &Value,
) -> Result<Option<Command>, NoMemory>
    ensures command { IfOk result (λ o. o ≡ opens config.now (seen_names names.now.entries) (view value.now)) }
    ensures reading { IfOk result (λ o. IfSome o (λ c. IsReading (reading_of c))) }
    ensures times { IfOk result (λ o. IfSome o HasCommandTimes) }
    ensures within { IfOk result (λ o. IfSome o (IsCommandWithin config.now)) }
{
    let Some(name) = name_at(alloc, value, "open")? else {
        return Ok(None);
    };
    let Some(reading) = reading_at(value) else {
        return Ok(None);
    };
    let Some(kind) = text_at(value, "do") else {
        return Ok(None);
    };
    if is_taken(names, &name) {
        return Ok(None);
    }
    match opening_of_kind(alloc, config, names, kind.as_bytes(), value)? {
        Some(opening) => Ok(Some(Command::Open {
            name,
            reading,
            opening,
        })),
        None => Ok(None),
    }
}

fn steps<T>(
    alloc: Global,
    names: &BTreeMap<Bytes, TaskState<T>>,
    value: &Value,
) -> Result<Option<Command>, NoMemory>
    ensures command { IfOk result (λ o. o ≡ steps (seen_names names.now.entries) (view value.now)) }
    ensures reading { IfOk result (λ o. IfSome o (λ c. IsReading (reading_of c))) }
    ensures times { IfOk result (λ o. IfSome o HasCommandTimes) }
    ensures within { (c : Configuration) → IfOk result (λ o. IfSome o (IsCommandWithin c)) }
{
    match open_task(alloc, names, value, "step")? {
        Some(OpenTask { name, reading }) => Ok(Some(Command::Step { name, reading })),
        None => Ok(None),
    }
}

fn finishes<T>(
    alloc: Global,
    names: &BTreeMap<Bytes, TaskState<T>>,
    value: &Value,
) -> Result<Option<Command>, NoMemory>
    ensures command { IfOk result (λ o. o ≡ finishes (seen_names names.now.entries) (view value.now)) }
    ensures reading { IfOk result (λ o. IfSome o (λ c. IsReading (reading_of c))) }
    ensures times { IfOk result (λ o. IfSome o HasCommandTimes) }
    ensures within { (c : Configuration) → IfOk result (λ o. IfSome o (IsCommandWithin c)) }
{
    match open_task(alloc, names, value, "finish")? {
        Some(OpenTask { name, reading }) => Ok(Some(Command::Finish { name, reading })),
        None => Ok(None),
    }
}

// The name of an open task, and a reading.
#[derive(Drop)]
struct OpenTask {
    name: Bytes,
    reading: u64,
}

// What a line of two members says, where one names an open task.
fn open_task<T>(
    alloc: Global,
    names: &BTreeMap<Bytes, TaskState<T>>,
    value: &Value,
    member: &str,
) -> Result<Option<OpenTask>, NoMemory>
    ensures named { IfOk result (λ o. option_map (λ t. (t.name, t.reading)) o ≡ open_named member.now (seen_names names.now.entries) (view value.now)) }
    ensures reading { IfOk result (λ o. IfSome o (λ t. IsReading t.reading)) }
{
    let Some(name) = name_at(alloc, value, member)? else {
        return Ok(None);
    };
    let Some(reading) = reading_at(value) else {
        return Ok(None);
    };
    if has_members(value, 2) && is_open(names, &name) {
        Ok(Some(OpenTask { name, reading }))
    } else {
        Ok(None)
    }
}

#[tactic(auto, using(crate::proofs::SeenNames::seen_at_name))]
fn is_taken<T>(names: &BTreeMap<Bytes, TaskState<T>>, name: &Bytes) -> bool
    ensures { result ≡ is_some (at_name name.now (seen_names names.now.entries)) }
{
    names.contains_key(name)
}

#[tactic(auto, using(crate::proofs::SeenNames::seen_at_name))]
fn is_open<T>(names: &BTreeMap<Bytes, TaskState<T>>, name: &Bytes) -> bool
    ensures { result ≡ is_of_open (at_name name.now (seen_names names.now.entries)) }
{
    match names.get(name) {
        Some(TaskState::Open { .. }) => true,
        _ => false,
    }
}
