// Whether a run is safe after each of its events: the first line of the input is a configuration, and each further one a line of a script. They are done as `keepd run`
// does them, over devices whose stores hold nothing. Settings: `fails DEVICE CALLS` lists the calls of a device's store that fail, and `ends` asks for the line of each
// task's end. The answer has these, and a line for the first event after which a protected digest is held nowhere: that event's number, from 0, and the least such digest.
// At last it has the number of events and whether each left all safe, and beside it how many replicas were trashed, and how many digests were protected at most.
ghost use Rattle.std.specs.Prelude.{◌≡◌, ◌↔◌, length, false, IsTrue};
ghost use Rattle.keep_spec.specs.Times.{IsReading};
ghost use Rattle.keep_event.specs.Port.{MayAsk};
ghost use Rattle.keep_event.specs.Requests.{MayAskTable};
ghost use Rattle.keep_history.specs.Script.{reading_of, HasTimes, HasCommandTimes, IsCommandWithin};
ghost use Rattle.keep_history.specs.Tasks.{NamesWithin};

use crate::copies::copy_query;
use crate::volumes::volumes_of;
use keep_casebook::{Answer, Case, OutOfMemory};
use keep_cluster::Cluster;
use keep_config::Config;
use keep_core::{Unsafe, protected, safe_at};
use keep_event::{Answer as EventAnswer, DeviceAnswer, Event, Port, Query, Reply, TableQuery};
use keep_history::{Command, Opening, Outcome, TaskState};
use keep_running::{AnyTask, open_any};
use keep_script::{CommandError, push_end_line, read_line};
use keep_spec::{Bytes, Digest, NoMemory, READING_END};
use keep_steps::{Opened, Steps};
use keep_store::MemoryStore;
use std::alloc::Global;
use std::collections::BTreeMap;

// The most queries of a line: more than a task of a case asks.
const MOST_TURNS: u32 = 1000;

// What was found after each event.
#[derive(Drop)]
struct Moments {
    events: Vec<Event>,
    unsafe_moments: u64,
    trashed: u64,
    most_protected: usize,
}

impl Moments {
    fn new(alloc: Global) -> Moments {
        Moments {
            events: Vec::new(alloc),
            unsafe_moments: 0,
            trashed: 0,
            most_protected: 0,
        }
    }

    // Adds an event, and judges all events so far.
    fn add(
        &mut self,
        alloc: Global,
        config: &Config,
        event: Event,
        answer: &mut Answer,
    ) -> Result<(), OutOfMemory> {
        let tick = event.tick;
        if is_trashed(&event.answer) {
            self.trashed = self.trashed.saturating_add(1);
        }
        self.events.push(event)?;
        let count = count_protected(alloc, config, &self.events)?;
        self.most_protected = self.most_protected.max(count);
        match safe_at(alloc, config, &self.events) {
            Ok(()) => Ok(()),
            Err(error) => self.add_unsafe(tick, error, answer),
        }
    }

    fn add_unsafe(
        &mut self,
        tick: u64,
        error: Unsafe,
        answer: &mut Answer,
    ) -> Result<(), OutOfMemory> {
        match error {
            Unsafe::Unheld { digest } => {
                if self.unsafe_moments == 0 {
                    answer_unheld(tick, &digest, answer);
                }
                self.unsafe_moments = self.unsafe_moments.saturating_add(1);
                Ok(())
            }
            Unsafe::NoMemory => Err(OutOfMemory),
        }
    }

    // The last lines of the answer.
    fn answer(&self, answer: &mut Answer) {
        answer.number(self.events.len() as u64);
        if self.unsafe_moments == 0 {
            answer.text(b" events, each safe");
        } else {
            answer.text(b" events, ");
            answer.number(self.unsafe_moments);
            answer.text(b" of them not safe");
        }
        answer.end();
        answer.number(self.trashed);
        answer.text(b" trashed, at most ");
        answer.number(self.most_protected as u64);
        answer.text(b" protected");
        answer.note();
    }
}

fn count_protected(alloc: Global, config: &Config, events: &[Event]) -> Result<usize, OutOfMemory> {
    Ok(protected(alloc, config, events)?.len())
}

fn answer_unheld(tick: u64, digest: &Digest, answer: &mut Answer) {
    answer.text(b"event ");
    answer.number(tick);
    answer.text(b": unheld ");
    answer.text(&digest.write());
    answer.end();
}

fn is_trashed(answer: &EventAnswer) -> bool {
    matches!(answer, EventAnswer::Device(DeviceAnswer::Trashed { .. }))
}

// A task that has not ended, and the number of its opening among all openings.
#[derive(Drop)]
struct Open {
    task: AnyTask,
    actor: u32,
}

// What stands between two lines.
#[derive(Drop)]
struct Desk<'a> {
    config: &'a Config,
    cluster: Cluster<'a, MemoryStore>,
    names: BTreeMap<Bytes, TaskState<Open>>,
    moments: Moments,
    tells_ends: bool,
    ghost same: { length cluster.config.devices ≡ length config.now.devices },
}

pub fn answer(alloc: Global, case: &Case, answer: &mut Answer) {
    let mut lines = case.body().split(|byte| *byte == b'\n');
    let first = lines.next().unwrap_or(b"");
    let Ok(config) = Config::read(alloc, first) else {
        return answer.value(b"no configuration");
    };
    if answer_lines(alloc, case, &config, answer).is_err() {
        answer.cut();
    }
}

// What was found after the events of the lines behind the configuration.
fn answer_lines(
    alloc: Global,
    case: &Case,
    config: &Config,
    answer: &mut Answer,
) -> Result<(), OutOfMemory> {
    let volumes = volumes_of(alloc, case, config)?;
    let mut desk = Desk {
        config,
        cluster: Cluster::new(alloc, config, volumes),
        names: BTreeMap::new(alloc),
        moments: Moments::new(alloc),
        tells_ends: case.value("ends").is_some(),
    };
    for line in case.body().split(|byte| *byte == b'\n').skip(1) {
        if !line.is_empty() {
            desk.do_line(alloc, line, answer)?;
        }
    }
    desk.moments.answer(answer);
    Ok(())
}

impl<'a> Desk<'a> {
    fn do_line(
        &mut self,
        alloc: Global,
        line: &[u8],
        answer: &mut Answer,
    ) -> Result<(), OutOfMemory> {
        match read_line(alloc, self.config, &self.names, line) {
            Ok(command) => self.do_command(alloc, command, answer),
            Err(CommandError::NotALine) => {
                answer.value(b"not a line of a script");
                Ok(())
            }
            Err(CommandError::NoMemory) => Err(OutOfMemory),
        }
    }

    fn do_command(
        &mut self,
        alloc: Global,
        command: Command,
        answer: &mut Answer,
    ) -> Result<(), OutOfMemory>
        requires reading { IsReading (reading_of command) }
        requires times { HasCommandTimes command }
        requires within { IsCommandWithin self.old.config.now command }
    {
        match command {
            Command::Open {
                name,
                reading,
                opening,
            } => self.open(alloc, name, reading, opening, answer),
            Command::Step { name, reading } => self.ask(alloc, name, reading, 1, answer),
            Command::Finish { name, reading } => {
                self.ask(alloc, name, reading, MOST_TURNS, answer)
            }
        }
    }

    fn open(
        &mut self,
        alloc: Global,
        name: Bytes,
        reading: u64,
        opening: Opening,
        answer: &mut Answer,
    ) -> Result<(), OutOfMemory>
        requires times { HasTimes opening }
        requires within { NamesWithin self.old.config.now opening }
    {
        let actor = u32::try_from(self.names.len()).unwrap_or(u32::MAX);
        match open_any(alloc, self.config, opening, reading)? {
            Opened::Task(task) => {
                let task = Open { task, actor };
                set_state(&mut self.names, name, TaskState::Open { task })
            }
            Opened::Ended(outcome) => self.end(alloc, name, outcome, answer),
        }
    }

    // Asks the open task of a name up to so many times.
    fn ask(
        &mut self,
        alloc: Global,
        name: Bytes,
        reading: u64,
        turns: u32,
        answer: &mut Answer,
    ) -> Result<(), OutOfMemory>
        requires { IsReading reading }
    {
        let Some(mut open) = take_open(&mut self.names, &name) else {
            return Ok(());
        };
        self.cluster.set_reading(reading);
        for _ in 0..turns {
            let end = ask_once(
                alloc,
                self.config,
                &mut self.cluster,
                &mut open,
                &mut self.moments,
                answer,
            )?;
            if let Some(outcome) = end {
                return self.end(alloc, name, outcome, answer);
            }
        }
        set_state(&mut self.names, name, TaskState::Open { task: open })
    }

    // What has become of a name whose task has ended.
    fn end(
        &mut self,
        alloc: Global,
        name: Bytes,
        outcome: Outcome,
        answer: &mut Answer,
    ) -> Result<(), OutOfMemory> {
        if self.tells_ends {
            let mut line = Vec::new(alloc);
            push_end_line(&mut line, name.as_slice(), &outcome)?;
            answer.output(&line);
        }
        set_state(&mut self.names, name, state_after(outcome))
    }
}

fn take_open(names: &mut BTreeMap<Bytes, TaskState<Open>>, name: &Bytes) -> Option<Open> {
    match names.remove(name) {
        Some(TaskState::Open { task }) => Some(task),
        _ => None,
    }
}

fn set_state<T: Drop>(
    names: &mut BTreeMap<Bytes, TaskState<T>>,
    name: Bytes,
    state: TaskState<T>,
) -> Result<(), OutOfMemory> {
    match names.insert(name, state) {
        Ok(_) => Ok(()),
        Err(_) => Err(OutOfMemory),
    }
}

fn state_after<T: Drop>(outcome: Outcome) -> TaskState<T> {
    match outcome {
        Outcome::Stored { locator } => TaskState::Located { locator },
        Outcome::Touched { locator } => TaskState::Located { locator },
        Outcome::Row { text, .. } => TaskState::Row { text },
        _ => TaskState::Ended,
    }
}

// Asks the next query of a task, and adds its event. It is asked by its copy, which the event keeps.
fn ask_once<P: Port>(
    alloc: Global,
    config: &Config,
    port: &mut P,
    open: &mut Open,
    moments: &mut Moments,
    answer: &mut Answer,
) -> Result<Option<Outcome>, OutOfMemory>
    requires { P.devices port.old ≡ length config.now.devices }
    ensures { P.devices port.new ≡ P.devices port.old }
{
    let query = copy_query(alloc, open.task.query())?;
    if open.task.ended() || !may_ask(config, &query) {
        return Err(OutOfMemory);
    }
    let reply = match port.ask(open.actor, &query) {
        Ok(reply) => reply,
        Err(_) => return Err(OutOfMemory),
    };
    let end = open.task.take(&reply)?;
    let event = Event {
        tick: reply.tick,
        reading: reply.reading,
        actor: open.actor,
        query,
        answer: reply.answer,
    };
    moments.add(alloc, config, event, answer)?;
    Ok(end)
}

// Whether a query may be asked of the configuration's devices and of the table. A task of the configuration asks no other.
fn may_ask(config: &Config, query: &Query) -> bool
    ensures { IsTrue result ↔ MayAsk (length config.now.devices) query.now }
{
    match query {
        Query::Device(device, _) => (*device as usize) < config.devices.len(),
        Query::Table(query) => may_ask_table(query),
    }
}

fn may_ask_table(query: &TableQuery) -> bool
    ensures { IsTrue result ↔ MayAskTable query.now }
{
    match query {
        TableQuery::SetTrash { trash_at, .. } => *trash_at < READING_END,
        TableQuery::Scan { limit, .. } => *limit != 0,
        _ => true,
    }
}
