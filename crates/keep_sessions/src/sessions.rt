// Sessions over a cluster of two devices. The input is a configuration. Settings, in order: `session TEXT` answers the requests of a text, with `\r`, `\n`,
// `\\` and `\xHH` for those bytes, over the cluster as the sessions before left it, and `cuts TEXT` does so at every cut of the text into two pieces. Before
// them, and until they are set anew: `at READING` is the reading of the port, `clock READINGS` those of the session's clock, again and again, `readings
// NUMBER` in all; `server NUMBER` and `budget NUMBER`; `source_fails CALL` is the number of the read that fails, and `sink_fails CALLS`, `clock_fails CALLS`
// and `port_fails CALLS` list the calls that fail, `port_spends CALL` the one that finds all numbers drawn; `store_fails DEVICE CALLS`, counted from a
// device's opening, and `held DEVICE ..` stand for the whole case. The answer is, for each session, its end and how many events it made (and `astray` where a
// query wasn't asked for its actor, or a tick of the clock wasn't its call's number), and then what was written; of cuts, how many there are, and what was
// written, which is to be the same at each.
ghost use Rattle.std.specs.Prelude.{◌≡◌, ◌<◌, [], ◌∷◌, ◌++◌, length, All, IfOk, OnOk};
ghost use Rattle.keep_spec.specs.Times.{IsReading};
ghost use Rattle.keep_event.specs.World as world;
ghost use Rattle.keep_cluster.specs.Cluster.{HasDevices};

use crate::escapes::{add_escaped, unescaped};
use crate::parts::Parts;
use crate::watched::{WatchedClock, WatchedPort};
use keep_api::{SessionEnd, session};
use keep_base::ByteSink;
use keep_casebook::{Answer, Case, OutOfMemory, Setting, numbers_of, put_held};
use keep_clock::ListClock;
use keep_cluster::{Cluster, device_rules};
use keep_config::Config;
use keep_event::FailingPort;
use keep_store::MemoryStore;
use keep_volume::Volume;
use std::alloc::Global;

const READING_MAX: u64 = 3_999_999_999_999_999_999;

// How many readings a clock has, if that isn't set, and how many at most.
const READINGS: u64 = 64;

// Who asks in each session.
const ACTOR: u32 = 7;

// What a session runs with.
#[derive(Clone, Copy)]
struct Plan<'a> {
    at: u64,
    clock: &'a str,
    readings: u64,
    server: u32,
    budget: u64,
    source_fails: u64,
    sink_fails: &'a str,
    clock_fails: &'a str,
    port_fails: &'a str,
    port_spends: u64,
}

// A cluster of a configuration, and what the next session runs with.
#[derive(Drop)]
struct Desk<'a> {
    config: &'a Config,
    cluster: Cluster<'a, MemoryStore>,
    ghost same: { length cluster.config.devices ≡ length config.now.devices },
}

// What a session left.
#[derive(Drop)]
struct Ran<'a> {
    desk: Desk<'a>,
    end: SessionEnd,
    events: u64,
    is_astray: bool,
    text: Vec<u8>,
}

pub fn answer(alloc: Global, case: &Case, answer: &mut Answer) {
    let Ok(config) = Config::read(alloc, case.body()) else {
        return answer.value(b"no configuration");
    };
    if config.devices.len() != 2 {
        return answer.value(b"not two devices");
    }
    if answer_settings(alloc, case, &config, answer).is_err() {
        answer.cut();
    }
}

fn answer_settings(
    alloc: Global,
    case: &Case,
    config: &Config,
    answer: &mut Answer,
) -> Result<(), OutOfMemory>
    requires { length config.now.devices ≡ 2 }
{
    let volumes = devices(alloc, case, config)?;
    let cluster = Cluster::new(alloc, config, volumes);
    let mut desk = Desk { config, cluster };
    let mut plan = Plan {
        at: 0,
        clock: "",
        readings: READINGS,
        server: 0,
        budget: 1000,
        source_fails: 0,
        sink_fails: "",
        clock_fails: "",
        port_fails: "",
        port_spends: 0,
    };
    for setting in case.settings() {
        desk = match setting.key {
            "session" => answer_session(alloc, desk, plan, setting.value, answer)?,
            "cuts" => answer_cuts(alloc, desk, plan, setting.value, answer)?,
            _ => desk,
        };
        plan = planned(plan, *setting);
    }
    Ok(())
}

// The plan after a setting.
fn planned<'a>(plan: Plan<'a>, setting: Setting<'a>) -> Plan<'a> {
    let number = setting.value.parse::<u64>().unwrap_or(0);
    let mut plan = plan;
    match setting.key {
        "at" => plan.at = number,
        "clock" => plan.clock = setting.value,
        "readings" => plan.readings = number.min(READINGS),
        "server" => plan.server = u32::try_from(number).unwrap_or(u32::MAX),
        "budget" => plan.budget = number,
        "source_fails" => plan.source_fails = number,
        "sink_fails" => plan.sink_fails = setting.value,
        "clock_fails" => plan.clock_fails = setting.value,
        "port_fails" => plan.port_fails = setting.value,
        "port_spends" => plan.port_spends = number,
        _ => {}
    }
    plan
}

// The device of a number, by what the case says that its store holds.
fn device(
    alloc: Global,
    case: &Case,
    config: &Config,
    number: u32,
) -> Result<Volume<MemoryStore>, OutOfMemory>
    requires { number < length config.now.devices }
    ensures { IfOk result (λ v. v.rules ≡ world.device_rules config.now number) }
{
    let mut fails = "";
    for setting in case.settings() {
        let (device, rest) = setting.value.split_once(' ').unwrap_or(("", ""));
        if setting.key == "store_fails" && device.parse::<u32>() == Ok(number) {
            fails = rest;
        }
    }
    let mut store = MemoryStore::new(alloc, numbers_of(alloc, fails)?);
    for setting in case.settings() {
        let (device, rest) = setting.value.split_once(' ').unwrap_or(("", ""));
        if setting.key == "held" && device.parse::<u32>() == Ok(number) {
            put_held(alloc, &mut store, rest)?;
        }
    }
    match Volume::open(alloc, store, device_rules(config, number)) {
        Ok(volume) => Ok(volume),
        Err(_) => Err(OutOfMemory),
    }
}

fn pair(
    alloc: Global,
    first: Volume<MemoryStore>,
    second: Volume<MemoryStore>,
) -> Result<Vec<Volume<MemoryStore>>, OutOfMemory>
    ensures { IfOk result (λ v. v.items ≡ first ∷ second ∷ []) }
{
    let mut volumes = Vec::new(alloc);
    volumes.push(first)?;
    volumes.push(second)?;
    Ok(volumes)
}

fn devices(
    alloc: Global,
    case: &Case,
    config: &Config,
) -> Result<Vec<Volume<MemoryStore>>, OutOfMemory>
    requires { length config.now.devices ≡ 2 }
    ensures { IfOk result (λ v. HasDevices config.now v.items) }
{
    let first = device(alloc, case, config, 0)?;
    let second = device(alloc, case, config, 1)?;
    let volumes = pair(alloc, first, second)?;
    Ok(volumes)
}

fn push_reading(readings: &mut Vec<u64>, reading: u64) -> Result<(), OutOfMemory>
    requires { IsReading reading }
    ensures { OnOk result (readings.new.items ≡ readings.old.items ++ reading ∷ []) }
{
    readings.push(reading)?;
    Ok(())
}

// Readings of a clock: those of a text, again and again.
fn readings_of(alloc: Global, text: &str, count: u64) -> Result<Vec<u64>, OutOfMemory>
    ensures { IfOk result (λ v. All IsReading v.items) }
{
    let numbers = numbers_of(alloc, text)?;
    let mut readings = Vec::new(alloc);
    for i in 0..count {
        let at = i as usize % numbers.len().max(1);
        let number = numbers.get(at).copied().unwrap_or(0);
        push_reading(&mut readings, number.min(READING_MAX))?;
    }
    Ok(readings)
}

// The clock of a session.
fn clock(alloc: Global, plan: Plan<'_>) -> Result<WatchedClock, OutOfMemory> {
    let readings = readings_of(alloc, plan.clock, plan.readings)?;
    Ok(WatchedClock {
        clock: ListClock::new(readings, numbers_of(alloc, plan.clock_fails)?),
        calls: 0,
        astray: 0,
    })
}

// Answers the requests of some bytes, cut at a place.
fn run<'a>(
    alloc: Global,
    desk: Desk<'a>,
    plan: Plan<'_>,
    bytes: &[u8],
    cut: usize,
) -> Result<Ran<'a>, OutOfMemory>
    requires { plan.server < length desk.config.now.servers }
    ensures { IfOk result (λ r. r.desk.config.now ≡ desk.entry.config.now) }
{
    let Desk {
        config,
        mut cluster,
    } = desk;
    cluster.set_reading(plan.at.min(READING_MAX));
    let before = cluster.events();
    let mut source = Parts::new(bytes, cut, plan.source_fails);
    let mut sink = ByteSink::new(alloc, numbers_of(alloc, plan.sink_fails)?);
    let mut clock = clock(alloc, plan)?;
    let mut port = WatchedPort {
        port: FailingPort::new(cluster, numbers_of(alloc, plan.port_fails)?),
        actor: ACTOR,
        spends: plan.port_spends,
        calls: 0,
        spent: 0,
        others: 0,
    };
    let end = session(
        alloc,
        config,
        plan.server,
        ACTOR,
        plan.budget,
        &mut source,
        &mut sink,
        &mut port,
        &mut clock,
    );
    let WatchedPort { port, others, .. } = port;
    let cluster = port.into_port();
    let events = cluster.events().saturating_sub(before);
    let text = Vec::from_slice(alloc, sink.bytes())?;
    Ok(Ran {
        desk: Desk { config, cluster },
        end,
        events,
        is_astray: others > 0 || clock.astray > 0,
        text,
    })
}

fn answer_session<'a>(
    alloc: Global,
    desk: Desk<'a>,
    plan: Plan<'_>,
    text: &str,
    answer: &mut Answer,
) -> Result<Desk<'a>, OutOfMemory> {
    let config = desk.config;
    if plan.server as usize >= config.servers.len() {
        answer.value(b"no such server");
        return Ok(desk);
    }
    let bytes = unescaped(alloc, text.as_bytes())?;
    let ran = run(alloc, desk, plan, &bytes, 0)?;
    add_end(ran.end, answer);
    answer.text(b", events ");
    answer.number(ran.events);
    if ran.is_astray {
        answer.text(b", astray");
    }
    answer.note();
    add_escaped(&ran.text, answer);
    answer.end();
    Ok(ran.desk)
}

fn answer_cuts<'a>(
    alloc: Global,
    desk: Desk<'a>,
    plan: Plan<'_>,
    text: &str,
    answer: &mut Answer,
) -> Result<Desk<'a>, OutOfMemory> {
    let config = desk.config;
    if plan.server as usize >= config.servers.len() {
        answer.value(b"no such server");
        return Ok(desk);
    }
    let bytes = unescaped(alloc, text.as_bytes())?;
    let first = run(alloc, desk, plan, &bytes, 0)?;
    let mut cuts = 0u64;
    let mut desk = first.desk;
    for cut in 1..bytes.len() {
        let ran = run(alloc, desk, plan, &bytes, cut)?;
        if ran.text == first.text && ran.end == first.end && !ran.is_astray {
            cuts = cuts.saturating_add(1);
        }
        desk = ran.desk;
    }
    add_end(first.end, answer);
    answer.text(b", cuts ");
    answer.number(cuts);
    answer.note();
    add_escaped(&first.text, answer);
    answer.end();
    Ok(desk)
}

fn add_number(word: &[u8], number: u64, answer: &mut Answer) {
    answer.text(word);
    answer.text(b" ");
    answer.number(number);
}

fn add_end(end: SessionEnd, answer: &mut Answer) {
    match end {
        SessionEnd::Done => answer.text(b"Done"),
        SessionEnd::Budget { requests } => add_number(b"Budget", requests, answer),
        SessionEnd::ReadFault => answer.text(b"ReadFault"),
        SessionEnd::BadHead => answer.text(b"BadHead"),
        SessionEnd::LengthRequired => answer.text(b"LengthRequired"),
        SessionEnd::BodyTooLong { length } => add_number(b"BodyTooLong", length, answer),
        SessionEnd::CutBody => answer.text(b"CutBody"),
        SessionEnd::WriteFault => answer.text(b"WriteFault"),
        SessionEnd::ClockFault => answer.text(b"ClockFault"),
        SessionEnd::PortFault => answer.text(b"PortFault"),
        SessionEnd::Spent { drawn } => add_number(b"Spent", drawn, answer),
        SessionEnd::NoMemory => answer.text(b"NoMemory"),
    }
}
