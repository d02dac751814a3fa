// Tasks over a cluster: the first line of the input is a configuration, and each further one a reading and what is asked: `put SERVER TOKEN BYTES`,
// `get SERVER TOKEN LOCATOR`, `touch SERVER TOKEN LOCATOR`, `untrash SERVER TOKEN BLOCK`, `restart DEVICE`, or a query of the table as in `tables`. Bytes and blocks
// are texts. Settings: `port_fails` lists the calls of the port that fail, counted anew for each line, `fails DEVICE CALLS` the calls of a device's store, and
// `held DEVICE ..` is what it holds. The answer is the printed line of each step's event, `t failed` for a step that failed, the line of the task's end, and at last what
// the stores hold.
ghost use Rattle.std.specs.Prelude.{◌≡◌, ◌<◌, length};
ghost use Rattle.keep_event.specs.Requests.{MayAskTable};
ghost use Rattle.keep_history.specs.Tasks.{is_task_query};

use crate::devices::digest_of;
use crate::tables::query_of;
use crate::volumes::volumes_of;
use keep_casebook::{Answer, Case, OutOfMemory, answer_store, numbers_of};
use keep_cluster::Cluster;
use keep_config::Config;
use keep_event::{Answer as Reply, FailingPort, Port, PortError, Query, TableQuery};
use keep_history::Outcome;
use keep_script::{push_end_line, push_event_line, push_table_event_line};
use keep_spec::{Bytes, NoMemory};
use keep_steps::{Opened, Step, Steps};
use keep_store::MemoryStore;
use keep_tasks::{GetTask, PutTask, RestartTask, TableTask, TouchTask, UntrashTask};
use std::alloc::Global;
use std::str::from_utf8;

const READING_MAX: u64 = 3_999_999_999_999_999_999;

// The name of each line's task.
const NAME: &[u8] = b"t";

// The most steps of a line, since a port may fail at each.
const MOST_STEPS: u32 = 100;

// A cluster of a configuration.
#[derive(Drop)]
struct Desk<'a> {
    config: &'a Config,
    cluster: Cluster<'a, MemoryStore>,
    ghost same: { length cluster.config.devices ≡ length config.now.devices },
}

pub fn answer(alloc: Global, case: &Case, answer: &mut Answer) {
    let mut lines = case.body().split(|byte| *byte == b'\n');
    let first = lines.next().unwrap_or(b"");
    let Ok(config) = Config::read(alloc, first) else {
        return answer.value(b"no configuration");
    };
    if answer_lines(alloc, case, &config, answer).is_err() {
        answer.cut();
    }
}

// What the lines after the configuration make, and what the stores hold then.
fn answer_lines(
    alloc: Global,
    case: &Case,
    config: &Config,
    answer: &mut Answer,
) -> Result<(), OutOfMemory> {
    let fails = numbers_of(alloc, case.value("port_fails").unwrap_or(""))?;
    let volumes = volumes_of(alloc, case, config)?;
    let cluster = Cluster::new(alloc, config, volumes);
    let mut desk = Desk { config, cluster };
    for line in case.body().split(|byte| *byte == b'\n').skip(1) {
        let line = from_utf8(line).unwrap_or("");
        desk = desk.after_line(alloc, &fails, line, answer)?;
    }
    let Desk { config: _, cluster } = desk;
    let mut number = 0u64;
    for volume in cluster.into_volumes() {
        answer_store(number, &mut volume.into_store(), answer);
        number = number.saturating_add(1);
    }
    Ok(())
}

impl<'a> Desk<'a> {
    // The cluster after a line.
    fn after_line(
        self,
        alloc: Global,
        fails: &[u64],
        line: &str,
        answer: &mut Answer,
    ) -> Result<Desk<'a>, OutOfMemory> {
        let Desk {
            config,
            mut cluster,
        } = self;
        let (reading, asked) = line.split_once(' ').unwrap_or((line, ""));
        let reading = reading.parse::<u64>().unwrap_or(0).min(READING_MAX);
        cluster.set_reading(reading);
        let mut port = FailingPort::new(cluster, Vec::from_slice(alloc, fails)?);
        answer_asked(alloc, config, &mut port, reading, asked, answer)?;
        let cluster = port.into_port();
        Ok(Desk { config, cluster })
    }
}

// What a line asks of a port of the configuration's devices.
fn answer_asked<P: Port>(
    alloc: Global,
    config: &Config,
    port: &mut P,
    reading: u64,
    asked: &str,
    answer: &mut Answer,
) -> Result<(), OutOfMemory>
    requires { P.devices port.old ≡ length config.now.devices }
    ensures { P.devices port.new ≡ P.devices port.old }
{
    let (kind, rest) = asked.split_once(' ').unwrap_or((asked, ""));
    if kind == "restart" {
        return answer_restart(alloc, config, port, rest, answer);
    }
    if !matches!(kind, "put" | "get" | "touch" | "untrash") {
        return answer_table(alloc, config, port, asked, answer);
    }
    let (server, rest) = rest.split_once(' ').unwrap_or((rest, ""));
    let (token, what) = rest.split_once(' ').unwrap_or((rest, ""));
    let server = server.parse::<u32>().unwrap_or(u32::MAX);
    if server as usize >= config.servers.len() {
        answer.value(b"no such server");
        return Ok(());
    }
    match kind {
        "put" => answer_put(alloc, config, port, server, token, what, answer),
        "get" => answer_get(alloc, config, port, server, token, what, reading, answer),
        "touch" => answer_touch(alloc, config, port, server, token, what, reading, answer),
        _ => answer_untrash(alloc, config, port, server, token, what, answer),
    }
}

fn answer_put<P: Port>(
    alloc: Global,
    config: &Config,
    port: &mut P,
    server: u32,
    token: &str,
    bytes: &str,
    answer: &mut Answer,
) -> Result<(), OutOfMemory>
    requires within { server < length config.now.servers }
    requires devices { P.devices port.old ≡ length config.now.devices }
    ensures { P.devices port.new ≡ P.devices port.old }
{
    let token = Bytes::of(Vec::from_slice(alloc, token.as_bytes())?);
    let bytes = Bytes::of(Vec::from_slice(alloc, bytes.as_bytes())?);
    match PutTask::open(alloc, config, server, token, bytes, None)? {
        Opened::Task(mut task) => go_on(alloc, &mut task, port, answer),
        Opened::Ended(end) => answer_end(alloc, &end, answer),
    }
    Ok(())
}

fn answer_get<P: Port>(
    alloc: Global,
    config: &Config,
    port: &mut P,
    server: u32,
    token: &str,
    locator: &str,
    reading: u64,
    answer: &mut Answer,
) -> Result<(), OutOfMemory>
    requires within { server < length config.now.servers }
    requires devices { P.devices port.old ≡ length config.now.devices }
    ensures { P.devices port.new ≡ P.devices port.old }
{
    let (token, locator) = (token.as_bytes(), locator.as_bytes());
    match GetTask::open(alloc, config, server, token, locator, reading)? {
        Opened::Task(mut task) => go_on(alloc, &mut task, port, answer),
        Opened::Ended(end) => answer_end(alloc, &end, answer),
    }
    Ok(())
}

fn answer_touch<P: Port>(
    alloc: Global,
    config: &Config,
    port: &mut P,
    server: u32,
    token: &str,
    locator: &str,
    reading: u64,
    answer: &mut Answer,
) -> Result<(), OutOfMemory>
    requires within { server < length config.now.servers }
    requires devices { P.devices port.old ≡ length config.now.devices }
    ensures { P.devices port.new ≡ P.devices port.old }
{
    let token = Bytes::of(Vec::from_slice(alloc, token.as_bytes())?);
    match TouchTask::open(alloc, config, server, token, locator.as_bytes(), reading)? {
        Opened::Task(mut task) => go_on(alloc, &mut task, port, answer),
        Opened::Ended(end) => answer_end(alloc, &end, answer),
    }
    Ok(())
}

fn answer_untrash<P: Port>(
    alloc: Global,
    config: &Config,
    port: &mut P,
    server: u32,
    token: &str,
    block: &str,
    answer: &mut Answer,
) -> Result<(), OutOfMemory>
    requires within { server < length config.now.servers }
    requires devices { P.devices port.old ≡ length config.now.devices }
    ensures { P.devices port.new ≡ P.devices port.old }
{
    let Some(digest) = digest_of(alloc, block)? else {
        answer.value(b"no block");
        return Ok(());
    };
    match UntrashTask::open(alloc, config, server, token.as_bytes(), digest)? {
        Opened::Task(mut task) => go_on(alloc, &mut task, port, answer),
        Opened::Ended(end) => answer_end(alloc, &end, answer),
    }
    Ok(())
}

fn answer_restart<P: Port>(
    alloc: Global,
    config: &Config,
    port: &mut P,
    device: &str,
    answer: &mut Answer,
) -> Result<(), OutOfMemory>
    requires { P.devices port.old ≡ length config.now.devices }
    ensures { P.devices port.new ≡ P.devices port.old }
{
    let device = device.parse::<u32>().unwrap_or(u32::MAX);
    if device as usize >= config.devices.len() {
        answer.value(b"no such device");
        return Ok(());
    }
    match RestartTask::open(config, device) {
        Opened::Task(mut task) => go_on(alloc, &mut task, port, answer),
        Opened::Ended(end) => answer_end(alloc, &end, answer),
    }
    Ok(())
}

fn is_task_query(query: &TableQuery) -> bool
    ensures { result ≡ is_task_query query.now }
{
    match query {
        TableQuery::BeginRound => false,
        TableQuery::Scan { .. } => false,
        _ => true,
    }
}

fn answer_table<P: Port>(
    alloc: Global,
    config: &Config,
    port: &mut P,
    asked: &str,
    answer: &mut Answer,
) -> Result<(), OutOfMemory>
    requires { P.devices port.old ≡ length config.now.devices }
    ensures { P.devices port.new ≡ P.devices port.old }
{
    let Some(query) = query_of(alloc, asked)? else {
        answer.value(b"no query");
        return Ok(());
    };
    if !is_task_query(&query) {
        answer.value(b"no task");
        return Ok(());
    }
    match TableTask::open(alloc, config, query)? {
        Opened::Task(mut task) => go_on(alloc, &mut task, port, answer),
        Opened::Ended(end) => answer_end(alloc, &end, answer),
    }
    Ok(())
}

// Steps until the task ends; after a step that failed the same step again.
fn go_on<T: Steps, P: Port>(alloc: Global, task: &mut T, port: &mut P, answer: &mut Answer)
    requires { T.may_ask task.old (P.devices port.old) }
    ensures { P.devices port.new ≡ P.devices port.old }
{
    for _ in 0..MOST_STEPS {
        if task.ended() {
            return;
        }
        let device = device_of(task.query());
        match task.step(0, port) {
            Ok(step) => answer_step(alloc, device, &step, answer),
            Err(PortError::NoMemory) => answer.cut(),
            Err(_) => answer.value(b"t failed"),
        }
    }
}

// The device that a query asks, where it asks one.
fn device_of(query: &Query) -> u32 {
    match query {
        Query::Device(device, _) => *device,
        Query::Table(_) => u32::MAX,
    }
}

// The lines of a step.
fn answer_step(alloc: Global, device: u32, step: &Step, answer: &mut Answer) {
    let mut line = Vec::new(alloc);
    let printed = match &step.reply.answer {
        Reply::Device(reply) => push_event_line(&mut line, NAME, device, reply),
        Reply::Table(reply) => push_table_event_line(&mut line, NAME, reply),
    };
    if let Err(NoMemory) = printed {
        return answer.cut();
    }
    answer.output(&line);
    if let Some(end) = &step.end {
        answer_end(alloc, end, answer);
    }
}

fn answer_end(alloc: Global, end: &Outcome, answer: &mut Answer) {
    let mut line = Vec::new(alloc);
    match push_end_line(&mut line, NAME, end) {
        Ok(()) => answer.output(&line),
        Err(NoMemory) => answer.cut(),
    }
}
