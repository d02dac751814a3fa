// What a request asks of a port, and its response.
ghost use Rattle.std.specs.Prelude.{◌≡◌, ◌<◌, ◌≤◌, ℕ, List, [], false, IfOk, IsTrue, Err, length};
ghost use Rattle.keep_spec.specs.Causes.{Rose};
ghost use Rattle.keep_spec.specs.Config.{Configuration};
ghost use Rattle.keep_event.specs.Port.{NoneFalls, most_events};
ghost use Rattle.keep_history.specs.Next.{Answered, Next};
ghost use Rattle.keep_history.specs.Script.{HasTimes};
ghost use Rattle.keep_history.specs.Tasks.{NamesWithin};
ghost use Rattle.keep_routes.specs.Responses.{is_code};
ghost use Rattle.keep_routes.specs.Routes.{IsRouteWithin};
ghost use Rattle.keep_api.specs.Sessions.{IsFinished, IsOutcome, IsRouted, seen, serving, uuid_of};

use keep_config::Config;
use keep_event::{DeviceQuery, Port, PortError, Query};
use keep_history::{Opening, Outcome};
use keep_routes::{Route, outcome_response, refusal_response, reply_response};
use keep_running::open_any;
use keep_spec::{Bytes, NoMemory};
use keep_steps::{Opened, Step, Steps};
use keep_wire::Response;
use std::alloc::Global;

/// Asks a task to its end. A task that would ask more than 2^64 - 1 times ends with `NoMemory`; a cluster makes at most 2^40 events.
pub(crate) fn finish<T: Steps + Drop, P: Port>(
    task: T,
    actor: u32,
    port: &mut P,
) -> Result<Outcome, PortError>
    requires open { T.has_ended task ≡ false }
    requires askable { T.may_ask task (P.devices port.old) }
    ensures finished { (next : List Answered → Next) → T.stands task next [] → IsFinished actor next (seen P.told P.world P.stamp port.old) (seen P.told P.world P.stamp port.new) result }
    ensures failed { result ≡ Err PortError.Failed → Rose (P.faults port.old) (P.faults port.new) }
    ensures spent { (drawn : ℕ) → result ≡ Err (PortError.Spent drawn) → Rose (P.spent port.old) (P.spent port.new) }
    ensures drawn { (drawn : ℕ) → result ≡ Err (PortError.Spent drawn) → drawn ≡ most_events }
    ensures faults { P.faults port.old ≤ P.faults port.new }
    ensures spents { P.spent port.old ≤ P.spent port.new }
    ensures store_faults { NoneFalls (P.store_faults port.old) (P.store_faults port.new) }
    ensures devices { P.devices port.new ≡ P.devices port.old }
{
    let mut left = task;
    for _ in 0..u64::MAX {
        let Step { reply: _, end } = match left.step(actor, port) {
            Ok(step) => step,
            Err(error) => return Err(error),
        };
        match end {
            Some(outcome) => return Ok(outcome),
            None => {}
        }
    }
    Err(PortError::NoMemory)
}

// The collection whose text an opening reads.
fn uuid_of(alloc: Global, opening: &Opening) -> Result<Bytes, NoMemory>
    ensures { IfOk result (λ b. b ≡ uuid_of opening.now) }
{
    match opening {
        Opening::Read { collection, .. } => Bytes::copy_of(alloc, collection.as_slice()),
        _ => Ok(Bytes::of(Vec::new(alloc))),
    }
}

// Opens a task, and asks it to its end.
fn outcome_of<P: Port>(
    alloc: Global,
    config: &Config,
    actor: u32,
    reading: u64,
    opening: Opening,
    port: &mut P,
) -> Result<Outcome, PortError>
    requires within { NamesWithin config.now opening }
    requires times { HasTimes opening }
    requires devices { P.devices port.old ≡ length config.now.devices }
    ensures asked { (server : ℕ) → IsOutcome (serving config.now server actor) reading opening (seen P.told P.world P.stamp port.old) (seen P.told P.world P.stamp port.new) result }
    ensures failed { result ≡ Err PortError.Failed → Rose (P.faults port.old) (P.faults port.new) }
    ensures spent { (drawn : ℕ) → result ≡ Err (PortError.Spent drawn) → Rose (P.spent port.old) (P.spent port.new) }
    ensures drawn { (drawn : ℕ) → result ≡ Err (PortError.Spent drawn) → drawn ≡ most_events }
    ensures faults { P.faults port.old ≤ P.faults port.new }
    ensures spents { P.spent port.old ≤ P.spent port.new }
    ensures store_faults { NoneFalls (P.store_faults port.old) (P.store_faults port.new) }
    ensures devices { P.devices port.new ≡ P.devices port.old }
{
    match open_any(alloc, config, opening, reading) {
        Ok(Opened::Task(task)) => finish(task, actor, port),
        Ok(Opened::Ended(outcome)) => Ok(outcome),
        Err(NoMemory) => Err(PortError::NoMemory),
    }
}

fn open_route<P: Port>(
    alloc: Global,
    config: &Config,
    actor: u32,
    reading: u64,
    opening: Opening,
    port: &mut P,
) -> Result<Response, PortError>
    requires within { NamesWithin config.now opening }
    requires times { HasTimes opening }
    requires devices { P.devices port.old ≡ length config.now.devices }
    ensures routed { (server : ℕ) → IsRouted (serving config.now server actor) reading (Route.Open opening) (seen P.told P.world P.stamp port.old) (seen P.told P.world P.stamp port.new) result }
    ensures code { IfOk result (λ r. IsTrue (is_code r.status)) }
    ensures failed { result ≡ Err PortError.Failed → Rose (P.faults port.old) (P.faults port.new) }
    ensures spent { (drawn : ℕ) → result ≡ Err (PortError.Spent drawn) → Rose (P.spent port.old) (P.spent port.new) }
    ensures drawn { (drawn : ℕ) → result ≡ Err (PortError.Spent drawn) → drawn ≡ most_events }
    ensures faults { P.faults port.old ≤ P.faults port.new }
    ensures spents { P.spent port.old ≤ P.spent port.new }
    ensures store_faults { NoneFalls (P.store_faults port.old) (P.store_faults port.new) }
    ensures devices { P.devices port.new ≡ P.devices port.old }
{
    let uuid = match uuid_of(alloc, &opening) {
        Ok(uuid) => uuid,
        Err(NoMemory) => return Err(PortError::NoMemory),
    };
    let outcome = outcome_of(alloc, config, actor, reading, opening, port)?;
    match outcome_response(alloc, uuid.as_slice(), outcome) {
        Ok(response) => Ok(response),
        Err(NoMemory) => Err(PortError::NoMemory),
    }
}

// Asks a device once.
fn ask_device<P: Port>(
    alloc: Global,
    actor: u32,
    device: u32,
    query: DeviceQuery,
    port: &mut P,
) -> Result<Response, PortError>
    requires { device < P.devices port.old }
    ensures routed { (config : Configuration) → (server reading : ℕ) → IsRouted (serving config server actor) reading (Route.Ask device query) (seen P.told P.world P.stamp port.old) (seen P.told P.world P.stamp port.new) result }
    ensures code { IfOk result (λ r. IsTrue (is_code r.status)) }
    ensures failed { result ≡ Err PortError.Failed → Rose (P.faults port.old) (P.faults port.new) }
    ensures spent { (drawn : ℕ) → result ≡ Err (PortError.Spent drawn) → Rose (P.spent port.old) (P.spent port.new) }
    ensures drawn { (drawn : ℕ) → result ≡ Err (PortError.Spent drawn) → drawn ≡ most_events }
    ensures faults { P.faults port.old ≤ P.faults port.new }
    ensures spents { P.spent port.old ≤ P.spent port.new }
    ensures store_faults { NoneFalls (P.store_faults port.old) (P.store_faults port.new) }
    ensures devices { P.devices port.new ≡ P.devices port.old }
{
    let query = Query::Device(device, query);
    let reply = match port.ask(actor, &query) {
        Ok(reply) => reply,
        Err(error) => return Err(error),
    };
    match reply_response(alloc, &reply.answer) {
        Ok(response) => Ok(response),
        Err(NoMemory) => Err(PortError::NoMemory),
    }
}

/// Does what a request asks, at a reading of the clock. After an error the first of its events may have been made.
pub(crate) fn ask_route<P: Port>(
    alloc: Global,
    config: &Config,
    actor: u32,
    reading: u64,
    route: Route,
    port: &mut P,
) -> Result<Response, PortError>
    requires within { IsRouteWithin config.now route }
    requires devices { P.devices port.old ≡ length config.now.devices }
    ensures routed { (server : ℕ) → IsRouted (serving config.now server actor) reading route (seen P.told P.world P.stamp port.old) (seen P.told P.world P.stamp port.new) result }
    ensures code { IfOk result (λ r. IsTrue (is_code r.status)) }
    ensures failed { result ≡ Err PortError.Failed → Rose (P.faults port.old) (P.faults port.new) }
    ensures spent { (drawn : ℕ) → result ≡ Err (PortError.Spent drawn) → Rose (P.spent port.old) (P.spent port.new) }
    ensures drawn { (drawn : ℕ) → result ≡ Err (PortError.Spent drawn) → drawn ≡ most_events }
    ensures faults { P.faults port.old ≤ P.faults port.new }
    ensures spents { P.spent port.old ≤ P.spent port.new }
    ensures store_faults { NoneFalls (P.store_faults port.old) (P.store_faults port.new) }
    ensures devices { P.devices port.new ≡ P.devices port.old }
{
    match route {
        Route::Open(opening) => open_route(alloc, config, actor, reading, opening, port),
        Route::Ask(device, query) => ask_device(alloc, actor, device, query, port),
        Route::Refuse(refusal) => match refusal_response(alloc, refusal) {
            Ok(response) => Ok(response),
            Err(NoMemory) => Err(PortError::NoMemory),
        },
    }
}
