// Sessions over one connection.
ghost use Rattle.std.specs.Prelude.{◌≡◌, ◌<◌, ◌≤◌, ℕ, IsTrue, Err, None, length};
ghost use Rattle.keep_spec.specs.Causes.{Rose};
ghost use Rattle.keep_event.specs.Port.{NoneFalls, most_events};
ghost use Rattle.keep_wire.specs.Told.{requests_failed, requests_left, requests_name, requests_source};
ghost use Rattle.keep_routes.specs.Responses.{is_code};
ghost use Rattle.keep_api.specs.Sessions.{IsExchanged, IsRefused, IsSent, IsSession, bytes_of, seen, serving, told};

use crate::asking::ask_route;
use keep_base::{Sink, Source, WriteFault, write_all};
use keep_clock::Clock;
use keep_config::Config;
use keep_event::{Port, PortError};
use keep_routes::{error_response, route_of};
use keep_spec::NoMemory;
use keep_wire::{Request, Requests, Response, SessionEnd, WireError, write_response};
use std::alloc::Global;

// Writes a response.
fn send<W: Sink>(alloc: Global, response: &Response, sink: &mut W) -> Result<(), SessionEnd>
    requires { IsTrue (is_code response.now.status) }
    ensures sent { IsSent (bytes_of response.now) (W.taken sink.old) (W.taken sink.new) result }
    ensures never_falls { W.faults sink.old ≤ W.faults sink.new }
    ensures cause { result ≡ Err SessionEnd.WriteFault → Rose (W.faults sink.old) (W.faults sink.new) }
{
    let text = match write_response(alloc, response.status, response.body.as_slice()) {
        Ok(text) => text,
        Err(NoMemory) => return Err(SessionEnd::NoMemory),
    };
    match write_all(sink, text.as_slice()) {
        Ok(()) => Ok(()),
        Err(WriteFault) => Err(SessionEnd::WriteFault),
    }
}

// Writes the response to an error of the bytes, if it has one. Returns how the session ends.
fn refuse<W: Sink>(alloc: Global, error: WireError, sink: &mut W) -> SessionEnd
    ensures refused { IsRefused error (W.taken sink.old) (W.taken sink.new) result }
    ensures never_falls { W.faults sink.old ≤ W.faults sink.new }
    ensures cause { result ≡ SessionEnd.WriteFault → Rose (W.faults sink.old) (W.faults sink.new) }
{
    match error_response(alloc, error) {
        Ok(Some(response)) => match send(alloc, &response, sink) {
            Ok(()) => SessionEnd::from(error),
            Err(end) => end,
        },
        Ok(None) => SessionEnd::from(error),
        Err(NoMemory) => SessionEnd::NoMemory,
    }
}

// Answers the request of a number, and writes the response whole.
fn serve_one<W: Sink, P: Port, C: Clock>(
    alloc: Global,
    config: &Config,
    server: u32,
    actor: u32,
    number: u64,
    request: Request,
    sink: &mut W,
    port: &mut P,
    clock: &mut C,
) -> Result<(), SessionEnd>
    requires server { server < length config.now.servers }
    requires devices { P.devices port.old ≡ length config.now.devices }
    ensures exchanged { IsExchanged (serving config.now server actor) number request (told C.reading W.taken (seen P.told P.world P.stamp port.old) clock.old sink.old) (told C.reading W.taken (seen P.told P.world P.stamp port.new) clock.new sink.new) result }
    ensures sink_never_falls { W.faults sink.old ≤ W.faults sink.new }
    ensures clock_never_falls { C.faults clock.old ≤ C.faults clock.new }
    ensures port_never_falls { P.faults port.old ≤ P.faults port.new }
    ensures spent_never_falls { P.spent port.old ≤ P.spent port.new }
    ensures stores_never_fall { NoneFalls (P.store_faults port.old) (P.store_faults port.new) }
    ensures devices { P.devices port.new ≡ P.devices port.old }
    ensures write { result ≡ Err SessionEnd.WriteFault → Rose (W.faults sink.old) (W.faults sink.new) }
    ensures clock { result ≡ Err SessionEnd.ClockFault → Rose (C.faults clock.old) (C.faults clock.new) }
    ensures port { result ≡ Err SessionEnd.PortFault → Rose (P.faults port.old) (P.faults port.new) }
    ensures spent { (drawn : ℕ) → result ≡ Err (SessionEnd.Spent drawn) → Rose (P.spent port.old) (P.spent port.new) }
    ensures drawn { (drawn : ℕ) → result ≡ Err (SessionEnd.Spent drawn) → drawn ≡ most_events }
{
    let reading = match clock.now(number) {
        Ok(reading) => reading,
        Err(_) => return Err(SessionEnd::ClockFault),
    };
    let route = match route_of(alloc, config, server, request) {
        Ok(route) => route,
        Err(NoMemory) => return Err(SessionEnd::NoMemory),
    };
    let response = match ask_route(alloc, config, actor, reading, route, port) {
        Ok(response) => response,
        Err(PortError::Failed) => return Err(SessionEnd::PortFault),
        Err(PortError::Spent { drawn }) => return Err(SessionEnd::Spent { drawn }),
        Err(PortError::NoMemory) => return Err(SessionEnd::NoMemory),
    };
    send(alloc, &response, sink)
}

// Answers the requests one after another, `budget` of them at most.
fn serve<R: Source, W: Sink, P: Port, C: Clock>(
    alloc: Global,
    config: &Config,
    server: u32,
    actor: u32,
    budget: u64,
    requests: &mut Requests<'_, R>,
    sink: &mut W,
    port: &mut P,
    clock: &mut C,
) -> SessionEnd
    requires server { server < length config.now.servers }
    requires devices { P.devices port.old ≡ length config.now.devices }
    requires unfailed { requests_failed requests.old ≡ None }
    ensures session { IsSession (serving config.now server actor) budget (requests_left requests.old) (told C.reading W.taken (seen P.told P.world P.stamp port.old) clock.old sink.old) (told C.reading W.taken (seen P.told P.world P.stamp port.new) clock.new sink.new) result }
    ensures same_reference { requests_name requests.new ≡ requests_name requests.old }
    ensures source_never_falls { R.faults (requests_source requests.old) ≤ R.faults (requests_source requests.new) }
    ensures sink_never_falls { W.faults sink.old ≤ W.faults sink.new }
    ensures clock_never_falls { C.faults clock.old ≤ C.faults clock.new }
    ensures port_never_falls { P.faults port.old ≤ P.faults port.new }
    ensures spent_never_falls { P.spent port.old ≤ P.spent port.new }
    ensures stores_never_fall { NoneFalls (P.store_faults port.old) (P.store_faults port.new) }
    ensures devices { P.devices port.new ≡ P.devices port.old }
    ensures read { result ≡ SessionEnd.ReadFault → Rose (R.faults (requests_source requests.old)) (R.faults (requests_source requests.new)) }
    ensures write { result ≡ SessionEnd.WriteFault → Rose (W.faults sink.old) (W.faults sink.new) }
    ensures clock { result ≡ SessionEnd.ClockFault → Rose (C.faults clock.old) (C.faults clock.new) }
    ensures port { result ≡ SessionEnd.PortFault → Rose (P.faults port.old) (P.faults port.new) }
    ensures spent { (drawn : ℕ) → result ≡ SessionEnd.Spent drawn → Rose (P.spent port.old) (P.spent port.new) }
    ensures drawn { (drawn : ℕ) → result ≡ SessionEnd.Spent drawn → drawn ≡ most_events }
{
    for number in 0..budget {
        let request = match requests.next() {
            Ok(Some(request)) => request,
            Ok(None) => return SessionEnd::Done,
            Err(error) => return refuse(alloc, error, sink),
        };
        let closes = request.close;
        match serve_one(
            alloc, config, server, actor, number, request, sink, port, clock,
        ) {
            Ok(()) => {}
            Err(end) => return end,
        }
        if closes {
            return SessionEnd::Done;
        }
    }
    SessionEnd::Budget { requests: budget }
}

/// Answers the requests of a source as a server of the configuration, `budget` of them at most, one after another: each is read whole, asked of the port to
/// its end for this actor, and its response written whole, before the next is read. The clock is read once for each, at the request's number from 0 as the
/// tick; its reading is that at which a task is opened. An error of the bytes is answered too, and ends the session. The source may have been read past the
/// last request. Nothing is asked after a request that closes.
///
/// A fault comes only where the count of the object that failed rose. After `ReadFault` and `ClockFault` everything before is whole. After `PortFault`,
/// `Spent` and `NoMemory` the first events of one more request may have been made, of which nothing is written; after `WriteFault` all of them, and a
/// prefix of the response is written. `NoMemory` is the only error that every contract permits; a task that would ask more than 2^64 - 1 times has it too.
pub fn session<R: Source, W: Sink, P: Port, C: Clock>(
    alloc: Global,
    config: &Config,
    server: u32,
    actor: u32,
    budget: u64,
    source: &mut R,
    sink: &mut W,
    port: &mut P,
    clock: &mut C,
) -> SessionEnd
    requires server { server < length config.now.servers }
    requires devices { P.devices port.old ≡ length config.now.devices }
    ensures session { IsSession (serving config.now server actor) budget (R.left source.old) (told C.reading W.taken (seen P.told P.world P.stamp port.old) clock.old sink.old) (told C.reading W.taken (seen P.told P.world P.stamp port.new) clock.new sink.new) result }
    ensures source_never_falls { R.faults source.old ≤ R.faults source.new }
    ensures sink_never_falls { W.faults sink.old ≤ W.faults sink.new }
    ensures clock_never_falls { C.faults clock.old ≤ C.faults clock.new }
    ensures port_never_falls { P.faults port.old ≤ P.faults port.new }
    ensures spent_never_falls { P.spent port.old ≤ P.spent port.new }
    ensures stores_never_fall { NoneFalls (P.store_faults port.old) (P.store_faults port.new) }
    ensures devices { P.devices port.new ≡ P.devices port.old }
    ensures read { result ≡ SessionEnd.ReadFault → Rose (R.faults source.old) (R.faults source.new) }
    ensures write { result ≡ SessionEnd.WriteFault → Rose (W.faults sink.old) (W.faults sink.new) }
    ensures clock { result ≡ SessionEnd.ClockFault → Rose (C.faults clock.old) (C.faults clock.new) }
    ensures port { result ≡ SessionEnd.PortFault → Rose (P.faults port.old) (P.faults port.new) }
    ensures spent { (drawn : ℕ) → result ≡ SessionEnd.Spent drawn → Rose (P.spent port.old) (P.spent port.new) }
    ensures drawn { (drawn : ℕ) → result ≡ SessionEnd.Spent drawn → drawn ≡ most_events }
{
    let mut requests = Requests::new(alloc, source);
    let end = serve(
        alloc,
        config,
        server,
        actor,
        budget,
        &mut requests,
        sink,
        port,
        clock,
    );
    let _source = requests.into_source();
    end
}
