// What a request asks.
ghost use Rattle.std.specs.Prelude.{◌≡◌, ◌<◌, IfOk, length, unwrap_or, [], codes};
ghost use Rattle.std.specs.Str.{bytes_eq};
ghost use Rattle.keep_spec.specs.Config.{Configuration};
ghost use Rattle.keep_event.specs.Lists.{lists_of};
ghost use Rattle.keep_history.specs.Script.{HasTimes};
ghost use Rattle.keep_history.specs.Tasks.{NamesWithin};
ghost use Rattle.keep_routes.specs.Paths.{IsPlaceWithin};
ghost use Rattle.keep_routes.specs.Bodies.{update_of};
ghost use Rattle.keep_routes.specs.Routes.{IsRouteWithin, block_route, by_system, collection_route, lists_by, lists_route, put_by, restore_route, route_at, route_of, save_route, starred_route, token_of, trash_route, untrash_route, update_by, version_route};

use crate::bodies::{save_of, times_of, update_of};
use crate::paths::place_of;
use crate::place::Place;
use crate::refusal::Refusal;
use keep_config::Config;
use keep_event::DeviceQuery;
use keep_history::Opening;
use keep_lists::{ListsError, read_lists};
use keep_spec::{Bytes, Digest, NoMemory};
use keep_wire::Request;
use std::alloc::Global;

/// What a request asks.
#[derive(Drop, Debug)]
pub enum Route {
    /// A task, which is asked to its end.
    Open(Opening),
    /// One query to a device, by its number in the configuration.
    Ask(u32, DeviceQuery),
    /// Nothing.
    Refuse(Refusal),
}

// A token; the empty one where there is none.
fn given(alloc: Global, token: Option<Bytes>) -> Bytes
    ensures { result ≡ unwrap_or token [] }
{
    match token {
        Some(token) => token,
        None => Bytes::of(Vec::new(alloc)),
    }
}

// The token of a request.
fn token_of(alloc: Global, request: Request) -> Bytes
    ensures { result ≡ token_of request }
{
    given(alloc, request.token)
}

fn has_method(request: &Request, method: &[u8]) -> bool
    ensures { result ≡ bytes_eq request.now.method method.now }
{
    request.method.as_slice() == method
}

fn token_text(request: &Request) -> &[u8]
    ensures { result.now ≡ token_of request.now }
{
    match &request.token {
        Some(token) => token.as_slice(),
        None => b"".as_slice(),
    }
}

// The route, where the request has the system token.
fn by_system(config: &Config, request: &Request, route: Route) -> Route
    ensures route { result ≡ by_system config.now request.now route }
    ensures within { (c : Configuration) → IsRouteWithin c route → IsRouteWithin c result }
{
    if token_text(request) == config.system_token.as_slice() {
        route
    } else {
        Route::Refuse(Refusal::Forbidden)
    }
}

fn put_by(alloc: Global, server: u32, request: Request, digest: Option<Digest>) -> Route
    ensures route { result ≡ put_by server request digest }
    ensures within { (c : Configuration) → server < length c.servers → IsRouteWithin c result }
{
    match digest {
        Some(digest) => Route::Open(Opening::Put {
            token: given(alloc, request.token),
            server,
            bytes: request.body,
            digest: Some(digest),
        }),
        None => Route::Refuse(Refusal::BadLocator),
    }
}

fn block_route(alloc: Global, server: u32, part: Bytes, request: Request) -> Route
    ensures route { result ≡ block_route server part request }
    ensures within { (c : Configuration) → server < length c.servers → IsRouteWithin c result }
{
    if has_method(&request, b"PUT") {
        put_by(alloc, server, request, Digest::read(part.as_slice()))
    } else if has_method(&request, b"GET") {
        Route::Open(Opening::Get {
            token: token_of(alloc, request),
            server,
            locator: part,
        })
    } else if has_method(&request, b"TOUCH") {
        Route::Open(Opening::Touch {
            token: token_of(alloc, request),
            server,
            locator: part,
        })
    } else {
        Route::Refuse(Refusal::BadMethod)
    }
}

fn untrash_route(alloc: Global, server: u32, digest: Digest, request: Request) -> Route
    ensures route { result ≡ untrash_route server digest request }
    ensures within { (c : Configuration) → server < length c.servers → IsRouteWithin c result }
{
    if !has_method(&request, b"PUT") {
        return Route::Refuse(Refusal::BadMethod);
    }
    Route::Open(Opening::Untrash {
        token: token_of(alloc, request),
        server,
        digest,
    })
}

fn save_route(alloc: Global, request: Request) -> Result<Route, NoMemory>
    ensures route { IfOk result (λ r. r ≡ save_route request) }
    ensures within { (c : Configuration) → IfOk result (IsRouteWithin c) }
{
    if !has_method(&request, b"POST") {
        return Ok(Route::Refuse(Refusal::BadMethod));
    }
    let token = given(alloc, request.token);
    match save_of(alloc, token, request.body.as_slice())? {
        Some(request) => Ok(Route::Open(Opening::Save { request })),
        None => Ok(Route::Refuse(Refusal::BadBody)),
    }
}

fn update_route(alloc: Global, uuid: Bytes, request: Request) -> Result<Route, NoMemory>
    ensures route { IfOk result (λ r. r ≡ update_by uuid (update_of (token_of request) request.body)) }
    ensures within { (c : Configuration) → IfOk result (IsRouteWithin c) }
{
    let token = given(alloc, request.token);
    match update_of(alloc, token, request.body.as_slice())? {
        Some(update) => Ok(Route::Open(Opening::Update {
            collection: uuid,
            preserve: update.preserve,
            request: update.request,
        })),
        None => Ok(Route::Refuse(Refusal::BadBody)),
    }
}

fn collection_route(alloc: Global, uuid: Bytes, request: Request) -> Result<Route, NoMemory>
    ensures route { IfOk result (λ r. r ≡ collection_route uuid request) }
    ensures within { (c : Configuration) → IfOk result (IsRouteWithin c) }
{
    if has_method(&request, b"PUT") {
        update_route(alloc, uuid, request)
    } else if has_method(&request, b"GET") {
        Ok(Route::Open(Opening::Read {
            token: token_of(alloc, request),
            collection: uuid,
            version: None,
        }))
    } else {
        Ok(Route::Refuse(Refusal::BadMethod))
    }
}

fn version_route(alloc: Global, uuid: Bytes, version: u64, request: Request) -> Route
    ensures route { result ≡ version_route uuid version request }
    ensures within { (c : Configuration) → IsRouteWithin c result }
{
    if !has_method(&request, b"GET") {
        return Route::Refuse(Refusal::BadMethod);
    }
    Route::Open(Opening::Read {
        token: token_of(alloc, request),
        collection: uuid,
        version: Some(version),
    })
}

fn trash_route(alloc: Global, uuid: Bytes, request: Request) -> Result<Route, NoMemory>
    ensures route { IfOk result (λ r. r ≡ trash_route uuid request) }
    ensures within { (c : Configuration) → IfOk result (IsRouteWithin c) }
{
    if !has_method(&request, b"POST") {
        return Ok(Route::Refuse(Refusal::BadMethod));
    }
    match times_of(alloc, request.body.as_slice())? {
        Some(times) => Ok(Route::Open(Opening::Trash {
            token: token_of(alloc, request),
            collection: uuid,
            trash_at: times.trash_at,
            delete_at: times.delete_at,
        })),
        None => Ok(Route::Refuse(Refusal::BadBody)),
    }
}

fn restore_route(alloc: Global, uuid: Bytes, request: Request) -> Route
    ensures route { result ≡ restore_route uuid request }
    ensures within { (c : Configuration) → IsRouteWithin c result }
{
    if !has_method(&request, b"POST") {
        return Route::Refuse(Refusal::BadMethod);
    }
    Route::Open(Opening::Restore {
        token: token_of(alloc, request),
        collection: uuid,
    })
}

// The route of a request that wants a method and the system token.
fn starred_route(config: &Config, method: &[u8], request: &Request, route: Route) -> Route
    ensures route { result ≡ starred_route config.now method.now request.now route }
    ensures within { IsRouteWithin config.now route → IsRouteWithin config.now result }
{
    if has_method(request, method) {
        by_system(config, request, route)
    } else {
        Route::Refuse(Refusal::BadMethod)
    }
}

fn lists_by(
    alloc: Global,
    config: &Config,
    device: u32,
    round: u64,
    body: &[u8],
) -> Result<Route, NoMemory>
    ensures route { IfOk result (λ r. r ≡ lists_by device round (lists_of config.now device body.now)) }
    ensures within { device < length config.now.devices → IfOk result (IsRouteWithin config.now) }
{
    match read_lists(alloc, body, config, device) {
        Ok(lists) => Ok(Route::Ask(device, DeviceQuery::Accept { round, lists })),
        Err(ListsError::BadList { .. }) => Ok(Route::Refuse(Refusal::BadList)),
        Err(ListsError::NoMemory) => Err(NoMemory),
    }
}

fn lists_route(
    alloc: Global,
    config: &Config,
    device: u32,
    round: u64,
    request: &Request,
) -> Result<Route, NoMemory>
    ensures route { IfOk result (λ r. r ≡ lists_route config.now device round request.now) }
    ensures within { device < length config.now.devices → IfOk result (IsRouteWithin config.now) }
{
    if !has_method(request, b"PUT") {
        return Ok(Route::Refuse(Refusal::BadMethod));
    }
    if token_text(request) != config.system_token.as_slice() {
        return Ok(Route::Refuse(Refusal::Forbidden));
    }
    lists_by(alloc, config, device, round, request.body.as_slice())
}

// What a request asks of a collection, a device or the cluster.
fn route_at(
    alloc: Global,
    config: &Config,
    server: u32,
    place: Place,
    request: Request,
) -> Result<Route, NoMemory>
    requires within { IsPlaceWithin config.now place }
    requires server { server < length config.now.servers }
    ensures route { IfOk result (λ r. r ≡ route_at config.now server place request) }
    ensures within { IfOk result (IsRouteWithin config.now) }
{
    let route = match place {
        Place::Block { part } => block_route(alloc, server, part, request),
        Place::Untrash { digest } => untrash_route(alloc, server, digest, request),
        Place::Collections => return save_route(alloc, request),
        Place::Collection { uuid } => return collection_route(alloc, uuid, request),
        Place::Version { uuid, version } => version_route(alloc, uuid, version, request),
        Place::Trash { uuid } => return trash_route(alloc, uuid, request),
        Place::Restore { uuid } => restore_route(alloc, uuid, request),
        Place::Page {
            device,
            round,
            prefix,
        } => {
            let query = DeviceQuery::Page { round, prefix };
            starred_route(config, b"GET", &request, Route::Ask(device, query))
        }
        Place::Clear { device, round } => {
            let query = DeviceQuery::Clear { round };
            starred_route(config, b"PUT", &request, Route::Ask(device, query))
        }
        Place::Lists { device, round } => {
            return lists_route(alloc, config, device, round, &request);
        }
        Place::Sweep => task_route(config, &request, Opening::Sweep),
        Place::Balance => task_route(config, &request, Opening::Balance),
        Place::TrashWorker { device } => {
            task_route(config, &request, Opening::TrashWorker { device })
        }
        Place::PullWorker { device } => {
            task_route(config, &request, Opening::PullWorker { device })
        }
        Place::EmptyWorker { device } => {
            task_route(config, &request, Opening::EmptyWorker { device })
        }
    };
    Ok(route)
}

// The route of a request that begins a task of the cluster.
fn task_route(config: &Config, request: &Request, opening: Opening) -> Route
    ensures route { result ≡ starred_route config.now (codes "POST") request.now (Route.Open opening) }
    ensures within { NamesWithin config.now opening → HasTimes opening → IsRouteWithin config.now result }
{
    starred_route(config, b"POST", request, Route::Open(opening))
}

/// What a request to a server asks.
#[tactic(auto, unfolding(crate::specs::Routes::route_of))]
pub fn route_of(
    alloc: Global,
    config: &Config,
    server: u32,
    request: Request,
) -> Result<Route, NoMemory>
    requires { server < length config.now.servers }
    ensures route { IfOk result (λ r. r ≡ route_of config.now server request) }
    ensures within { IfOk result (IsRouteWithin config.now) }
{
    match place_of(alloc, config, request.path.as_slice())? {
        Some(place) => route_at(alloc, config, server, place, request),
        None => Ok(Route::Refuse(Refusal::NoSuch)),
    }
}
