// The responses to ends and refusals.
ghost use Rattle.std.specs.Prelude.{◌≡◌, ◌++◌, IfOk, IfSome, IsTrue, decimal};
ghost use Rattle.std.specs.Str.{is_utf8};
ghost use Rattle.keep_routes.specs.Responses as responses;
ghost use Rattle.keep_routes.specs.Responses.{is_code, json_saved, newline, refused, respond, row_response, times_text, words};

use crate::refusal::Refusal;
use crate::writing::{row_text, saved_text, times_text};
use itoa::Buffer;
use keep_event::{Answer, DeviceAnswer};
use keep_history::Outcome;
use keep_lists::write_index;
use keep_script::push_end_line;
use keep_spec::{Bytes, NoMemory, Portable};
use keep_wire::{Response, WireError};
use std::alloc::Global;
use std::str;

/// How many bytes stand between a task's name and its end in the line of the end: ` = `.
const MARK_SIZE: usize = 3;

// A body with status 200.
fn ok(body: Bytes) -> Response
    ensures response { result ≡ respond 200 body }
    ensures code { IsTrue (is_code result.status) }
{
    Response { status: 200, body }
}

// A text, and a newline.
fn line(alloc: Global, text: &[u8]) -> Result<Bytes, NoMemory>
    ensures { IfOk result (λ b. b ≡ text.now ++ newline) }
{
    let mut body = Vec::from_slice(alloc, text)?;
    body.extend_from_slice(b"\n")?;
    Ok(Bytes::of(body))
}

// A code, and a word with a newline.
fn refused(alloc: Global, status: u16, word: &[u8]) -> Result<Response, NoMemory>
    requires { IsTrue (is_code status) }
    ensures response { IfOk result (λ r. r ≡ refused status word.now) }
    ensures code { IfOk result (λ r. IsTrue (is_code r.status)) }
{
    Ok(Response {
        status,
        body: line(alloc, word)?,
    })
}

/// The response to a request that asks nothing.
pub fn refusal_response(alloc: Global, refusal: Refusal) -> Result<Response, NoMemory>
    ensures response { IfOk result (λ r. r ≡ responses.refusal_response refusal) }
    ensures code { IfOk result (λ r. IsTrue (is_code r.status)) }
{
    match refusal {
        Refusal::NoSuch => refused(alloc, 404, b"NoSuch"),
        Refusal::BadMethod => refused(alloc, 405, b"BadMethod"),
        Refusal::Forbidden => refused(alloc, 403, b"Forbidden"),
        Refusal::BadLocator => refused(alloc, 400, b"BadLocator"),
        Refusal::BadBody => refused(alloc, 400, b"BadBody"),
        Refusal::BadList => refused(alloc, 400, b"BadList"),
    }
}

/// The response before a session ends with an error of its bytes. There is none to a source that failed, nor where memory was refused.
pub fn error_response(alloc: Global, error: WireError) -> Result<Option<Response>, NoMemory>
    ensures response { IfOk result (λ r. r ≡ responses.error_response error) }
    ensures code { IfOk result (λ o. IfSome o (λ r. IsTrue (is_code r.status))) }
{
    let response = match error {
        WireError::BadHead => refused(alloc, 400, b"BadHead")?,
        WireError::LengthRequired => refused(alloc, 411, b"LengthRequired")?,
        WireError::BodyTooLong { .. } => refused(alloc, 413, b"BodyTooLong")?,
        WireError::CutBody => refused(alloc, 400, b"CutBody")?,
        WireError::ReadFault | WireError::NoMemory => return Ok(None),
    };
    Ok(Some(response))
}

// The end's word and its fields, as a script's run prints them after the task's name.
#[tactic(auto, unfolding(keep_history::specs::Printed::end_line))]
fn words(alloc: Global, outcome: &Outcome) -> Result<Response, NoMemory>
    ensures response { IfOk result (λ r. r ≡ words outcome.now) }
    ensures code { IfOk result (λ r. IsTrue (is_code r.status)) }
{
    let mut line = Vec::new(alloc);
    push_end_line(&mut line, b"", outcome)?;
    Ok(ok(Bytes::copy_of(alloc, &line[MARK_SIZE..])?))
}

fn saved_response(
    alloc: Global,
    uuid: &[u8],
    version: u64,
    portable: &Portable,
) -> Result<Response, NoMemory>
    ensures response { IfOk result (λ r. r ≡ json_saved uuid.now version portable.now) }
    ensures code { IfOk result (λ r. IsTrue (is_code r.status)) }
{
    Ok(ok(Bytes::of(saved_text(alloc, uuid, version, portable)?)))
}

// Whether the bytes are UTF-8.
fn is_text(bytes: &[u8]) -> bool
    ensures { result ≡ is_utf8 bytes.now }
{
    match str::from_utf8(bytes) {
        Ok(_) => true,
        Err(_) => false,
    }
}

fn row_response(
    alloc: Global,
    uuid: &[u8],
    version: u64,
    want: u8,
    trash_at: Option<u64>,
    text: &[u8],
) -> Result<Response, NoMemory>
    ensures response { IfOk result (λ r. r ≡ row_response uuid.now version want trash_at text.now) }
    ensures code { IfOk result (λ r. IsTrue (is_code r.status)) }
{
    if !is_text(text) {
        return refused(alloc, 500, b"BadText");
    }
    let body = row_text(alloc, uuid, version, want, trash_at, text)?;
    Ok(ok(Bytes::of(body)))
}

fn count_response(alloc: Global, count: u64) -> Result<Response, NoMemory>
    ensures response { IfOk result (λ r. r ≡ respond 200 (decimal count ++ newline)) }
    ensures code { IfOk result (λ r. IsTrue (is_code r.status)) }
{
    let mut buffer = Buffer::new();
    Ok(ok(line(alloc, buffer.format(count).as_bytes())?))
}

fn line_response(alloc: Global, text: &Bytes) -> Result<Response, NoMemory>
    ensures response { IfOk result (λ r. r ≡ respond 200 (text.now ++ newline)) }
    ensures code { IfOk result (λ r. IsTrue (is_code r.status)) }
{
    Ok(ok(line(alloc, text.as_slice())?))
}

// The response to a task's end.
#[tactic(auto, unfolding(crate::specs::Responses::outcome_response))]
fn response_to(alloc: Global, uuid: &[u8], outcome: &Outcome) -> Result<Response, NoMemory>
    ensures response { IfOk result (λ r. r ≡ responses.outcome_response uuid.now outcome.now) }
    ensures code { IfOk result (λ r. IsTrue (is_code r.status)) }
{
    match outcome {
        Outcome::Stored { locator } => line_response(alloc, locator),
        Outcome::Touched { locator } => line_response(alloc, locator),
        Outcome::Bytes { bytes } => Ok(ok(Bytes::copy_of(alloc, bytes.as_slice())?)),
        Outcome::Untrashed { copies } => count_response(alloc, *copies),
        Outcome::Restarted => words(alloc, outcome),
        Outcome::UnknownToken => refused(alloc, 401, b"UnknownToken"),
        Outcome::TooLong => refused(alloc, 413, b"TooLong"),
        Outcome::HashMismatch { .. } => refused(alloc, 422, b"HashMismatch"),
        Outcome::Collision => refused(alloc, 409, b"Collision"),
        Outcome::NoRoom => refused(alloc, 507, b"NoRoom"),
        Outcome::StoreFault => refused(alloc, 500, b"StoreFault"),
        Outcome::BadLocator { .. } => refused(alloc, 400, b"BadLocator"),
        Outcome::Forbidden => refused(alloc, 403, b"Forbidden"),
        Outcome::Expired { .. } => refused(alloc, 401, b"Expired"),
        Outcome::NotFound => refused(alloc, 404, b"NotFound"),
        Outcome::Corrupt { .. } => refused(alloc, 500, b"Corrupt"),
        Outcome::Saved {
            uuid,
            version,
            portable,
        } => saved_response(alloc, uuid.as_slice(), *version, portable),
        Outcome::Updated {
            uuid,
            version,
            portable,
        } => saved_response(alloc, uuid.as_slice(), *version, portable),
        Outcome::Row {
            version,
            want,
            trash_at,
            text,
        } => row_response(alloc, uuid, *version, *want, *trash_at, text.as_slice()),
        Outcome::TrashSet {
            trash_at,
            delete_at,
        } => times_response(alloc, *trash_at, *delete_at),
        Outcome::Restored => Ok(ok(Bytes::copy_of(alloc, b"{}")?)),
        Outcome::Swept { .. } => words(alloc, outcome),
        Outcome::NoSuch => refused(alloc, 404, b"NoSuch"),
        Outcome::NotOwner => refused(alloc, 403, b"NotOwner"),
        Outcome::InTrash { .. } => refused(alloc, 409, b"InTrash"),
        Outcome::BadManifest { .. } => refused(alloc, 400, b"BadManifest"),
        Outcome::Unsigned { .. } => refused(alloc, 403, b"Unsigned"),
        Outcome::WrongHash { .. } => refused(alloc, 400, b"WrongHash"),
        Outcome::BadWant => refused(alloc, 400, b"BadWant"),
        Outcome::TooManyVersions { .. } => refused(alloc, 409, b"TooManyVersions"),
        Outcome::Balanced { .. } => words(alloc, outcome),
        Outcome::Stale { .. } => refused(alloc, 409, b"Stale"),
        Outcome::Disordered { .. } => refused(alloc, 409, b"Disordered"),
        Outcome::Trashed { .. } => words(alloc, outcome),
        Outcome::Pulled { .. } => words(alloc, outcome),
        Outcome::Emptied { .. } => words(alloc, outcome),
        Outcome::ReadOnly => refused(alloc, 409, b"ReadOnly"),
    }
}

fn times_response(alloc: Global, trash_at: u64, delete_at: u64) -> Result<Response, NoMemory>
    ensures response { IfOk result (λ r. r ≡ respond 200 (times_text trash_at delete_at)) }
    ensures code { IfOk result (λ r. IsTrue (is_code r.status)) }
{
    Ok(ok(Bytes::of(times_text(alloc, trash_at, delete_at)?)))
}

/// The response to a task's end. Where the task reads a collection, `uuid` is the collection's.
#[tactic(auto, unfolding(crate::specs::Responses::outcome_response))]
pub fn outcome_response(alloc: Global, uuid: &[u8], outcome: Outcome) -> Result<Response, NoMemory>
    ensures response { IfOk result (λ r. r ≡ responses.outcome_response uuid.now outcome) }
    ensures code { IfOk result (λ r. IsTrue (is_code r.status)) }
{
    match outcome {
        Outcome::Bytes { bytes } => Ok(ok(bytes)),
        other => response_to(alloc, uuid, &other),
    }
}

// The response to a device's answer to a request for a page, a clear or an accept.
#[tactic(auto, unfolding(crate::specs::Responses::answer_response))]
fn answer_response(alloc: Global, answer: &DeviceAnswer) -> Result<Response, NoMemory>
    ensures response { IfOk result (λ r. r ≡ responses.answer_response answer.now) }
    ensures code { IfOk result (λ r. IsTrue (is_code r.status)) }
{
    match answer {
        DeviceAnswer::Page { entries } => Ok(ok(write_index(alloc, entries.as_slice())?)),
        DeviceAnswer::Cleared => Ok(ok(Bytes::of(Vec::new(alloc)))),
        DeviceAnswer::Accepted { .. } => Ok(ok(Bytes::of(Vec::new(alloc)))),
        DeviceAnswer::Stale { .. } => refused(alloc, 409, b"Stale"),
        _ => refused(alloc, 500, b"StoreFault"),
    }
}

/// The response to the answer to a request for a page, a clear or an accept. The table's answers have no place there.
pub fn reply_response(alloc: Global, answer: &Answer) -> Result<Response, NoMemory>
    ensures response { IfOk result (λ r. r ≡ responses.reply_response answer.now) }
    ensures code { IfOk result (λ r. IsTrue (is_code r.status)) }
{
    match answer {
        Answer::Device(answer) => answer_response(alloc, answer),
        Answer::Table(_) => refused(alloc, 500, b"StoreFault"),
    }
}
