// One exchange with a server: the whole request is sent, and one response read.
ghost use Rattle.std.specs.Prelude.{ℕ, ◌≡◌, ◌≤◌, ◌<◌, List, Ok, IfOk, length};
ghost use Rattle.keep_spec.specs.Causes.{HasCause, Rose};
ghost use Rattle.keep_client.specs.Exchanges.{called};
ghost use Rattle.keep_client.specs.Steps.{HasSaid, IsConversed, IsSent, IsReceived, HasHeard, IsReadMore, IsBodyReceived};

use crate::link::{Link, Standing};
use crate::said::Said;
use keep_spec::{Bytes, Failed, NoMemory};
use keep_wire::{Beginning, Response, response_beginning};
use std::alloc::Global;

// The most bytes of a read.
const PIECE: usize = 16384;

// Asks a server. Memory that is refused cuts the exchange off.
pub(crate) fn exchange<L: Link>(
    alloc: Global,
    link: &mut L,
    server: u32,
    request: &[u8],
) -> Result<Said, NoMemory>
    ensures said { IfOk result (HasSaid server request.now (L.told link.old) (L.told link.new)) }
    ensures closed { L.standing link.new ≡ Standing.Closed }
    ensures never_falls { L.faults link.old ≤ L.faults link.new }
    ensures cause { result ≡ Ok Said.Failed → Rose (L.faults link.old) (L.faults link.new) }
{
    match link.open(server) {
        Ok(()) => {
            let said = converse(alloc, link, request);
            link.close();
            said
        }
        Err(_) => Ok(Said::Failed),
    }
}

// Sends the request over the exchange that stands open, and reads the response.
fn converse<L: Link>(alloc: Global, link: &mut L, request: &[u8]) -> Result<Said, NoMemory>
    requires { L.standing link.old ≡ Standing.Open }
    ensures said { IfOk result (IsConversed request.now (L.told link.old) (L.told link.new)) }
    ensures never_falls { L.faults link.old ≤ L.faults link.new }
    ensures cause { result ≡ Ok Said.Failed → Rose (L.faults link.old) (L.faults link.new) }
{
    match send(link, request) {
        Ok(()) => receive(alloc, link),
        Err(_) => Ok(Said::Failed),
    }
}

fn send<L: Link>(link: &mut L, request: &[u8]) -> Result<(), Failed>
    requires { L.standing link.old ≡ Standing.Open }
    ensures sent { IsSent request.now result (L.told link.old) (L.told link.new) }
    ensures standing { L.standing link.new ≡ called result }
    ensures cause { HasCause (L.faults link.old) (L.faults link.new) result }
{
    let mut rest = request;
    while !rest.is_empty() {
        let count = match link.write(rest) {
            Ok(count) => count,
            Err(failed) => return Err(failed),
        };
        rest = &rest[count..];
    }
    Ok(())
}

fn receive<L: Link>(alloc: Global, link: &mut L) -> Result<Said, NoMemory>
    requires { L.standing link.old ≡ Standing.Open }
    ensures said { IfOk result (IsReceived (L.told link.old) (L.told link.new)) }
    ensures never_falls { L.faults link.old ≤ L.faults link.new }
    ensures cause { result ≡ Ok Said.Failed → Rose (L.faults link.old) (L.faults link.new) }
{
    match receive_head(alloc, link) {
        Ok(Heard::Failed) => Ok(Said::Failed),
        Ok(Heard::Broken) => Ok(Said::Broken),
        Ok(Heard::Head { status, size }) => receive_body(alloc, link, status, size),
        Err(_) => Err(NoMemory),
    }
}

// How an answer begins.
#[derive(Clone, Copy, Debug, PartialEq, Eq)]
enum Heard {
    Failed,
    Broken,
    // A whole head with this status, and the size of its body.
    Head { status: u16, size: usize },
}

// What a read gave.
#[derive(Clone, Copy, Debug, PartialEq, Eq)]
enum Read {
    More,
    Ended,
    Failed,
}

// Reads once, at most as much as the piece has room for, and appends it.
fn read_more<L: Link>(link: &mut L, piece: &mut [u8], bytes: &mut Vec<u8>) -> Result<Read, NoMemory>
    requires open { L.standing link.old ≡ Standing.Open }
    requires room { 0 < length piece.old }
    ensures read { IfOk result (IsReadMore (length piece.old) bytes.old.items bytes.new.items (L.told link.old) (L.told link.new)) }
    ensures open { result ≡ Ok Read.More → L.standing link.new ≡ Standing.Open }
    ensures never_falls { L.faults link.old ≤ L.faults link.new }
    ensures cause { result ≡ Ok Read.Failed → Rose (L.faults link.old) (L.faults link.new) }
{
    match link.read(piece) {
        Ok(0) => Ok(Read::Ended),
        Ok(count) => {
            bytes.extend_from_slice(&piece[..count])?;
            Ok(Read::More)
        }
        Err(_) => Ok(Read::Failed),
    }
}

// Reads the head of the answer byte by byte, since each byte may be the last that is needed.
fn receive_head<L: Link>(alloc: Global, link: &mut L) -> Result<Heard, NoMemory>
    requires { L.standing link.old ≡ Standing.Open }
    ensures heard { IfOk result (HasHeard (L.told link.old) (L.told link.new)) }
    ensures open { (status size : ℕ) → result ≡ Ok (Heard.Head status size) → L.standing link.new ≡ Standing.Open }
    ensures never_falls { L.faults link.old ≤ L.faults link.new }
    ensures cause { result ≡ Ok Heard.Failed → Rose (L.faults link.old) (L.faults link.new) }
{
    let mut bytes = Vec::new(alloc);
    let mut byte = [0];
    loop {
        match read_more(link, &mut byte, &mut bytes) {
            Ok(Read::More) => {}
            Ok(Read::Ended) => return Ok(Heard::Broken),
            Ok(Read::Failed) => return Ok(Heard::Failed),
            Err(_) => return Err(NoMemory),
        }
        match response_beginning(alloc, &bytes)? {
            Beginning::Open => {}
            Beginning::Broken => return Ok(Heard::Broken),
            Beginning::Head {
                status,
                head: _,
                body,
            } => {
                return Ok(Heard::Head { status, size: body });
            }
        }
    }
}

// How much is read at once of a body of which so much is left.
fn piece_size(left: usize) -> usize
    requires { 0 < left }
    ensures some { 0 < result }
    ensures within { result ≤ left }
    ensures fits { result ≤ 16384 }
{
    left.min(PIECE)
}

// Reads the body of an answer whose head was read.
fn receive_body<L: Link>(
    alloc: Global,
    link: &mut L,
    status: u16,
    size: usize,
) -> Result<Said, NoMemory>
    requires { L.standing link.old ≡ Standing.Open }
    ensures said { IfOk result (IsBodyReceived status size (L.told link.old) (L.told link.new)) }
    ensures never_falls { L.faults link.old ≤ L.faults link.new }
    ensures cause { result ≡ Ok Said.Failed → Rose (L.faults link.old) (L.faults link.new) }
{
    let mut body = Vec::with_capacity(alloc, size)?;
    let mut piece = [0; PIECE];
    while body.len() < size {
        let most = piece_size(size - body.len());
        match read_more(link, &mut piece[..most], &mut body) {
            Ok(Read::More) => {}
            Ok(Read::Ended) => return Ok(Said::Broken),
            Ok(Read::Failed) => return Ok(Said::Failed),
            Err(_) => return Err(NoMemory),
        }
    }
    Ok(Said::Answered(Response {
        status,
        body: Bytes::of(body),
    }))
}
