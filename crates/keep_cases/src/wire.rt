// HTTP: the messages of some bytes, and how they end. Each case is read whole, cut into two pieces at every place, and in pieces of one byte; and where
// the input ends after a whole message or within one, each of these once more with a read after the last byte that fails: then the same messages come
// before that fault. A reading that differs from that of the whole adds a line. `cuts few` cuts at a few places alone, for long inputs, and `cuts none`
// nowhere. With `failing N` the N-th read fails, and nothing else is read.
use crate::pieces::Pieces;
use keep_base::Bytes;
use keep_casebook::{Answer, Case};
use keep_wire::{Replies, Request, Requests, Response, WireError};
use std::alloc::Global;

// The longest body that is shown.
const SHOWN: usize = 16;

// How far apart the few cuts are, in bytes.
const FEW: usize = 4096;

fn from_pieces<'a>(case: &'a Case, cut: usize, most: usize, ends_failing: bool) -> Pieces<'a> {
    Pieces {
        bytes: case.input(),
        cut,
        most,
        failing: case.number("failing", 0),
        ending: 0,
        ends_failing,
        calls: 0,
        faults: 0,
    }
}

fn add_option(bytes: Option<&Bytes>, answer: &mut Answer) {
    match bytes {
        Some(bytes) => {
            answer.text(b"[");
            answer.text(bytes.as_slice());
            answer.text(b"]");
        }
        None => answer.text(b"none"),
    }
}

fn add_body(body: &Bytes, answer: &mut Answer) {
    answer.text(b" body ");
    answer.number(body.len() as u64);
    if body.len() > SHOWN {
        answer.text(b" ...");
    } else if !body.as_slice().is_empty() {
        answer.text(b" ");
        answer.text(body.as_slice());
    }
    answer.end();
}

fn add_request(request: &Request, answer: &mut Answer) {
    answer.text(request.method.as_slice());
    answer.text(b" ");
    answer.text(request.path.as_slice());
    answer.text(b" token ");
    add_option(request.token.as_ref(), answer);
    answer.text(b" range ");
    add_option(request.range.as_ref(), answer);
    answer.text(if request.close { b" close" } else { b" keep" });
    add_body(&request.body, answer);
}

fn add_response(response: &Response, answer: &mut Answer) {
    answer.number(response.status as u64);
    add_body(&response.body, answer);
}

fn add_ending(ending: Option<WireError>, answer: &mut Answer) {
    match ending {
        None => answer.text(b"Clean"),
        Some(WireError::ReadFault) => answer.text(b"ReadFault"),
        Some(WireError::BadHead) => answer.text(b"BadHead"),
        Some(WireError::LengthRequired) => answer.text(b"LengthRequired"),
        Some(WireError::BodyTooLong { length }) => {
            answer.text(b"BodyTooLong ");
            answer.number(length);
        }
        Some(WireError::CutBody) => answer.text(b"CutBody"),
        Some(WireError::NoMemory) => answer.cut(),
    }
    answer.note();
}

// Adds all requests of a source, and returns the error that ends them. The call after an error has to return it again.
fn add_requests(alloc: Global, source: &mut Pieces, answer: &mut Answer) -> Option<WireError> {
    let mut requests = Requests::new(alloc, source);
    for _ in 0..u64::MAX {
        match requests.next() {
            Ok(Some(request)) => add_request(&request, answer),
            Ok(None) => return None,
            Err(error) => {
                if !matches!(requests.next(), Err(other) if other == error) {
                    answer.value(b"another error at the next call");
                }
                return Some(error);
            }
        }
    }
    None
}

// The same of responses.
fn add_responses(alloc: Global, source: &mut Pieces, answer: &mut Answer) -> Option<WireError> {
    let mut replies = Replies::new(alloc, source);
    for _ in 0..u64::MAX {
        match replies.next() {
            Ok(Some(response)) => add_response(&response, answer),
            Ok(None) => return None,
            Err(error) => {
                if !matches!(replies.next(), Err(other) if other == error) {
                    answer.value(b"another error at the next call");
                }
                return Some(error);
            }
        }
    }
    None
}

// Adds the messages of a source, of the subject's kind.
fn add_messages(
    alloc: Global,
    subject: &str,
    source: &mut Pieces,
    answer: &mut Answer,
) -> Option<WireError> {
    if subject == "requests" {
        add_requests(alloc, source, answer)
    } else {
        add_responses(alloc, source, answer)
    }
}

// What has to end the messages where the reads after the last byte fail; `None` where the bytes may be refused before or after that.
fn ending_by_fault(ending: Option<WireError>) -> Option<WireError> {
    match ending {
        None | Some(WireError::CutBody) => Some(WireError::ReadFault),
        Some(_) => None,
    }
}

fn is_cut_at(case: &Case, at: usize) -> bool {
    match case.value("cuts") {
        Some("few") => at % FEW < 2 || case.input().len().saturating_sub(at) < 4,
        Some(_) => at == 0,
        None => true,
    }
}

// Whether the same messages, and this ending, are read in other pieces.
fn is_same(
    alloc: Global,
    subject: &str,
    mut source: Pieces,
    answer: &Answer,
    ending: Option<WireError>,
) -> bool {
    let mut other = Answer::new(alloc);
    let other_ending = add_messages(alloc, subject, &mut source, &mut other);
    other_ending == ending && other.lines() == answer.lines()
}

// A place at which the bytes are cut and something else is read.
fn differing_cut(
    alloc: Global,
    subject: &str,
    case: &Case,
    answer: &Answer,
    ending: Option<WireError>,
) -> Option<usize> {
    let by_fault = ending_by_fault(ending);
    for at in 0..case.input().len().saturating_add(1) {
        if is_cut_at(case, at) {
            let source = from_pieces(case, at, usize::MAX, false);
            if !is_same(alloc, subject, source, answer, ending) {
                return Some(at);
            }
            let source = from_pieces(case, at, usize::MAX, true);
            if by_fault.is_some() && !is_same(alloc, subject, source, answer, by_fault) {
                return Some(at);
            }
        }
    }
    None
}

// Whether the same is read in pieces of one byte.
fn is_same_by_byte(
    alloc: Global,
    subject: &str,
    case: &Case,
    answer: &Answer,
    ending: Option<WireError>,
) -> bool {
    if case.value("cuts") == Some("none") {
        return true;
    }
    let by_fault = ending_by_fault(ending);
    let source = from_pieces(case, 0, 1, false);
    if !is_same(alloc, subject, source, answer, ending) {
        return false;
    }
    let source = from_pieces(case, 0, 1, true);
    by_fault.is_none() || is_same(alloc, subject, source, answer, by_fault)
}

pub fn answer(alloc: Global, subject: &str, case: &Case, answer: &mut Answer) {
    let mut source = from_pieces(case, 0, usize::MAX, false);
    let ending = add_messages(alloc, subject, &mut source, answer);
    if case.value("failing").is_some() {
        add_ending(ending, answer);
        return;
    }
    let differing = differing_cut(alloc, subject, case, answer, ending);
    let is_same = is_same_by_byte(alloc, subject, case, answer, ending);
    add_ending(ending, answer);
    if let Some(at) = differing {
        answer.text(b"something else is read where it is cut at ");
        answer.number(at as u64);
        answer.note();
    }
    if !is_same {
        answer.text(b"something else is read in pieces of one byte");
        answer.note();
    }
}
