// The heads of requests.
ghost use Rattle.std.specs.Prelude.{◌≡◌, ◌≤◌, length, All, IfOk, codes, option_copied, ◌&&◌};
ghost use Rattle.std.specs.List.{list_any};
ghost use Rattle.httparse.specs.Grammar.{RequestHead};
ghost use Rattle.httparse.specs.Spans.{span_bytes, IsHeaderWithin, IsRequestWithin, IsRequestAt};
ghost use Rattle.keep_wire.specs.Fields.{values_of, is_alike, token_of, range_of, token_in};
ghost use Rattle.keep_wire.specs.Requests.{needs_length, request_grammar, request_of};
ghost use Rattle.keep_wire.specs.Looks.{pairs_at, IsBegunBy, IsLooked};

use crate::fields::{Only, find_only, length_of_body};
use crate::head::{Begun, Message};
use crate::lines::count_lines;
use crate::target::ends_within_target;
use crate::{FIELDS_MAX, HEAD_MAX, Request, WireError};
use httparse::spans::{EMPTY_HEADER_SPAN, HeaderSpan, RequestSpans, parse_request};
use httparse::{Error, Status};
use keep_base::Bytes;
use keep_spec::NoMemory;
use std::alloc::Global;

// Whether a request of this method has to have a Content-Length.
fn needs_length(method: &[u8]) -> bool
    ensures { result ≡ needs_length method.now }
{
    method == b"PUT".as_slice() || method == b"POST".as_slice()
}

fn token_part(value: &[u8]) -> Option<&[u8]>
    ensures { option_copied result ≡ token_in value.now }
{
    if let Some(token) = value.strip_prefix(b"Bearer ") {
        return Some(token);
    }
    value.strip_prefix(b"OAuth2 ")
}

fn bytes_of(alloc: Global, bytes: &[u8]) -> Result<Bytes, NoMemory>
    ensures { IfOk result (λ b. b ≡ bytes.now) }
{
    Ok(Bytes::of(Vec::from_slice(alloc, bytes)?))
}

fn bytes_if_some(alloc: Global, bytes: Option<&[u8]>) -> Result<Option<Bytes>, NoMemory>
    ensures { IfOk result (λ o. o ≡ option_copied bytes.entry) }
{
    match bytes {
        Some(bytes) => Ok(Some(bytes_of(alloc, bytes)?)),
        None => Ok(None),
    }
}

// The token of the head, if it names one.
fn token_for<'b>(bytes: &'b [u8], headers: &[HeaderSpan]) -> Option<&'b [u8]>
    requires { All (IsHeaderWithin (length bytes.now)) headers.now }
    ensures { option_copied result ≡ token_of (pairs_at bytes.now headers.now) }
{
    match find_only(bytes, headers, b"authorization") {
        Only::One(span) => token_part(span.of(bytes)),
        Only::Absent => None,
        Only::Many => None,
    }
}

// The range of the head, if it names one.
fn range_for<'b>(bytes: &'b [u8], headers: &[HeaderSpan]) -> Option<&'b [u8]>
    requires { All (IsHeaderWithin (length bytes.now)) headers.now }
    ensures { option_copied result ≡ range_of (pairs_at bytes.now headers.now) }
{
    match find_only(bytes, headers, b"range") {
        Only::One(span) => Some(span.of(bytes)),
        Only::Absent => None,
        Only::Many => None,
    }
}

fn is_close(bytes: &[u8], header: &HeaderSpan) -> bool
    requires { IsHeaderWithin (length bytes.now) header.now }
    ensures { result ≡ (is_alike (span_bytes bytes.now header.now.name) (codes "connection") && is_alike (span_bytes bytes.now header.now.value) (codes "close")) }
{
    is_alike(header.name.of(bytes), b"connection") && is_alike(header.value.of(bytes), b"close")
}

// Whether two texts are equal apart from the case of ASCII letters.
fn is_alike(a: &[u8], b: &[u8]) -> bool
    ensures { result ≡ is_alike a.now b.now }
{
    a.eq_ignore_ascii_case(b)
}

// Whether a Connection field closes the connection.
fn says_close(bytes: &[u8], headers: &[HeaderSpan]) -> bool
    requires { All (IsHeaderWithin (length bytes.now)) headers.now }
    ensures { result ≡ list_any (λ v. is_alike v (codes "close")) (values_of (codes "connection") (pairs_at bytes.now headers.now)) }
{
    for header in headers {
        if is_close(bytes, header) {
            return true;
        }
    }
    false
}

// The request that the head with these spans begins, or why the head is refused.
fn begin_request(
    alloc: Global,
    bytes: &[u8],
    spans: &[HeaderSpan],
    head: RequestSpans,
) -> Result<Begun<Request>, WireError>
    requires { IsRequestWithin bytes.now spans.now head }
    ensures { (h : RequestHead) → IsRequestAt bytes.now spans.now head h → IsBegunBy request_grammar request_of h head.len result }
{
    let headers = &spans[..head.headers];
    let method = head.method.of(bytes);
    let body = match length_of_body(bytes, headers, needs_length(method)) {
        Ok(length) => length,
        Err(error) => return Err(error),
    };
    let Ok(method) = bytes_of(alloc, method) else {
        return Err(WireError::NoMemory);
    };
    let Ok(path) = bytes_of(alloc, head.path.of(bytes)) else {
        return Err(WireError::NoMemory);
    };
    let Ok(token) = bytes_if_some(alloc, token_for(bytes, headers)) else {
        return Err(WireError::NoMemory);
    };
    let Ok(range) = bytes_if_some(alloc, range_for(bytes, headers)) else {
        return Err(WireError::NoMemory);
    };
    let message = Request {
        method,
        path,
        token,
        range,
        body: Bytes::of(Vec::new(alloc)),
        close: head.version == 0 || says_close(bytes, headers),
    };
    Ok(Begun {
        message,
        head: head.len,
        body,
    })
}

// Looks at bytes that may begin with a head. There is room for as many spans as a head may have fields.
fn look_at_request(
    alloc: Global,
    bytes: &[u8],
    spans: &mut [HeaderSpan],
) -> Result<Option<Begun<Request>>, WireError>
    requires short { length bytes.now ≤ HEAD_MAX }
    requires room { length spans.old ≡ FIELDS_MAX }
    ensures { IsLooked request_grammar request_of bytes.now result }
{
    match parse_request(bytes, spans) {
        Ok(Status::Complete(head)) => match begin_request(alloc, bytes, spans, head) {
            Ok(begun) => Ok(Some(begun)),
            Err(error) => Err(error),
        },
        Ok(Status::Partial) => {
            // The parser may still wait after the end of a field line too many.
            if count_lines(bytes) > FIELDS_MAX + 1 {
                return Err(WireError::BadHead);
            }
            Ok(None)
        }
        Err(error) => match error {
            Error::TooManyHeaders => Err(WireError::BadHead),
            _ => {
                if ends_within_target(bytes) {
                    return Ok(None);
                }
                Err(WireError::BadHead)
            }
        },
    }
}

impl Message for Request {
    ghost use Rattle.httparse.specs.Grammar.{RequestHead};
    ghost use Rattle.keep_wire.specs.Requests.{request_grammar, request_of};
    ghost use Rattle.keep_wire.specs.TargetLaws.{target_never_again};

    ghost Head = { RequestHead };

    ghost grammar = { request_grammar };

    ghost make = { request_of };

    fn look(alloc: Global, bytes: &[u8]) -> Result<Option<Begun<Request>>, WireError> {
        let mut spans = [EMPTY_HEADER_SPAN; FIELDS_MAX];
        look_at_request(alloc, bytes, &mut spans)
    }

    fn with(self, body: Bytes) -> Request {
        Request {
            method: self.method,
            path: self.path,
            token: self.token,
            range: self.range,
            body,
            close: self.close,
        }
    }

    ghost never_waits_again = { target_never_again };
}
