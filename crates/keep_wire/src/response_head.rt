// The heads of responses.
ghost use Rattle.std.specs.Prelude.{◌≡◌, ◌≤◌, length};
ghost use Rattle.httparse.specs.Grammar.{ResponseHead};
ghost use Rattle.httparse.specs.Spans.{IsResponseWithin, IsResponseAt};
ghost use Rattle.keep_wire.specs.Replies.{response_grammar, response_of};
ghost use Rattle.keep_wire.specs.Looks.{IsBegunBy, IsLooked};

use crate::fields::length_of_body;
use crate::head::{Begun, Message};
use crate::lines::count_lines;
use crate::{FIELDS_MAX, HEAD_MAX, Response, WireError};
use httparse::spans::{EMPTY_HEADER_SPAN, HeaderSpan, ResponseSpans, parse_response};
use httparse::{Error, Status};
use keep_base::Bytes;
use std::alloc::Global;

// The response that the head with these spans begins, or why the head is refused.
fn begin_response(
    alloc: Global,
    bytes: &[u8],
    spans: &[HeaderSpan],
    head: ResponseSpans,
) -> Result<Begun<Response>, WireError>
    requires { IsResponseWithin bytes.now spans.now head }
    ensures { (h : ResponseHead) → IsResponseAt bytes.now spans.now head h → IsBegunBy response_grammar response_of h head.len result }
{
    let body = match length_of_body(bytes, &spans[..head.headers], true) {
        Ok(length) => length,
        Err(error) => return Err(error),
    };
    let message = Response {
        status: head.code,
        body: Bytes::of(Vec::new(alloc)),
    };
    Ok(Begun {
        message,
        head: head.len,
        body,
    })
}

// Looks at bytes that may begin with a head. There is room for as many spans as a head may have fields.
fn look_at_response(
    alloc: Global,
    bytes: &[u8],
    spans: &mut [HeaderSpan],
) -> Result<Option<Begun<Response>>, WireError>
    requires short { length bytes.now ≤ HEAD_MAX }
    requires room { length spans.old ≡ FIELDS_MAX }
    ensures { IsLooked response_grammar response_of bytes.now result }
{
    match parse_response(bytes, spans) {
        Ok(Status::Complete(head)) => match begin_response(alloc, bytes, spans, head) {
            Ok(begun) => Ok(Some(begun)),
            Err(error) => Err(error),
        },
        Ok(Status::Partial) => {
            // The parser may still wait after the end of a field line too many.
            if count_lines(bytes) > FIELDS_MAX + 1 {
                return Err(WireError::BadHead);
            }
            Ok(None)
        }
        Err(error) => match error {
            Error::TooManyHeaders => Err(WireError::BadHead),
            _ => Err(WireError::BadHead),
        },
    }
}

impl Message for Response {
    ghost use Rattle.httparse.specs.Grammar.{ResponseHead};
    ghost use Rattle.keep_wire.specs.Replies.{response_grammar, response_of};

    ghost Head = { ResponseHead };

    ghost grammar = { response_grammar };

    ghost make = { response_of };

    fn look(alloc: Global, bytes: &[u8]) -> Result<Option<Begun<Response>>, WireError> {
        let mut spans = [EMPTY_HEADER_SPAN; FIELDS_MAX];
        look_at_response(alloc, bytes, &mut spans)
    }

    fn with(self, body: Bytes) -> Response {
        Response {
            status: self.status,
            body,
        }
    }

    ghost never_waits_again = { λ p m outside never within. within };
}
