// The fields of a head.
ghost use Rattle.std.specs.Prelude.{◌≡◌, length, map, All};
ghost use Rattle.httparse.specs.Spans.{IsHeaderWithin};
ghost use Rattle.keep_wire.specs.Fields.{values_of};
ghost use Rattle.keep_wire.specs.Looks.{pairs_at, IsOnly, IsLength};

use crate::{BODY_MAX, WireError};
use httparse::spans::{HeaderSpan, Span};
use keep_spec::read_number;

// How many fields have a name.
#[derive(Clone, Copy)]
pub(crate) enum Only {
    Absent,
    One(Span),
    Many,
}

// The value of the only field of this name.
pub(crate) fn find_only(bytes: &[u8], headers: &[HeaderSpan], name: &[u8]) -> Only
    requires { All (IsHeaderWithin (length bytes.now)) headers.now }
    ensures { IsOnly bytes.now (values_of name.now (pairs_at bytes.now headers.now)) result }
{
    let mut found = Only::Absent;
    for header in headers {
        if header.name.of(bytes).eq_ignore_ascii_case(name) {
            match found {
                Only::Absent => found = Only::One(header.value),
                _ => return Only::Many,
            }
        }
    }
    found
}

// The length of a body that the fields announce, or 0 where they may leave it out.
pub(crate) fn length_of_body(
    bytes: &[u8],
    headers: &[HeaderSpan],
    needed: bool,
) -> Result<u64, WireError>
    requires { All (IsHeaderWithin (length bytes.now)) headers.now }
    ensures { IsLength needed (pairs_at bytes.now headers.now) result }
{
    match find_only(bytes, headers, b"transfer-encoding") {
        Only::Absent => {}
        _ => return Err(WireError::BadHead),
    }
    match find_only(bytes, headers, b"content-length") {
        Only::Absent => {
            if needed {
                return Err(WireError::LengthRequired);
            }
            Ok(0)
        }
        Only::One(span) => match read_number(span.of(bytes)) {
            Some(length) => {
                if length > BODY_MAX {
                    return Err(WireError::BodyTooLong { length });
                }
                Ok(length)
            }
            None => Err(WireError::BadHead),
        },
        Only::Many => Err(WireError::BadHead),
    }
}
