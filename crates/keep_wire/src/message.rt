// Requests and responses, and why there is no further one.
use keep_base::Bytes;
use std::alloc::AllocError;

/// The most bytes of a head, counting the empty lines before its start line. This project's own limit.
pub const HEAD_MAX: usize = 65536;

/// The most fields of a head. This project's own limit.
pub const FIELDS_MAX: usize = 64;

/// The most bytes of a body, which is the size of the largest block. This project's own limit.
pub const BODY_MAX: u64 = 67108864;

/// A request of HTTP/1.0 or HTTP/1.1 (RFC 9112).
#[derive(Drop, Debug)]
pub struct Request {
    /// The method, in the case in which it was sent.
    pub method: Bytes,
    /// The target as it stands in the request line, with nothing decoded.
    pub path: Bytes,
    /// What follows `Bearer ` or `OAuth2 ` in the Authorization field. `None` unless there is exactly one such field and it begins so.
    pub token: Option<Bytes>,
    /// The value of the Range field. `None` unless there is exactly one.
    pub range: Option<Bytes>,
    /// The body, which has the length that the Content-Length says, and none without one.
    pub body: Bytes,
    /// Whether this is the last request of its connection: it is HTTP/1.0, or the whole value of a Connection field is `close` in any letter case.
    pub close: bool,
}

/// A response of HTTP/1.0 or HTTP/1.1 (RFC 9112).
#[derive(Drop, Debug)]
pub struct Response {
    /// The status code, three digits as a number.
    pub status: u16,
    /// The body, which has the length that the Content-Length says.
    pub body: Bytes,
}

/// Why there is no further message. Where several of them hold, the first of this list is returned, but for `ReadFault` and `NoMemory`, which can come at any read and any allocation.
#[derive(Clone, Copy, Debug, PartialEq, Eq)]
pub enum WireError {
    /// The source failed, and its count of faults rose.
    ReadFault,
    /// The bytes can't begin an acceptable head: no continuation of them is a head (RFC 9112, as httparse reads it), or the head has more than `FIELDS_MAX` fields or more than `HEAD_MAX` bytes, a Transfer-Encoding, more than one Content-Length, or one that isn't 1 to 19 decimal digits.
    BadHead,
    /// A `PUT` or `POST` request, or a response, has no Content-Length.
    LengthRequired,
    /// The Content-Length, in bytes, is above `BODY_MAX`.
    BodyTooLong { length: u64 },
    /// The input ends inside a head or a body.
    CutBody,
    /// Memory was refused.
    NoMemory,
}

impl From<AllocError> for WireError {
    ghost use Rattle.std.specs.Prelude.{◌≡◌};
    ghost use Rattle.keep_wire.specs.declared.message.WireError.TheVariants.{NoMemory};

    ghost from_gives = { λ _ e. e ≡ NoMemory };

    fn from(_error: AllocError) -> WireError {
        WireError::NoMemory
    }
}
