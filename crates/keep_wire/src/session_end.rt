// How a session over one connection ends.
use crate::WireError;

/// How a session over one connection ended.
#[derive(Clone, Copy, Debug, PartialEq, Eq)]
pub enum SessionEnd {
    /// The input was read to its end, or to a request that closes the connection.
    Done,
    /// As many requests as the session's budget allows were answered, and none of them closes.
    Budget { requests: u64 },
    /// The source failed, and its count of faults rose.
    ReadFault,
    /// The next head is refused. It was answered with status 400.
    BadHead,
    /// The next request has no Content-Length where it needs one. It was answered with status 411.
    LengthRequired,
    /// The next request's body has more bytes than is allowed. It was answered with status 413.
    BodyTooLong { length: u64 },
    /// The input ended inside a request. It was answered with status 400.
    CutBody,
    /// The sink failed, and its count of faults rose.
    WriteFault,
    /// The clock failed, and its count of faults rose.
    ClockFault,
    /// The port failed, and its count of faults rose.
    PortFault,
    /// A component had drawn every event number that it may draw.
    Spent { drawn: u64 },
    /// Memory was refused. Nothing more was written.
    NoMemory,
}

impl From<WireError> for SessionEnd {
    ghost use Rattle.std.specs.Prelude.{◌≡◌};
    ghost use Rattle.keep_wire.specs.Ends.{end_of};

    ghost from_gives = { λ error end. end ≡ end_of error };

    fn from(error: WireError) -> SessionEnd {
        match error {
            WireError::ReadFault => SessionEnd::ReadFault,
            WireError::BadHead => SessionEnd::BadHead,
            WireError::LengthRequired => SessionEnd::LengthRequired,
            WireError::BodyTooLong { length } => SessionEnd::BodyTooLong { length },
            WireError::CutBody => SessionEnd::CutBody,
            WireError::NoMemory => SessionEnd::NoMemory,
        }
    }
}
