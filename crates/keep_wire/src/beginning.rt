// How far some bytes have come towards a response.
ghost use Rattle.std.specs.Prelude.{IfOk};
ghost use Rattle.keep_wire.specs.Replies.{IsBeginning};

use crate::filling::look;
use crate::{Response, WireError};
use keep_spec::NoMemory;
use std::alloc::Global;

/// What bytes say that may begin with a response, whatever follows them.
#[derive(Clone, Copy, Debug, PartialEq, Eq)]
pub enum Beginning {
    /// They end before or within a head, and more of them may complete it.
    Open,
    /// They begin with the head of a response.
    Head {
        status: u16,
        /// How many bytes the head has.
        head: usize,
        /// How many bytes the body has.
        body: usize,
    },
    /// They begin no response: `Replies` returns an error that no more bytes can change.
    Broken,
}

/// Looks at the bytes that were read of a response so far. It takes time in proportion to a head, and no memory for the body.
pub fn response_beginning(alloc: Global, bytes: &[u8]) -> Result<Beginning, NoMemory>
    ensures { IfOk result (IsBeginning bytes.now) }
{
    match look::<Response>(alloc, bytes) {
        Ok(None) => Ok(Beginning::Open),
        Ok(Some(begun)) => Ok(Beginning::Head {
            status: begun.message.status,
            head: begun.head,
            body: begun.body as usize,
        }),
        Err(WireError::NoMemory) => Err(NoMemory),
        Err(WireError::BadHead) => Ok(Beginning::Broken),
        Err(WireError::LengthRequired) => Ok(Beginning::Broken),
        Err(WireError::BodyTooLong { length: _ }) => Ok(Beginning::Broken),
        Err(WireError::CutBody) => unreachable!(),
        Err(WireError::ReadFault) => unreachable!(),
    }
}
