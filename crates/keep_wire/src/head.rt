// What requests and responses have in common: a head, and a message that it begins.
ghost use Rattle.std.specs.Prelude.{◌≡◌, ◌≤◌, ℕ, List, [], length};
ghost use Rattle.keep_wire.specs.Messages.{Grammar};
ghost use Rattle.keep_wire.specs.Looks.{IsLooked, NeverWaitsAgain};

use crate::{HEAD_MAX, WireError};
use keep_base::Bytes;
use std::alloc::Global;

// A message whose body is still to be read.
#[derive(Drop)]
pub(crate) struct Begun<M> {
    /// The message with an empty body.
    pub(crate) message: M,
    /// How many bytes the head has.
    pub(crate) head: usize,
    /// How many bytes the body has.
    pub(crate) body: u64,
}

// A kind of message.
pub(crate) trait Message: Sized + Drop {
    // The heads of this kind.
    ghost Head: { Type 0 };

    ghost grammar: { Grammar Head };

    // The message that a head and a body make.
    ghost make: { Head → List ℕ → Self };

    // Looks at bytes that may begin with a head. Ok(None) where more of them are needed.
    fn look(alloc: Global, bytes: &[u8]) -> Result<Option<Begun<Self>>, WireError>
        requires { length bytes.now ≤ HEAD_MAX }
        ensures { IsLooked grammar make bytes.now result };

    // The message with this body.
    fn with(self, body: Bytes) -> Self
        ensures { (h : Head) → self ≡ make h [] → result ≡ make h body };

    // A head that isn't waited for is waited for no more, whatever follows.
    ghost never_waits_again: { NeverWaitsAgain grammar };
}
