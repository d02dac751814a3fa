// A way to the servers, one exchange after another.
ghost use Rattle.std.specs.Prelude.{ℕ, ◌≡◌, ◌<◌, ◌≤◌, ◌++◌, [], ◌∷◌, List, Option, IfOk, length, is_err};
ghost use Rattle.std.specs.Io.{ReadsAtMost, WritesAtMost};
ghost use Rattle.keep_spec.specs.Causes.{HasCause};
ghost use Rattle.keep_client.specs.Exchanges.{IsTold, begun, after_write, after_read, opened, called};

use keep_spec::{Bytes, Failed};

/// What passed between one opening of a link and the next.
#[derive(Drop, Debug)]
pub struct Exchange {
    /// The number in the configuration of the server that was asked.
    pub server: u32,
    /// The bytes that the server was sent.
    pub written: Bytes,
    /// The bytes that were read of its answer.
    pub read: Bytes,
    /// Whether a read met the end of the answer.
    pub ended: bool,
    /// Whether a call failed, the opening among them.
    pub failed: bool,
}

/// Whether an exchange stands open over a link.
#[derive(Clone, Copy, Debug, PartialEq, Eq)]
pub enum Standing {
    /// None does: nothing was opened yet, the last opening failed, or it was closed.
    Closed,
    /// One does, and no call of it has failed.
    Open,
    /// A call of it has failed. It is asked no more, and still to be closed.
    Failed,
}

/// A way to the servers of a configuration. At most one exchange stands open at a time: `write` and `read` are called between an `open` that returned `Ok` and its `close`, and not after a call that failed.
pub trait Link {
    ghost use Rattle.keep_client.specs.declared.link.Exchange.{Exchange};
    ghost use Rattle.keep_client.specs.declared.link.Standing.{Standing};
    ghost use Rattle.keep_client.specs.declared.link.Standing.TheVariants as state;

    /// The exchanges so far, in order, if the link tells them.
    ghost told: { Self → Option (List Exchange) };

    /// Whether an exchange stands open.
    ghost standing: { Self → Standing };

    /// How often a call has failed. It never falls, and stays at the end of a `u64`.
    ghost faults: { Self → ℕ };

    /// Begins an exchange with a server, also where it fails. It ends one that still stands open.
    fn open(&mut self, server: u32) -> Result<(), Failed>
        ensures told { (before : List Exchange) → IsTold before (told self.old) → IsTold (before ++ begun server (is_err result) ∷ []) (told self.new) }
        ensures standing { standing self.new ≡ opened result }
        ensures cause { HasCause (faults self.old) (faults self.new) result };

    /// Sends a prefix of `bytes` and returns its length, at least 1 unless `bytes` is empty.
    fn write(&mut self, bytes: &[u8]) -> Result<usize, Failed>
        requires { standing self.old ≡ state.Open }
        ensures bound { WritesAtMost result bytes.now }
        ensures progress { IfOk result (λ n. 0 < length bytes.now → 0 < n) }
        ensures told { (before : List Exchange) (e : Exchange) → IsTold (before ++ e ∷ []) (told self.old) → IsTold (before ++ after_write result bytes.now e ∷ []) (told self.new) }
        ensures standing { standing self.new ≡ called result }
        ensures cause { HasCause (faults self.old) (faults self.new) result };

    /// Reads bytes of the answer into the start of `buf` and returns how many. `Ok(0)` for a non-empty buffer means the end of the answer.
    fn read(&mut self, buf: &mut [u8]) -> Result<usize, Failed>
        requires { standing self.old ≡ state.Open }
        ensures bound { ReadsAtMost result buf.new }
        ensures told { (before : List Exchange) (e : Exchange) → IsTold (before ++ e ∷ []) (told self.old) → IsTold (before ++ after_read result buf.new e ∷ []) (told self.new) }
        ensures standing { standing self.new ≡ called result }
        ensures cause { HasCause (faults self.old) (faults self.new) result };

    /// Ends the exchange that stands open, if there is one.
    fn close(&mut self)
        ensures told { (before : List Exchange) → IsTold before (told self.old) → IsTold before (told self.new) }
        ensures standing { standing self.new ≡ state.Closed }
        ensures never_falls { faults self.old ≤ faults self.new };
}
