// Why a call of a client has no result.
use keep_spec::NoMemory;

/// Why a call of a client has no result. Servers are counted, each once.
#[derive(Clone, Copy, Debug, PartialEq, Eq)]
pub enum ClientError {
    /// The text of a get isn't a locator: the length in bytes of its longest prefix that begins some locator. No server was asked.
    BadLocator {
        at: usize,
    },
    /// All servers were asked to store the block, and too few acknowledged it.
    TooFew {
        /// How many acknowledged it.
        acked: usize,
        /// At how many a call of the link failed.
        failed: usize,
        /// How many answered otherwise, or not as HTTP.
        refused: usize,
    },
    /// Every server answered 404 to a get.
    NotFound,
    /// No server gave the block, and not all answered 404.
    Unread {
        /// How many answered 200 with bytes of another digest, or not as HTTP.
        wrong: usize,
        /// At how many a call of the link failed.
        failed: usize,
        /// How many answered another status than 200 and 404.
        refused: usize,
    },
    /// A call of the link failed while an index was fetched.
    LinkFault,
    /// The server of an index answered this status, which isn't 200.
    Refused {
        status: u16,
    },
    /// The server of an index didn't answer as HTTP.
    BadResponse,
    /// The offset in bytes of the first bad line of the index.
    BadIndex {
        at: usize,
    },
    /// The index has no bad line, and doesn't end with the empty line.
    CutIndex,
    /// Memory was refused. What servers were asked before stays done.
    NoMemory,
}

impl From<NoMemory> for ClientError {
    ghost use Rattle.std.specs.Prelude.{◌≡◌};
    ghost use Rattle.keep_client.specs.declared.error.ClientError.TheVariants as variant;

    ghost from_gives = { λ _ e. e ≡ variant.NoMemory };

    fn from(_error: NoMemory) -> ClientError {
        ClientError::NoMemory
    }
}
