// What servers say.
use keep_wire::Response;

/// What a server said in one exchange.
#[derive(Drop, Debug)]
pub enum Said {
    /// A call of the exchange failed.
    Failed,
    /// The bytes of the answer don't begin with a response.
    Broken,
    /// The bytes of the answer are this response.
    Answered(Response),
}
