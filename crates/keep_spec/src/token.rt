// The number of a token.

/// A token of the configuration.
#[derive(Clone, Copy, Debug, PartialEq, Eq, PartialOrd, Ord)]
pub struct TokenId {
    /// 0 is the system token, 1 and up are the others in the configuration's order.
    pub number: u32,
}
