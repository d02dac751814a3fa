// The outcomes of verifying a locator's signature.
use crate::Digest;

/// What a valid signature grants to its token.
#[derive(Clone, Copy, Debug, PartialEq, Eq)]
pub struct Verified {
    /// The block that may be read.
    pub digest: Digest,
    /// Until when, in seconds since 1970.
    pub expiry: u32,
}

/// Why a locator's signature isn't valid. The causes are tested in this order.
#[derive(Clone, Copy, Debug, PartialEq, Eq)]
pub enum Unverified {
    /// There is no permission hint, or more than one.
    Missing,
    /// The one permission hint's expiry, in seconds since 1970, lies before the reading.
    Expired { expiry: u32 },
    /// The signature isn't that of the digest, the token and the expiry.
    Invalid,
}
