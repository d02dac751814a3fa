// Checking the signature of a locator.
ghost use Rattle.std.specs.Prelude.{◌≡◌};
ghost use Rattle.keep_spec.specs.Sign.{verdict};

use crate::signature::sign;
use keep_locator::Locator;
use keep_spec::{NANOS_PER_SECOND, Unverified, Verified};

/// Checks a locator's signature for a token at a clock reading, and returns the digest and the expiry that it was made for. The reading
/// is in nanoseconds since 1970, the ttl in seconds. The refusals are tested in this order: `Missing` unless there is exactly one
/// permission hint, `Expired` where its expiry is before the reading, `Invalid` where the signature isn't the one that `sign` makes.
pub fn verify(
    locator: &Locator,
    token: &[u8],
    ttl: u32,
    secret: &[u8],
    reading: u64,
) -> Result<Verified, Unverified>
    ensures { result ≡ verdict locator.now token.now ttl secret.now reading }
{
    let Some(permission) = locator.permission() else {
        return Err(Unverified::Missing);
    };
    let expiry = permission.expiry;
    if u64::from(expiry) * NANOS_PER_SECOND < reading {
        return Err(Unverified::Expired { expiry });
    }
    let digest = locator.digest();
    if permission.signature != sign(&digest, token, expiry, ttl, secret) {
        return Err(Unverified::Invalid);
    }
    Ok(Verified { digest, expiry })
}
