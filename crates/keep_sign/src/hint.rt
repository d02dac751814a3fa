// The permission hint of a locator.
ghost use Rattle.std.specs.Prelude.{◌≡◌, ◌++◌, OnOk};
ghost use Rattle.keep_spec.specs.SignedText.{permission_hint};

use crate::signature::{hex8, sign};
use keep_spec::{Digest, NoMemory};

/// Appends the permission hint of a digest for a token: `+A`, the signature, `@` and the expiry in 8 lower-case hexadecimal digits
/// (Arvados). The expiry is in seconds since 1970, the ttl in seconds. On error a part of the hint may remain.
#[tactic(auto, unfolding(keep_spec::specs::SignedText::permission_hint))]
pub fn push_permission_hint(
    out: &mut Vec<u8>,
    digest: &Digest,
    token: &[u8],
    expiry: u32,
    ttl: u32,
    secret: &[u8],
) -> Result<(), NoMemory>
    ensures { OnOk result (out.new.items
        ≡ out.old.items ++ permission_hint digest.now token.now expiry ttl secret.now) }
{
    out.extend_from_slice(b"+A")?;
    out.extend_from_slice(&sign(digest, token, expiry, ttl, secret))?;
    out.extend_from_slice(b"@")?;
    out.extend_from_slice(&hex8(expiry))?;
    Ok(())
}
