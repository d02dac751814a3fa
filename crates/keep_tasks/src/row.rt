// The text of a row as its reader gets it.
ghost use Rattle.std.specs.Prelude.{◌≡◌, IfOk};
ghost use Rattle.keep_spec.specs.Config.{Configuration};
ghost use Rattle.keep_event.specs.Collections as collections;

use keep_manifest::BadManifest;
use keep_sign::sign_manifest;
use keep_spec::{Bytes, NoMemory};
use std::alloc::Global;

/// Returns the text of a row that a read answered, with each locator but empty blocks signed for `token` until `expiry` (seconds since 1970), by a lifetime of signatures (seconds) and their key. Without an expiry, as of a collection in the trash, and where it isn't a manifest, which the table never answers, the text is returned unchanged.
#[tactic(auto, unfolding(keep_event::specs::Collections::signed_row))]
pub(crate) fn signed_row(
    alloc: Global,
    ttl: u32,
    secret: &[u8],
    token: &[u8],
    expiry: Option<u32>,
    text: &[u8],
) -> Result<Bytes, NoMemory>
    ensures { IfOk result (λ b. (c : Configuration) → ttl ≡ c.ttl → secret.now ≡ c.secret → b ≡ collections.signed_row c token.now expiry text.now) }
{
    let Some(expiry) = expiry else {
        return Ok(Bytes::of(Vec::from_slice(alloc, text)?));
    };
    match sign_manifest(alloc, text, token, expiry, ttl, secret) {
        Ok(signed) => Ok(signed),
        Err(BadManifest::NoMemory) => Err(NoMemory),
        Err(BadManifest::Refused(_)) => Ok(Bytes::of(Vec::from_slice(alloc, text)?)),
    }
}
