// The signed locators of blocks that were put or touched.
ghost use Rattle.std.specs.Prelude.{◌≡◌, IfOk};
ghost use Rattle.keep_history.specs.Tasks.{signed_locator, touched_locator};
ghost use Rattle.keep_event.specs.Block.{block_of};

use crate::unsigned::expiry_at;
use keep_config::Config;
use keep_event::Block;
use keep_sign::push_permission_hint;
use keep_spec::{Bytes, Digest, NoMemory};
use std::alloc::Global;

/// The locator of a block, signed for a token: its digest, its size, and a permission that expires `ttl` seconds after the second of `mtime`, the time of its replica in nanoseconds since 1970. The only error is NoMemory. The expiry is counted so by this project's own rule.
#[tactic(auto, unfolding(keep_history::specs::Tasks::signed_locator))]
pub fn signed_locator(
    alloc: Global,
    config: &Config,
    token: &[u8],
    block: &Block,
    mtime: u64,
) -> Result<Bytes, NoMemory>
    ensures { IfOk result (λ b. b ≡ signed_locator config.now token.now block.now mtime) }
{
    let digest = block.digest();
    let mut out = Vec::new(alloc);
    out.extend_from_slice(&digest.write())?;
    out.extend_from_slice(b"+")?;
    out.extend_from_slice(block.bytes().len().to_string(alloc)?.as_bytes())?;
    let expiry = expiry_at(config.ttl, mtime);
    let secret = config.secret.as_slice();
    push_permission_hint(&mut out, &digest, token, expiry, config.ttl, secret)?;
    Ok(Bytes::of(out))
}

/// The locator of a touch: the given one without its hints, with a permission for the token that expires as that of a put, by `mtime` in nanoseconds since 1970. The only error is NoMemory.
#[tactic(auto, unfolding(keep_history::specs::Tasks::touched_locator))]
pub fn touched_locator(
    alloc: Global,
    config: &Config,
    token: &Bytes,
    digest: &Digest,
    stripped: &Bytes,
    mtime: u64,
) -> Result<Bytes, NoMemory>
    ensures { IfOk result (λ b. b ≡ touched_locator config.now token.now digest.now stripped.now mtime) }
{
    let mut out = Vec::from_slice(alloc, stripped.as_slice())?;
    let expiry = expiry_at(config.ttl, mtime);
    let secret = config.secret.as_slice();
    push_permission_hint(
        &mut out,
        digest,
        token.as_slice(),
        expiry,
        config.ttl,
        secret,
    )?;
    Ok(Bytes::of(out))
}
