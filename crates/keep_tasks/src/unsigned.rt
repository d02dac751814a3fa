// Locators that want a permission hint.
ghost use Rattle.std.specs.Prelude.{◌≡◌, ◌≤◌, ◌+◌, ◌++◌, length, vec_len, vec_capacity, IfOk};
ghost use Rattle.keep_spec.specs.SignedText.{permission_hint};
ghost use Rattle.keep_spec.specs.Times.{expiry_at};
ghost use Rattle.keep_tasks.specs.Unsigned.{unsigned};

use crate::room::push_bytes;
use keep_config::Config;
use keep_sign::{hex8, sign};
use keep_spec::{Bytes, Digest, NANOS_PER_SECOND, NoMemory};
use std::alloc::Global;
use std::marker::Model;

/// How many bytes a permission hint has: `+A`, 40 digits, `@`, 8 digits.
const HINT_SIZE: usize = 51;

/// The beginning of a locator, with room for its permission hint, and what signs it.
#[derive(Drop, Debug)]
pub(crate) struct Unsigned {
    text: Vec<u8>,
    digest: Digest,
    token: Bytes,
    ttl: u32,
    secret: Bytes,
}

impl Model for Unsigned {
    ghost use Rattle.std.specs.Prelude.{◌≤◌, ◌+◌, vec_len, vec_capacity};
    ghost use Rattle.keep_tasks.specs.Unsigned.{Beginning};

    ghost Value = { Beginning };

    ghost view = { λ u. record { text = u.text.items; digest = u.digest; token = u.token; ttl = u.ttl; secret = u.secret } };

    ghost invariant = { λ u. vec_len u.text + 51 ≤ vec_capacity u.text };
}

/// When a signature by a replica's time (nanoseconds since 1970) expires, in seconds since 1970.
pub(crate) fn expiry_at(ttl: u32, mtime: u64) -> u32
    ensures { result ≡ expiry_at ttl mtime }
{
    let expiry = mtime / NANOS_PER_SECOND + u64::from(ttl);
    expiry.min(u64::from(u32::MAX)) as u32
}

impl Unsigned {
    /// The beginning of a locator of a digest, to be signed for a token.
    pub(crate) fn new(
        alloc: Global,
        config: &Config,
        token: Bytes,
        digest: Digest,
        text: &[u8],
    ) -> Result<Unsigned, NoMemory>
        ensures { IfOk result (λ u. u ≡ unsigned config.now token digest text.now) }
    {
        let mut room = Vec::with_capacity(alloc, text.len() + HINT_SIZE)?;
        push_bytes(&mut room, text);
        Ok(Unsigned {
            text: room,
            digest,
            token,
            ttl: config.ttl,
            secret: config.secret.duplicate(alloc)?,
        })
    }

    /// The locator, signed by a replica's time (nanoseconds since 1970). Takes no memory.
    #[tactic(auto, unfolding(keep_spec::specs::SignedText::permission_hint))]
    pub(crate) fn sign(self, mtime: u64) -> Bytes
        ensures { result ≡ self.text ++ permission_hint self.digest self.token (expiry_at self.ttl mtime) self.ttl self.secret }
    {
        let Unsigned {
            text: mut out,
            digest,
            token,
            ttl,
            secret,
        } = self;
        let expiry = expiry_at(ttl, mtime);
        let signature = sign(&digest, token.as_slice(), expiry, ttl, secret.as_slice());
        push_bytes(&mut out, b"+A");
        push_bytes(&mut out, &signature);
        push_bytes(&mut out, b"@");
        push_bytes(&mut out, &hex8(expiry));
        Bytes::of(out)
    }
}
