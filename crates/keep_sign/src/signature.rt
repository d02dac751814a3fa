// Signatures of digests.
ghost use Rattle.std.specs.Prelude.{◌≡◌};
ghost use Rattle.keep_spec.specs.Sign.{hmac, hex8, without_zeros, signed_text, signature_of};
ghost use Rattle.hex.specs.Hex.{encode_lower};

use crate::mac::MacState;
use hex::encode_to_slice;
use keep_spec::Digest;

/// A number in 8 lower-case hexadecimal digits, as a permission hint has its expiry.
pub fn hex8(number: u32) -> [u8; 8]
    ensures { result ≡ hex8 number }
{
    let mut out = [0; 8];
    let _ = encode_to_slice(number.to_be_bytes().as_slice(), &mut out);
    out
}

// The digits without leading zeros; of a zero one digit stays.
fn without_zeros(digits: &[u8]) -> &[u8]
    ensures { result.now ≡ without_zeros digits.now }
{
    let mut rest = digits;
    while rest.len() > 1 && rest[0] == b'0' {
        rest = &rest[1..];
    }
    rest
}

// The HMAC, under the secret, of `digest@token@expiry@ttl`.
fn signed_hash(digest: &Digest, token: &[u8], expiry: u32, ttl: u32, secret: &[u8]) -> [u8; 20]
    ensures { result ≡ hmac secret.now (signed_text (encode_lower digest.now) token.now expiry ttl) }
{
    let mut mac = MacState::new(secret);
    mac.update(&digest.write());
    mac.update(b"@");
    mac.update(token);
    mac.update(b"@");
    mac.update(&hex8(expiry));
    mac.update(b"@");
    mac.update(without_zeros(&hex8(ttl)));
    mac.finalize()
}

/// The signature of a digest for a token: the HMAC-SHA1, under the secret, of `digest@token@expiry@ttl`, in 40 lower-case hexadecimal
/// digits. The expiry is in seconds since 1970, in 8 lower-case hexadecimal digits; the ttl is in seconds, in lower-case hexadecimal
/// digits without leading zeros. The order and the separators are this project's own rule.
#[tactic(auto, unfolding(keep_spec::specs::Sign::signature_of))]
pub fn sign(digest: &Digest, token: &[u8], expiry: u32, ttl: u32, secret: &[u8]) -> [u8; 40]
    ensures { result ≡ signature_of digest.now token.now expiry ttl secret.now }
{
    let hash = signed_hash(digest, token, expiry, ttl, secret);
    let mut digits = [0; 40];
    let _ = encode_to_slice(hash.as_slice(), &mut digits);
    digits
}
