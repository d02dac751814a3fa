// How heavy a service is for a block.
ghost use Rattle.std.specs.Prelude.{◌≡◌};
ghost use Rattle.keep_spec.specs.Order.{weight};

use hex::encode_to_slice;
use keep_spec::{Digest, Uuid};
use md5::Md5;

/// How many characters of a UUID a weight leaves out: all before the last 15.
const LEFT_OUT: usize = 12;

/// The weight of a service for a block, in 32 lower-case digits: the MD5 of the block's digits and the last 15 characters of
/// the service's UUID, as Arvados' clients have it. The service with the greatest weight is asked first.
pub fn weight(digest: &Digest, uuid: &Uuid) -> [u8; 32]
    ensures { result ≡ weight digest.now uuid.now }
{
    let mut hasher = <Md5 as md5::Digest>::new();
    md5::Digest::update(&mut hasher, digest.write().as_slice());
    md5::Digest::update(&mut hasher, &uuid.as_bytes()[LEFT_OUT..]);
    let hash = md5::Digest::finalize(hasher);
    let mut digits = [0; 32];
    let _ = encode_to_slice(hash.as_slice(), &mut digits);
    digits
}
