// The digests that a manifest's text names.
ghost use Rattle.std.specs.Prelude.{◌≡◌, IfOk};
ghost use Rattle.keep_event.specs.Requests as requests;

use keep_manifest::{BadManifest, named, read};
use keep_spec::{Digest, NoMemory};
use std::alloc::Global;

/// Returns the digests of a text but the empty block's, ascending; none where the text isn't a manifest.
pub(crate) fn digests_of(alloc: Global, text: &[u8]) -> Result<Vec<Digest>, NoMemory>
    ensures { IfOk result (λ v. v.items ≡ requests.digests_of text.now) }
{
    match read(alloc, text) {
        Ok(manifest) => {
            let digests = named(alloc, &manifest)?;
            Ok(digests)
        }
        Err(BadManifest::NoMemory) => Err(NoMemory),
        Err(BadManifest::Refused(_)) => Ok(Vec::new(alloc)),
    }
}
