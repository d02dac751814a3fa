// The digests that a manifest names.
ghost use Rattle.std.specs.Prelude.{◌≡◌, ◌↔◌, ◌++◌, IsTrue, IfOk, OnOk, Contains, List, ℕ, Some, None, if◌then◌else◌};
ghost use Rattle.std.specs.Ordering.{nat_cmp};
ghost use Rattle.std.specs.List.{list_all};
ghost use Rattle.std.specs.List.Sorted.{IsStrictlySortedBy};
ghost use Rattle.std.specs.Cmp.Lexicographic.{slice_cmp};
ghost use Rattle.keep_spec.specs.Locator.{is_locator, is_empty_block, digest};
ghost use Rattle.keep_spec.specs.Manifest.{IsGood, named_in, named as named_by};
ghost use Rattle.keep_manifest.specs.Good.{is_good_manifest};

use keep_locator::Locator;
use keep_spec::{Bytes, Digest, Manifest, NoMemory};
use std::alloc::{AllocError, Global};

/// The digests of all blocks of a good manifest, ascending, each once. Empty blocks are left out.
pub fn named(alloc: Global, manifest: &Manifest) -> Result<Vec<Digest>, NoMemory>
    requires { IsGood manifest.now }
    ensures ascending { IfOk result (λ digests. IsStrictlySortedBy (slice_cmp nat_cmp) digests.items) }
    ensures named { IfOk result (λ digests. (h : List ℕ) → Contains digests.items h ↔ Contains (named_by manifest.now) h) }
{
    let mut digests = collect_named(alloc, manifest)?;
    digests.sort_unstable();
    digests.dedup();
    Ok(digests)
}

// The same in the order of the text, with repetitions.
#[tactic(auto, unfolding(keep_spec::specs::Manifest::named))]
fn collect_named(alloc: Global, manifest: &Manifest) -> Result<Vec<Digest>, AllocError>
    requires { IsTrue (is_good_manifest manifest.now) }
    ensures { IfOk result (λ digests. digests.items ≡ named_by manifest.now) }
{
    let mut digests = Vec::new(alloc);
    for stream in manifest.streams.as_slice() {
        push_named(&mut digests, stream.locators.as_slice())?;
    }
    Ok(digests)
}

fn push_named(digests: &mut Vec<Digest>, locators: &[Bytes]) -> Result<(), AllocError>
    requires { IsTrue (list_all is_locator locators.now) }
    ensures { OnOk result (digests.new.items ≡ digests.old.items ++ named_in locators.now) }
{
    for locator in locators {
        if let Some(digest) = named_digest(locator.as_slice()) {
            digests.push(digest)?;
        }
    }
    Ok(())
}

// The digest of a locator; `None` for the empty block.
fn named_digest(locator: &[u8]) -> Option<Digest>
    requires { IsTrue (is_locator locator.now) }
    ensures { result ≡ (if is_empty_block locator.now then None else Some (digest locator.now)) }
{
    let Ok(locator) = Locator::read(locator) else {
        unreachable!()
    };
    if locator.is_empty_block() {
        None
    } else {
        Some(locator.digest())
    }
}
