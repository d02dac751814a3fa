// The stripped text of a manifest, and its portable data hash.
ghost use Rattle.std.specs.Prelude.{◌≡◌, ◌++◌, IfOk, IfErr, OnOk, IsSome};
ghost use Rattle.keep_spec.specs.Locator.{stripped};
ghost use Rattle.keep_spec.specs.Manifest.{manifest_of};
ghost use Rattle.keep_spec.specs.Refusals.{bad};
ghost use Rattle.keep_spec.specs.SignedText.{changed};
ghost use Rattle.keep_spec.specs.Stripped.{portable_hash, stripped_text};
ghost use Rattle.keep_manifest.specs.Causes.{IsCause};

use keep_locator::Locator;
use keep_manifest::{BadManifest, cut_token, read};
use keep_spec::{Bytes, Digest, NoMemory, Portable};
use md5::Md5;
use std::alloc::Global;

/// The portable data hash of a manifest: the MD5 of its stripped text, and that text's length in bytes (Arvados). It is taken of the text
/// as it stands, not of the normal form. A text that isn't a manifest is refused as `read` refuses it.
pub fn portable_hash(alloc: Global, text: &[u8]) -> Result<Portable, BadManifest>
    ensures manifest { OnOk result (IsSome (manifest_of text.now)) }
    ensures hash { IfOk result (λ p. p ≡ portable_hash text.now) }
    ensures refusal { IfErr result (IsCause (bad text.now)) }
{
    let stripped = stripped_text(alloc, text)?;
    let digest = Digest::of_md5(<Md5 as md5::Digest>::digest(stripped.as_slice()));
    Ok(Portable {
        digest,
        size: stripped.len() as u64,
    })
}

/// Cuts each locator of a manifest after its size. All other bytes stay. A text that isn't a manifest is refused as `read` refuses it.
pub fn stripped_text(alloc: Global, text: &[u8]) -> Result<Bytes, BadManifest>
    ensures manifest { OnOk result (IsSome (manifest_of text.now)) }
    ensures text { IfOk result (λ b. b ≡ stripped_text text.now) }
    ensures refusal { IfErr result (IsCause (bad text.now)) }
{
    let _manifest = read(alloc, text)?;
    let mut out = Vec::with_capacity(alloc, text.len())?;
    let mut rest = text;
    while let Some((part, end, after)) = cut_token(rest) {
        push_stripped(&mut out, part)?;
        out.extend_from_slice(end)?;
        rest = after;
    }
    Ok(Bytes::of(out))
}

// Appends a token; a locator without its hints.
fn push_stripped(out: &mut Vec<u8>, part: &[u8]) -> Result<(), NoMemory>
    ensures { OnOk result (out.new.items ≡ out.old.items ++ changed stripped part.now) }
{
    let Ok(locator) = Locator::read(part) else {
        out.extend_from_slice(part)?;
        return Ok(());
    };
    out.extend_from_slice(locator.stripped())?;
    Ok(())
}
