// The permission hints of a manifest's locators.
ghost use Rattle.std.specs.Prelude.{◌≡◌, ◌++◌, [], if◌then◌else◌, IfOk, IfErr, OnOk, IsSome};
ghost use Rattle.keep_spec.specs.Locator.{is_permission_hint};
ghost use Rattle.keep_spec.specs.Manifest.{manifest_of};
ghost use Rattle.keep_spec.specs.Refusals.{bad};
ghost use Rattle.keep_spec.specs.SignedText.{unsigned, signed, changed, with_locators};
ghost use Rattle.keep_manifest.specs.Causes.{IsCause};

use crate::hint::push_permission_hint;
use keep_locator::{Locator, first_hint, is_permission_hint};
use keep_manifest::{BadManifest, cut_token, read};
use keep_spec::{Bytes, NoMemory};
use std::alloc::Global;

/// Signs a manifest for a token: takes each permission hint away, and puts one at the end of each locator but an empty block's. All
/// other bytes stay. The expiry is in seconds since 1970, the ttl in seconds. A text that isn't a manifest is refused as `read` refuses
/// it.
pub fn sign_manifest(
    alloc: Global,
    text: &[u8],
    token: &[u8],
    expiry: u32,
    ttl: u32,
    secret: &[u8],
) -> Result<Bytes, BadManifest>
    ensures manifest { OnOk result (IsSome (manifest_of text.now)) }
    ensures text { IfOk result
        (λ b. b ≡ with_locators (signed token.now expiry ttl secret.now) text.now) }
    ensures refusal { IfErr result (IsCause (bad text.now)) }
{
    let _manifest = read(alloc, text)?;
    let mut out = Vec::with_capacity(alloc, text.len())?;
    let mut rest = text;
    while let Some((part, end, after)) = cut_token(rest) {
        push_signed(&mut out, part, token, expiry, ttl, secret)?;
        out.extend_from_slice(end)?;
        rest = after;
    }
    Ok(Bytes::of(out))
}

/// Takes each permission hint of a manifest away. All other bytes stay. A text that isn't a manifest is refused as `read` refuses it.
pub fn unsigned_manifest(alloc: Global, text: &[u8]) -> Result<Bytes, BadManifest>
    ensures manifest { OnOk result (IsSome (manifest_of text.now)) }
    ensures text { IfOk result (λ b. b ≡ with_locators unsigned text.now) }
    ensures refusal { IfErr result (IsCause (bad text.now)) }
{
    let _manifest = read(alloc, text)?;
    let mut out = Vec::with_capacity(alloc, text.len())?;
    let mut rest = text;
    while let Some((part, end, after)) = cut_token(rest) {
        push_without_permissions(&mut out, part)?;
        out.extend_from_slice(end)?;
        rest = after;
    }
    Ok(Bytes::of(out))
}

// Appends a token; a locator with one permission hint, the last, or none where it is an empty block's.
fn push_signed(
    out: &mut Vec<u8>,
    part: &[u8],
    token: &[u8],
    expiry: u32,
    ttl: u32,
    secret: &[u8],
) -> Result<(), NoMemory>
    ensures { OnOk result
        (out.new.items ≡ out.old.items ++ changed (signed token.now expiry ttl secret.now) part.now) }
{
    let Ok(locator) = Locator::read(part) else {
        out.extend_from_slice(part)?;
        return Ok(());
    };
    push_unsigned(out, &locator)?;
    if locator.is_empty_block() {
        return Ok(());
    }
    push_permission_hint(out, &locator.digest(), token, expiry, ttl, secret)?;
    Ok(())
}

// Appends a token; a locator without its permission hints.
fn push_without_permissions(out: &mut Vec<u8>, part: &[u8]) -> Result<(), NoMemory>
    ensures { OnOk result (out.new.items ≡ out.old.items ++ changed unsigned part.now) }
{
    let Ok(locator) = Locator::read(part) else {
        out.extend_from_slice(part)?;
        return Ok(());
    };
    push_unsigned(out, &locator)?;
    Ok(())
}

// Appends a locator without its permission hints.
fn push_unsigned(out: &mut Vec<u8>, locator: &Locator) -> Result<(), NoMemory>
    ensures { OnOk result (out.new.items ≡ out.old.items ++ unsigned locator.now) }
{
    out.extend_from_slice(locator.stripped())?;
    let mut rest = locator.hint_text();
    while let Some((hint, after)) = first_hint(rest) {
        push_other(out, hint)?;
        rest = after;
    }
    Ok(())
}

// Appends a hint, unless it is a permission hint.
fn push_other(out: &mut Vec<u8>, hint: &[u8]) -> Result<(), NoMemory>
    ensures { OnOk result (out.new.items
        ≡ out.old.items ++ (if is_permission_hint hint.now then [] else hint.now)) }
{
    if is_permission_hint(hint) {
        return Ok(());
    }
    out.extend_from_slice(hint)?;
    Ok(())
}
