// What is tested of a save or an update, and what is stored of it.
ghost use Rattle.std.specs.Prelude.{◌≡◌, ◌<◌, IfOk, IsTrue, Some, None};
ghost use Rattle.std.specs.List.{list_all};
ghost use Rattle.keep_spec.specs.Locator.{is_locator};
ghost use Rattle.keep_spec.specs.Manifest.{manifest_of};
ghost use Rattle.std.specs.Option.{option_or};
ghost use Rattle.keep_spec.specs.Refusals.{bad};
ghost use Rattle.keep_spec.specs.Stripped as stripped;
ghost use Rattle.keep_spec.specs.SignedText.{unsigned, with_locators};
ghost use Rattle.keep_event.specs.Requests as requests;
ghost use Rattle.keep_collections.specs.Verdicts.{IsVerdict};

use crate::signed::{first_unsigned, locators_of};
use keep_config::Config;
use keep_event::{NewRecord, SaveRequest, TableAnswer};
use keep_manifest::{BadManifest, named, read};
use keep_normal::portable_hash;
use keep_sign::unsigned_manifest;
use keep_spec::{Bytes, Items, Manifest, NoMemory, Portable};
use std::alloc::Global;

/// What a save or an update makes of a request: the record to store, or the first refusal, which is BadManifest, Unsigned, WrongHash or BadWant.
#[derive(Drop)]
pub enum Verdict {
    Good(NewRecord),
    Refused(TableAnswer),
}

// Refuses a claimed hash that isn't the text of the computed one.
fn wrong_hash(computed: &Portable, claimed: &Option<Bytes>) -> Option<TableAnswer>
    ensures { result ≡ requests.wrong_hash computed.now claimed.now }
{
    let Some(claimed) = claimed else {
        return None;
    };
    let (text, len) = computed.write();
    if claimed.as_slice() == &text[..len] {
        None
    } else {
        Some(TableAnswer::WrongHash {
            computed: *computed,
        })
    }
}

// Refuses a wanted number of copies outside 1 to 255.
fn bad_want(want: u64) -> Option<TableAnswer>
    ensures { result ≡ requests.bad_want want }
{
    if want >= 1 && want <= 255 {
        None
    } else {
        Some(TableAnswer::BadWant)
    }
}

// The first refusal of a request whose text is a manifest: by a signature, by the claimed hash, by the wanted copies.
fn refusal_of(
    alloc: Global,
    config: &Config,
    reading: u64,
    request: &SaveRequest,
    manifest: &Manifest,
    computed: &Portable,
) -> Result<Option<TableAnswer>, NoMemory>
    requires { IsTrue (list_all is_locator (requests.locators_in manifest.now)) }
    ensures { IfOk result (λ refusal. refusal ≡
        option_or (requests.first_unsigned (requests.unsigned_because config.now request.now.token reading) 0 (requests.locators_in manifest.now))
        (option_or (requests.wrong_hash computed.now request.now.portable) (requests.bad_want request.now.want))) }
{
    let locators = locators_of(alloc, manifest)?;
    let unsigned = first_unsigned(config, request.token.as_slice(), reading, &locators);
    if let Some(refusal) = unsigned {
        return Ok(Some(refusal));
    }
    if let Some(refusal) = wrong_hash(computed, &request.portable) {
        return Ok(Some(refusal));
    }
    Ok(bad_want(request.want))
}

// The portable hash of a manifest's text.
fn hash_of(alloc: Global, text: &[u8]) -> Result<Portable, NoMemory>
    requires { bad text.now ≡ None }
    ensures { IfOk result (λ p. p ≡ stripped.portable_hash text.now) }
{
    match portable_hash(alloc, text) {
        Ok(portable) => Ok(portable),
        Err(BadManifest::NoMemory) => Err(NoMemory),
        Err(BadManifest::Refused(_)) => unreachable!(),
    }
}

// A manifest's text without its permission hints.
fn unsigned_text(alloc: Global, text: &[u8]) -> Result<Bytes, NoMemory>
    requires { bad text.now ≡ None }
    ensures { IfOk result (λ b. b ≡ with_locators unsigned text.now) }
{
    match unsigned_manifest(alloc, text) {
        Ok(text) => Ok(text),
        Err(BadManifest::NoMemory) => Err(NoMemory),
        Err(BadManifest::Refused(_)) => unreachable!(),
    }
}

// What is stored of a request whose text is this manifest.
fn made_of(
    alloc: Global,
    request: &SaveRequest,
    manifest: &Manifest,
    portable: Portable,
) -> Result<NewRecord, NoMemory>
    requires manifest { manifest_of request.now.text ≡ Some manifest.now }
    requires good { bad request.now.text ≡ None }
    requires portable { portable ≡ stripped.portable_hash request.now.text }
    requires want { request.now.want < 256 }
    ensures { IfOk result (λ made. made ≡ requests.made_of request.now) }
{
    let named = named(alloc, manifest)?;
    let text = unsigned_text(alloc, request.text.as_slice())?;
    Ok(NewRecord {
        text,
        named: Items::of(named),
        portable,
        want: request.want as u8,
    })
}

/// Tests a request at a reading (nanoseconds since 1970): its text, its signatures, the claimed hash and the wanted copies, in this order. Whether its token is known isn't tested. NoMemory is the only error.
pub fn judged(
    alloc: Global,
    config: &Config,
    reading: u64,
    request: &SaveRequest,
) -> Result<Verdict, NoMemory>
    ensures { IfOk result (IsVerdict (requests.refusal_of_request config.now reading request.now) (requests.made_of request.now)) }
{
    let manifest = match read(alloc, request.text.as_slice()) {
        Ok(manifest) => manifest,
        Err(BadManifest::NoMemory) => return Err(NoMemory),
        Err(BadManifest::Refused(refusal)) => {
            return Ok(Verdict::Refused(TableAnswer::BadManifest {
                at: refusal.at as u64,
                kind: refusal.kind,
            }));
        }
    };
    let portable = hash_of(alloc, request.text.as_slice())?;
    if let Some(refusal) = refusal_of(alloc, config, reading, request, &manifest, &portable)? {
        return Ok(Verdict::Refused(refusal));
    }
    let made = made_of(alloc, request, &manifest, portable)?;
    Ok(Verdict::Good(made))
}
