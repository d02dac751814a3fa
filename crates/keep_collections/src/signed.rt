// The signatures of a request's locators.
ghost use Rattle.std.specs.Prelude.{◌≡◌, ◌++◌, IsTrue, IfOk, OnOk, map};
ghost use Rattle.std.specs.List.{list_all};
ghost use Rattle.keep_spec.specs.Locator.{is_locator};
ghost use Rattle.keep_event.specs.Requests as requests;

use keep_config::Config;
use keep_event::TableAnswer;
use keep_locator::Locator;
use keep_sign::verify;
use keep_spec::{Bytes, Manifest, NoMemory, Unverified};
use std::alloc::Global;

// Why a locator isn't signed for a token at a reading; an empty block needs no signature.
fn unsigned_because(
    config: &Config,
    token: &[u8],
    reading: u64,
    locator: &[u8],
) -> Option<Unverified>
    requires { IsTrue (is_locator locator.now) }
    ensures { result ≡ requests.unsigned_because config.now token.now reading locator.now }
{
    let Ok(locator) = Locator::read(locator) else {
        unreachable!()
    };
    if locator.is_empty_block() {
        return None;
    }
    match verify(
        &locator,
        token,
        config.ttl,
        config.secret.as_slice(),
        reading,
    ) {
        Ok(_) => None,
        Err(why) => Some(why),
    }
}

// The first locator that isn't signed for a token at a reading.
pub(crate) fn first_unsigned(
    config: &Config,
    token: &[u8],
    reading: u64,
    locators: &[&[u8]],
) -> Option<TableAnswer>
    requires { IsTrue (list_all is_locator (map (λ l. l.now) locators.now)) }
    ensures { result ≡ requests.first_unsigned (requests.unsigned_because config.now token.now reading) 0 (map (λ l. l.now) locators.now) }
{
    for (index, locator) in locators.iter().enumerate() {
        if let Some(why) = unsigned_because(config, token, reading, locator) {
            return Some(TableAnswer::Unsigned {
                index: index as u64,
                why,
            });
        }
    }
    None
}

// The locators of a manifest in their order.
pub(crate) fn locators_of(alloc: Global, manifest: &Manifest) -> Result<Vec<&[u8]>, NoMemory>
    ensures { IfOk result (λ v. map (λ l. l.now) v.items ≡ requests.locators_in manifest.now) }
{
    let mut locators = Vec::new(alloc);
    for stream in manifest.streams.as_slice() {
        push_locators(&mut locators, stream.locators.as_slice())?;
    }
    Ok(locators)
}

fn push_locators<'a>(locators: &mut Vec<&'a [u8]>, more: &'a [Bytes]) -> Result<(), NoMemory>
    ensures { OnOk result (map (λ l. l.now) locators.new.items ≡ map (λ l. l.now) locators.old.items ++ more.now) }
{
    for locator in more {
        if locators.push(locator.as_slice()).is_err() {
            return Err(NoMemory);
        }
    }
    Ok(())
}
