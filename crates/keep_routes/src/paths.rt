// What paths name.
ghost use Rattle.std.specs.Prelude.{◌≡◌, ◌+◌, ◌<◌, ◌==◌, IfOk, IfSome, option_map, length, position, find, bytes_eq};
ghost use Rattle.std.specs.List.{list_all};
ghost use Rattle.keep_spec.specs.Digest.{is_lower_digit};
ghost use Rattle.keep_routes.specs.Paths.{IsPlaceWithin, device_of_part, is_prefix, is_reserved, number_of_part, parted, place_from_four, place_from_three, place_from_two, place_of, place_of_five, place_of_four, place_of_one, place_of_parts, place_of_three, place_of_two};
ghost use Rattle.keep_event.specs.Lists.{device_of_mount};
ghost use Rattle.keep_spec.specs.Config.{Configuration};

use crate::place::Place;
use keep_config::Config;
use keep_spec::{Bytes, Digest, Mount, NoMemory, is_lower_digit, read_number};
use std::alloc::Global;

/// The most digits of a prefix, which are those of a digest.
const PREFIX_MAX: usize = 32;

fn slash_in(text: &[u8]) -> Option<usize>
    ensures place { result ≡ position (λ b. b == 47) text.now }
    ensures within { IfSome result (λ at. at < length text.now) }
{
    text.iter().position(|byte| *byte == b'/')
}

// The part before the first slash, and what follows the slash.
fn parted(text: &[u8]) -> Option<(&[u8], &[u8])>
    ensures { option_map (λ p. (p.0.now, p.1.now)) result ≡ parted text.now }
{
    match slash_in(text) {
        Some(at) => Some((&text[..at], &text[at + 1..])),
        None => None,
    }
}

fn device_of_part(config: &Config, part: &[u8]) -> Option<u32>
    ensures device { result ≡ device_of_part config.now part.now }
    ensures within { IfSome result (λ n. n < length config.now.devices) }
{
    if part.len() != 1 && part.first() == Some(&b'0') {
        return None;
    }
    let number = read_number(part)?;
    if number < config.devices.len() as u64 {
        Some(number as u32)
    } else {
        None
    }
}

fn find_mount(mounts: &[Mount], uuid: &[u8]) -> Option<u32>
    ensures { result ≡ option_map (λ m. m.device) (find (λ m. bytes_eq m.uuid uuid.now) mounts.now) }
{
    mounts
        .iter()
        .find(|mount| mount.uuid.as_bytes().as_slice() == uuid)
        .map(|mount| mount.device)
}

fn device_of_mount(config: &Config, uuid: &[u8]) -> Option<u32>
    ensures device { result ≡ device_of_mount config.now uuid.now }
    ensures within { IfSome result (λ n. n < length config.now.devices) }
{
    find_mount(config.mounts.as_slice(), uuid)
}

fn are_lower_digits(text: &[u8]) -> bool
    ensures { result ≡ list_all is_lower_digit text.now }
{
    text.iter().all(|byte| is_lower_digit(*byte))
}

fn is_prefix(part: &[u8]) -> bool
    ensures { result ≡ is_prefix part.now }
{
    part.len() <= PREFIX_MAX && are_lower_digits(part)
}

fn is_reserved(part: &[u8]) -> bool
    ensures { result ≡ is_reserved part.now }
{
    part.is_empty()
        || part == b"untrash".as_slice()
        || part == b"mounts".as_slice()
        || part == b"trash".as_slice()
        || part == b"pull".as_slice()
        || part == b"empty".as_slice()
}

fn place_of_one(alloc: Global, part: &[u8]) -> Result<Option<Place>, NoMemory>
    ensures place { IfOk result (λ o. o ≡ place_of_one part.now) }
    ensures within { (c : Configuration) → IfOk result (λ o. IfSome o (IsPlaceWithin c)) }
{
    if part == b"collections".as_slice() {
        Ok(Some(Place::Collections))
    } else if part == b"sweep".as_slice() {
        Ok(Some(Place::Sweep))
    } else if part == b"balance".as_slice() {
        Ok(Some(Place::Balance))
    } else if is_reserved(part) {
        Ok(None)
    } else {
        Ok(Some(Place::Block {
            part: Bytes::copy_of(alloc, part)?,
        }))
    }
}

fn place_of_two(
    alloc: Global,
    config: &Config,
    first: &[u8],
    part: &[u8],
) -> Result<Option<Place>, NoMemory>
    ensures place { IfOk result (λ o. o ≡ place_of_two config.now first.now part.now) }
    ensures within { IfOk result (λ o. IfSome o (IsPlaceWithin config.now)) }
{
    if first == b"untrash".as_slice() {
        Ok(Digest::read(part).map(|digest| Place::Untrash { digest }))
    } else if first == b"collections".as_slice() {
        Ok(Some(Place::Collection {
            uuid: Bytes::copy_of(alloc, part)?,
        }))
    } else if first == b"trash".as_slice() {
        Ok(device_of_part(config, part).map(|device| Place::TrashWorker { device }))
    } else if first == b"pull".as_slice() {
        Ok(device_of_part(config, part).map(|device| Place::PullWorker { device }))
    } else if first == b"empty".as_slice() {
        Ok(device_of_part(config, part).map(|device| Place::EmptyWorker { device }))
    } else {
        Ok(None)
    }
}

fn place_of_three(
    alloc: Global,
    first: &[u8],
    uuid: &[u8],
    part: &[u8],
) -> Result<Option<Place>, NoMemory>
    ensures place { IfOk result (λ o. o ≡ place_of_three first.now uuid.now part.now) }
    ensures within { (c : Configuration) → IfOk result (λ o. IfSome o (IsPlaceWithin c)) }
{
    if first != b"collections".as_slice() {
        return Ok(None);
    }
    let uuid = Bytes::copy_of(alloc, uuid)?;
    if part == b"trash".as_slice() {
        Ok(Some(Place::Trash { uuid }))
    } else if part == b"restore".as_slice() {
        Ok(Some(Place::Restore { uuid }))
    } else {
        match read_number(part) {
            Some(version) => Ok(Some(Place::Version { uuid, version })),
            None => Ok(None),
        }
    }
}

fn place_of_four(
    config: &Config,
    first: &[u8],
    mount: &[u8],
    word: &[u8],
    round: &[u8],
) -> Option<Place>
    ensures place { result ≡ place_of_four config.now first.now mount.now word.now round.now }
    ensures within { IfSome result (IsPlaceWithin config.now) }
{
    if first != b"mounts".as_slice() {
        return None;
    }
    let device = device_of_mount(config, mount)?;
    let round = read_number(round)?;
    if word == b"clear".as_slice() {
        Some(Place::Clear { device, round })
    } else if word == b"lists".as_slice() {
        Some(Place::Lists { device, round })
    } else {
        None
    }
}

fn place_of_five(
    alloc: Global,
    config: &Config,
    first: &[u8],
    mount: &[u8],
    word: &[u8],
    round: &[u8],
    prefix: &[u8],
) -> Result<Option<Place>, NoMemory>
    ensures place { IfOk result (λ o. o ≡ place_of_five config.now first.now mount.now word.now round.now prefix.now) }
    ensures within { IfOk result (λ o. IfSome o (IsPlaceWithin config.now)) }
{
    if first != b"mounts".as_slice() || word != b"blocks".as_slice() || !is_prefix(prefix) {
        return Ok(None);
    }
    let Some(device) = device_of_mount(config, mount) else {
        return Ok(None);
    };
    let Some(round) = read_number(round) else {
        return Ok(None);
    };
    Ok(Some(Place::Page {
        device,
        round,
        prefix: Bytes::copy_of(alloc, prefix)?,
    }))
}

fn place_from_four(
    alloc: Global,
    config: &Config,
    first: &[u8],
    second: &[u8],
    third: &[u8],
    text: &[u8],
) -> Result<Option<Place>, NoMemory>
    ensures place { IfOk result (λ o. o ≡ place_from_four config.now first.now second.now third.now text.now) }
    ensures within { IfOk result (λ o. IfSome o (IsPlaceWithin config.now)) }
{
    match parted(text) {
        None => Ok(place_of_four(config, first, second, third, text)),
        Some((fourth, rest)) => match parted(rest) {
            None => place_of_five(alloc, config, first, second, third, fourth, rest),
            Some(_) => Ok(None),
        },
    }
}

fn place_from_three(
    alloc: Global,
    config: &Config,
    first: &[u8],
    second: &[u8],
    text: &[u8],
) -> Result<Option<Place>, NoMemory>
    ensures place { IfOk result (λ o. o ≡ place_from_three config.now first.now second.now text.now) }
    ensures within { IfOk result (λ o. IfSome o (IsPlaceWithin config.now)) }
{
    match parted(text) {
        None => place_of_three(alloc, first, second, text),
        Some((third, rest)) => place_from_four(alloc, config, first, second, third, rest),
    }
}

fn place_from_two(
    alloc: Global,
    config: &Config,
    first: &[u8],
    text: &[u8],
) -> Result<Option<Place>, NoMemory>
    ensures place { IfOk result (λ o. o ≡ place_from_two config.now first.now text.now) }
    ensures within { IfOk result (λ o. IfSome o (IsPlaceWithin config.now)) }
{
    match parted(text) {
        None => place_of_two(alloc, config, first, text),
        Some((second, rest)) => place_from_three(alloc, config, first, second, rest),
    }
}

fn place_of_parts(alloc: Global, config: &Config, text: &[u8]) -> Result<Option<Place>, NoMemory>
    ensures place { IfOk result (λ o. o ≡ place_of_parts config.now text.now) }
    ensures within { IfOk result (λ o. IfSome o (IsPlaceWithin config.now)) }
{
    match parted(text) {
        None => place_of_one(alloc, text),
        Some((first, rest)) => place_from_two(alloc, config, first, rest),
    }
}

/// What a path names, if anything.
#[tactic(auto, unfolding(crate::specs::Paths::place_of))]
pub(crate) fn place_of(
    alloc: Global,
    config: &Config,
    path: &[u8],
) -> Result<Option<Place>, NoMemory>
    ensures place { IfOk result (λ o. o ≡ place_of config.now path.now) }
    ensures within { IfOk result (λ o. IfSome o (IsPlaceWithin config.now)) }
{
    match path {
        [] => Ok(None),
        [slash, text @ ..] => {
            if *slash == b'/' {
                place_of_parts(alloc, config, text)
            } else {
                Ok(None)
            }
        }
    }
}
