// The order of the devices for a digest.
ghost use Rattle.std.specs.Prelude.{◌≡◌, ◌==◌, ◌<◌, [], IfOk, All, filter, is_some, length, map, slice_index_or, unwrap_or};
ghost use Rattle.std.specs.List.{list_any};
ghost use Rattle.keep_spec.specs.Members.{numbers_from};
ghost use Rattle.keep_spec.specs.Order.{weight, greater_of, greatest_of, device_weight, device_order};

use keep_config::Config;
use keep_order::{by_weight, weight};
use keep_spec::{Digest, Mount, NoMemory};
use std::alloc::Global;
use std::cmp::Ordering;

/// All devices in their order for a digest: by the greatest weight of the servers that mount them, at a tie the lower number
/// first. Takes one MD5 a server.
pub fn device_order(alloc: Global, config: &Config, digest: Digest) -> Result<Vec<u32>, NoMemory>
    ensures { IfOk result (λ v. v.items ≡ device_order config.now digest) }
{
    let weights = device_weights(alloc, config, digest)?;
    by_weight(alloc, &weights)
}

fn device_weights(alloc: Global, config: &Config, digest: Digest) -> Result<Vec<[u8; 32]>, NoMemory>
    ensures { IfOk result (λ v. v.items ≡ map (device_weight config.now digest) (numbers_from 0 (length config.now.devices))) }
{
    let servers = server_weights(alloc, config, digest)?;
    let mounts = config.mounts.as_slice();
    let mut weights = Vec::with_capacity(alloc, config.devices.len())?;
    for device in 0..config.devices.len() {
        let heaviest = heaviest(mounts, &servers, device);
        if weights.push(heaviest.unwrap_or([0; 32])).is_err() {
            return Err(NoMemory);
        }
    }
    Ok(weights)
}

fn server_weights(alloc: Global, config: &Config, digest: Digest) -> Result<Vec<[u8; 32]>, NoMemory>
    ensures { IfOk result (λ v. v.items ≡ map (λ s. weight digest s.uuid) config.now.servers) }
{
    let servers = config.servers.as_slice();
    let mut weights = Vec::with_capacity(alloc, servers.len())?;
    for server in servers {
        if weights.push(weight(&digest, &server.uuid)).is_err() {
            return Err(NoMemory);
        }
    }
    Ok(weights)
}

/// The greatest weight of the servers that mount a device; `None` where it has no mount.
fn heaviest(mounts: &[Mount], servers: &[[u8; 32]], device: usize) -> Option<[u8; 32]>
    requires { All (λ m. m.server < length servers.now) mounts.now }
    ensures weight { unwrap_or result [] ≡ greatest_of (map (λ m. slice_index_or servers.now m.server []) (filter (λ m. m.device == device) mounts.now)) }
    ensures mounted { is_some result ≡ list_any (λ m. m.device == device) mounts.now }
{
    let mut greatest = None;
    let mut index = mounts.len();
    while 0 < index {
        index -= 1;
        let mount = mounts[index];
        if mount.device as usize == device {
            greatest = Some(heavier(servers[mount.server as usize], greatest));
        }
    }
    greatest
}

fn heavier(first: [u8; 32], second: Option<[u8; 32]>) -> [u8; 32]
    ensures { result ≡ greater_of first (unwrap_or second []) }
{
    match second {
        None => first,
        Some(second) => match first.cmp(&second) {
            Ordering::Less => second,
            Ordering::Equal => first,
            Ordering::Greater => first,
        },
    }
}
