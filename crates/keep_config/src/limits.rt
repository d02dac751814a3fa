// Tests the fields of a configuration against their bounds.
ghost use Rattle.std.specs.Prelude.{◌≡◌, ◌==◌, IfOk, length, bytes_eq};
ghost use Rattle.std.specs.List.{list_all, list_any};
ghost use Rattle.keep_spec.specs.Uuid.{is_uuid_part};
ghost use Rattle.keep_spec.specs.Config.{is_within, is_cluster, is_secret, is_token, are_tokens, is_device, are_devices, is_server, are_servers, is_mount, all_mounted, are_mounts};

use crate::distinct::all_distinct;
use keep_spec::{Bytes, Device, Mount, NoMemory, Server};
use std::alloc::Global;

fn is_within(low: usize, high: usize, number: usize) -> bool
    ensures { result ≡ is_within low high number }
{
    number >= low && number <= high
}

pub(crate) fn is_cluster(text: &[u8]) -> bool
    ensures { result ≡ is_cluster text.now }
{
    text.len() == 5 && all_alphanumeric(text)
}

fn all_alphanumeric(text: &[u8]) -> bool
    ensures { result ≡ is_uuid_part text.now }
{
    text.iter().all(|b| (*b >= b'a' && *b <= b'z') || (*b >= b'0' && *b <= b'9'))
}

pub(crate) fn is_secret(bytes: &[u8]) -> bool
    ensures { result ≡ is_secret bytes.now }
{
    is_within(1, 4096, bytes.len())
}

pub(crate) fn is_token(text: &[u8]) -> bool
    ensures { result ≡ is_token text.now }
{
    is_within(1, 250, text.len()) && all_graphic(text)
}

fn all_graphic(text: &[u8]) -> bool
    ensures { result ≡ list_all (is_within 33 126) text.now }
{
    text.iter().all(|b| *b >= b'!' && *b <= b'~')
}

pub(crate) fn are_tokens(
    alloc: Global,
    system_token: &Bytes,
    tokens: &[Bytes],
) -> Result<bool, NoMemory>
    ensures { IfOk result (λ b. b ≡ are_tokens system_token.now tokens.now) }
{
    if !is_within(1, 1000, tokens.len()) || !all_tokens(tokens) {
        return Ok(false);
    }
    let distinct = all_distinct(alloc, tokens)?;
    Ok(distinct && !is_among(system_token.as_slice(), tokens))
}

fn all_tokens(tokens: &[Bytes]) -> bool
    ensures { result ≡ list_all is_token tokens.now }
{
    tokens.iter().all(|token| is_token(token.as_slice()))
}

fn is_among(text: &[u8], tokens: &[Bytes]) -> bool
    ensures { result ≡ list_any (bytes_eq text.now) tokens.now }
{
    for token in tokens {
        if text == token.as_slice() {
            return true;
        }
    }
    false
}

pub(crate) fn are_devices(devices: &[Device]) -> bool
    ensures { result ≡ are_devices devices.now }
{
    is_within(1, 64, devices.len()) && all_devices(devices)
}

fn all_devices(devices: &[Device]) -> bool
    ensures { result ≡ list_all is_device devices.now }
{
    devices.iter().all(|device| device.capacity <= 1 << 40)
}

pub(crate) fn are_servers(alloc: Global, servers: &[Server]) -> Result<bool, NoMemory>
    ensures { IfOk result (λ b. b ≡ are_servers servers.now) }
{
    if !is_within(1, 64, servers.len()) || !all_servers(servers) {
        return Ok(false);
    }
    all_distinct(alloc, servers)
}

fn all_servers(servers: &[Server]) -> bool
    ensures { result ≡ list_all is_server servers.now }
{
    servers.iter().all(is_server)
}

fn is_server(server: &Server) -> bool
    ensures { result ≡ is_server server.now }
{
    server.uuid.kind() == b"bi6l4".as_slice() && server.addresses.len() <= 8
}

/// Whether these are good mounts, given the numbers of devices and servers.
pub(crate) fn are_mounts(
    alloc: Global,
    devices: usize,
    servers: usize,
    mounts: &[Mount],
) -> Result<bool, NoMemory>
    ensures { IfOk result (λ b. b ≡ are_mounts devices servers mounts.now) }
{
    if !is_within(1, 256, mounts.len()) || !all_mounts(devices, servers, mounts) {
        return Ok(false);
    }
    let distinct = all_distinct(alloc, mounts)?;
    Ok(distinct && all_mounted(devices, mounts))
}

fn all_mounts(devices: usize, servers: usize, mounts: &[Mount]) -> bool
    ensures { result ≡ list_all (is_mount devices servers) mounts.now }
{
    mounts.iter().all(|mount| is_mount(devices, servers, mount))
}

fn is_mount(devices: usize, servers: usize, mount: &Mount) -> bool
    ensures { result ≡ is_mount devices servers mount.now }
{
    mount.uuid.kind() == b"nyw5e".as_slice()
        && (mount.device as usize) < devices
        && (mount.server as usize) < servers
}

/// Whether each of n devices has a mount.
fn all_mounted(devices: usize, mounts: &[Mount]) -> bool
    ensures { result ≡ all_mounted devices mounts.now }
{
    for device in (0..devices).rev() {
        if !is_mounted(device, mounts) {
            return false;
        }
    }
    true
}

fn is_mounted(device: usize, mounts: &[Mount]) -> bool
    ensures { result ≡ list_any (λ m. m.device == device) mounts.now }
{
    mounts.iter().any(|mount| mount.device as usize == device)
}
