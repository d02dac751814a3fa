// The requests of a client, and whom they go to.
ghost use Rattle.std.specs.Prelude.{◌≡◌, ◌≤◌, ◌∷◌, true, map, length, IsTrue, IfOk};
ghost use Rattle.std.specs.List.{list_all};
ghost use Rattle.keep_spec.specs.Digest.{is_lower_digit};
ghost use Rattle.keep_spec.specs.Locator.{is_locator};
ghost use Rattle.keep_spec.specs.Uuid.{is_uuid};
ghost use Rattle.keep_wire.specs.Written.{is_visible};
ghost use Rattle.keep_client.specs.Answers.{servers_for, sent_as, put_request, get_request, index_path, index_request};

use itoa::Buffer;
use keep_config::Config;
use keep_event::Block;
use keep_order::order;
use keep_spec::{Bytes, Digest, NoMemory, Server, Uuid, is_lower_digit};
use keep_wire::write_request;
use std::alloc::Global;

// The servers in the order in which they are asked for a block.
pub(crate) fn servers_for(
    alloc: Global,
    config: &Config,
    digest: &Digest,
) -> Result<Vec<u32>, NoMemory>
    ensures { IfOk result (λ v. v.items ≡ servers_for config.now digest.now) }
{
    let uuids = uuids_of(alloc, config.servers.as_slice())?;
    order(alloc, digest, &uuids)
}

fn uuids_of(alloc: Global, servers: &[Server]) -> Result<Vec<Uuid>, NoMemory>
    ensures { IfOk result (λ v. v.items ≡ map (λ s. s.uuid) servers.now) }
{
    let mut uuids = Vec::with_capacity(alloc, servers.len())?;
    for server in servers {
        if uuids.push(server.uuid).is_err() {
            return Err(NoMemory);
        }
    }
    Ok(uuids)
}

fn is_visible(byte: u8) -> bool
    ensures { result ≡ is_visible byte }
{
    byte > b' ' && byte < 127
}

fn are_visible(token: &[u8]) -> bool
    ensures { result ≡ list_all is_visible token.now }
{
    token.iter().all(|byte| is_visible(*byte))
}

fn sent_as(token: &[u8]) -> &[u8]
    ensures { result.now ≡ sent_as token.now }
{
    if are_visible(token) { token } else { &[] }
}

fn path_of(alloc: Global, name: &[u8]) -> Result<Vec<u8>, NoMemory>
    ensures { IfOk result (λ v. v.items ≡ 47 ∷ name.now) }
{
    let mut path = Vec::from_slice(alloc, b"/")?;
    path.extend_from_slice(name)?;
    Ok(path)
}

// The request that puts a block.
pub(crate) fn put_request(alloc: Global, token: &[u8], block: &Block) -> Result<Bytes, NoMemory>
    ensures { IfOk result (λ b. b ≡ put_request token.now block.now) }
{
    let path = path_of(alloc, block.digest().write().as_slice())?;
    write_request(alloc, b"PUT", &path, sent_as(token), block.bytes())
}

// The request that gets a block by its locator.
pub(crate) fn get_request(alloc: Global, token: &[u8], locator: &[u8]) -> Result<Bytes, NoMemory>
    requires { is_locator locator.now ≡ true }
    ensures { IfOk result (λ b. b ≡ get_request token.now locator.now) }
{
    let path = path_of(alloc, locator)?;
    write_request(alloc, b"GET", &path, sent_as(token), b"")
}

// The request that asks for the index of a mount.
pub(crate) fn index_request(
    alloc: Global,
    token: &[u8],
    mount: &Uuid,
    round: u64,
    prefix: &[u8],
) -> Result<Bytes, NoMemory>
    requires { list_all is_lower_digit prefix.now ≡ true }
    ensures { IfOk result (λ b. b ≡ index_request token.now mount.now round prefix.now) }
{
    let path = index_path(alloc, mount, round, prefix)?;
    write_request(alloc, b"GET", &path, sent_as(token), b"")
}

fn are_lower_digits(text: &[u8]) -> bool
    ensures { result ≡ list_all is_lower_digit text.now }
{
    text.iter().all(|byte| is_lower_digit(*byte))
}

/// Whether a text may be the prefix of an index: at most 32 lower-case hexadecimal digits.
pub fn is_index_prefix(text: &[u8]) -> bool
    ensures digits { IsTrue result → list_all is_lower_digit text.now ≡ true }
    ensures short { IsTrue result → length text.now ≤ 32 }
    ensures all { list_all is_lower_digit text.now ≡ true → length text.now ≤ 32 → IsTrue result }
{
    are_lower_digits(text) && text.len() <= 32
}

fn index_path(alloc: Global, mount: &Uuid, round: u64, prefix: &[u8]) -> Result<Vec<u8>, NoMemory>
    ensures path { IfOk result (λ v. v.items ≡ index_path mount.now round prefix.now) }
    ensures form { IsTrue (is_uuid mount.now) }
{
    let name = mount.as_bytes();
    let mut buffer = Buffer::new();
    let mut path = Vec::from_slice(alloc, b"/mounts/")?;
    path.extend_from_slice(name)?;
    path.extend_from_slice(b"/blocks/")?;
    path.extend_from_slice(buffer.format(round).as_bytes())?;
    path.extend_from_slice(b"/")?;
    path.extend_from_slice(prefix)?;
    Ok(path)
}
