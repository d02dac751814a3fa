// Fetching the index of a mount.
ghost use Rattle.std.specs.Prelude.{◌≡◌, ◌≤◌, true, bytes_eq, IfErr, IsSome, length};
ghost use Rattle.std.specs.List.{list_all};
ghost use Rattle.keep_spec.specs.Causes.{Rose};
ghost use Rattle.keep_spec.specs.Digest.{is_lower_digit};
ghost use Rattle.keep_client.specs.Answers.{server_of, IsFetchAnswer, IsFetchedFrom, IsFetched, BlamesLink};

use crate::error::ClientError;
use crate::exchange::exchange;
use crate::link::{Link, Standing};
use crate::requests::index_request;
use crate::said::Said;
use keep_config::Config;
use keep_event::Entry;
use keep_lists::{IndexError, read_index};
use keep_spec::{Mount, Uuid};
use keep_wire::Response;
use std::alloc::Global;

/// Asks the server of a mount for the index of its device in a round: the blocks whose digits begin with `prefix`. It is asked with the system token.
///
/// `LinkFault` comes where a call of the link failed, `BadResponse` where the answer isn't HTTP, `Refused` where its status isn't 200, and `BadIndex` and `CutIndex` as `read_index` returns them for the body of a 200.
pub fn fetch_index<L: Link>(
    alloc: Global,
    link: &mut L,
    config: &Config,
    mount: &Uuid,
    round: u64,
    prefix: &[u8],
) -> Result<Vec<Entry>, ClientError>
    requires known { IsSome (server_of config.now mount.now) }
    requires short { length prefix.now ≤ 32 }
    requires digits { list_all is_lower_digit prefix.now ≡ true }
    ensures answer { IsFetchAnswer config.now mount.now round prefix.now (L.told link.old) (L.told link.new) result }
    ensures closed { L.standing link.old ≡ Standing.Closed → L.standing link.new ≡ Standing.Closed }
    ensures never_falls { L.faults link.old ≤ L.faults link.new }
    ensures cause { IfErr result (λ e. BlamesLink e → Rose (L.faults link.old) (L.faults link.new)) }
{
    let Some(server) = server_of(config, mount) else {
        unreachable!()
    };
    let request = index_request(alloc, config.system_token.as_slice(), mount, round, prefix)?;
    fetch_from(alloc, link, server, request.as_slice())
}

fn fetch_from<L: Link>(
    alloc: Global,
    link: &mut L,
    server: u32,
    request: &[u8],
) -> Result<Vec<Entry>, ClientError>
    ensures answer { IsFetchedFrom server request.now (L.told link.old) (L.told link.new) result }
    ensures closed { L.standing link.old ≡ Standing.Closed → L.standing link.new ≡ Standing.Closed }
    ensures never_falls { L.faults link.old ≤ L.faults link.new }
    ensures cause { IfErr result (λ e. BlamesLink e → Rose (L.faults link.old) (L.faults link.new)) }
{
    match exchange(alloc, link, server, request) {
        Ok(said) => fetched(alloc, said),
        Err(_) => Err(ClientError::NoMemory),
    }
}

fn is_mount(mount: &Mount, uuid: &Uuid) -> bool
    ensures { result ≡ bytes_eq mount.now.uuid uuid.now }
{
    mount.uuid.as_bytes().as_slice() == uuid.as_bytes().as_slice()
}

/// The number of the server that has a mount; `None` where the configuration has no such mount.
pub fn server_of(config: &Config, mount: &Uuid) -> Option<u32>
    ensures { result ≡ server_of config.now mount.now }
{
    let found = config
        .mounts
        .as_slice()
        .iter()
        .find(|known| is_mount(known, mount));
    match found {
        Some(known) => Some(known.server),
        None => None,
    }
}

// The index that a server's answer has.
fn fetched(alloc: Global, said: Said) -> Result<Vec<Entry>, ClientError>
    ensures answer { IsFetched said result }
    ensures cause { IfErr result (λ e. BlamesLink e → said ≡ Said.Failed) }
{
    match said {
        Said::Failed => Err(ClientError::LinkFault),
        Said::Broken => Err(ClientError::BadResponse),
        Said::Answered(response) => index_in(alloc, &response),
    }
}

fn index_in(alloc: Global, response: &Response) -> Result<Vec<Entry>, ClientError>
    ensures { IsFetched (Said.Answered response.now) result }
{
    if response.status != 200 {
        return Err(ClientError::Refused {
            status: response.status,
        });
    }
    match read_index(alloc, response.body.as_slice()) {
        Ok(entries) => Ok(entries),
        Err(error) => match error {
            IndexError::BadIndex { at } => Err(ClientError::BadIndex { at }),
            IndexError::CutIndex => Err(ClientError::CutIndex),
            IndexError::NoMemory => Err(ClientError::NoMemory),
        },
    }
}
