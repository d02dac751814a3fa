// Copies that a round keeps: of rows, and of the configuration.
ghost use Rattle.std.specs.Prelude.{◌≡◌, IfOk};

use keep_config::Config;
use keep_event::ScanRow;
use keep_spec::{Bytes, Items, NoMemory, Server};
use std::alloc::Global;

/// Copies rows. NoMemory is the only error.
pub(crate) fn copy_rows(alloc: Global, rows: &[ScanRow]) -> Result<Vec<ScanRow>, NoMemory>
    ensures { IfOk result (λ copy. copy.items ≡ rows.now) }
{
    let mut copy = Vec::with_capacity(alloc, rows.len())?;
    for row in rows {
        let digests = Items::of(Vec::from_slice(alloc, row.digests.as_slice())?);
        let row = ScanRow {
            revision: row.revision,
            digests,
            want: row.want,
        };
        if copy.push(row).is_err() {
            return Err(NoMemory);
        }
    }
    Ok(copy)
}

/// Copies a configuration. NoMemory is the only error.
pub(crate) fn copy_config(alloc: Global, config: &Config) -> Result<Config, NoMemory>
    ensures { IfOk result (λ copy. copy ≡ config.now) }
{
    Ok(Config {
        cluster: config.cluster.duplicate(alloc)?,
        ttl: config.ttl,
        skew: config.skew,
        secret: config.secret.duplicate(alloc)?,
        system_token: config.system_token.duplicate(alloc)?,
        tokens: Items::of(copy_texts(alloc, config.tokens.as_slice())?),
        devices: Items::of(Vec::from_slice(alloc, config.devices.as_slice())?),
        servers: Items::of(copy_servers(alloc, config.servers.as_slice())?),
        mounts: Items::of(Vec::from_slice(alloc, config.mounts.as_slice())?),
        versions: config.versions,
        trash_life: config.trash_life,
        index_digits: config.index_digits,
        scan_limit: config.scan_limit,
    })
}

fn copy_texts(alloc: Global, texts: &[Bytes]) -> Result<Vec<Bytes>, NoMemory>
    ensures { IfOk result (λ copy. copy.items ≡ texts.now) }
{
    let mut copy = Vec::with_capacity(alloc, texts.len())?;
    for text in texts {
        if copy.push(text.duplicate(alloc)?).is_err() {
            return Err(NoMemory);
        }
    }
    Ok(copy)
}

fn copy_servers(alloc: Global, servers: &[Server]) -> Result<Vec<Server>, NoMemory>
    ensures { IfOk result (λ copy. copy.items ≡ servers.now) }
{
    let mut copy = Vec::with_capacity(alloc, servers.len())?;
    for server in servers {
        let addresses = Items::of(copy_texts(alloc, server.addresses.as_slice())?);
        let server = Server {
            uuid: server.uuid,
            addresses,
        };
        if copy.push(server).is_err() {
            return Err(NoMemory);
        }
    }
    Ok(copy)
}
