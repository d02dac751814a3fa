// Parses the fields of a configuration in order, so that the first that isn't as required is named.
ghost use Rattle.std.specs.Prelude.{◌≤◌, length, codes, ◌≡◌};
ghost use Rattle.serde_json.specs.Find.{as_str};
ghost use Rattle.serde_json.specs.View.{view};
ghost use Rattle.keep_spec.specs.Json.{text_at, number_at, list_at};
ghost use Rattle.keep_spec.specs.Config.{is_within, is_cluster, is_secret, is_token, are_tokens, are_devices, are_servers, are_mounts, device_of, server_of, mount_of, number_or, all_known, field, field_name, config_of_object};
ghost use Rattle.keep_config.specs.Parsed.{IsParsed};

use crate::config::Config;
use crate::error::ConfigError;
use crate::{json, limits};
use keep_spec::{Bytes, Device, Field, Items, Mount, Server};
use serde_json::Value;
use std::alloc::Global;

fn bad(field: Field) -> ConfigError
    ensures { result ≡ ConfigError.BadConfig field }
{
    ConfigError::BadConfig { field }
}

#[tactic(auto, unfolding(keep_spec::specs::Config::field))]
fn cluster_of(alloc: Global, value: &Value) -> Result<Bytes, ConfigError>
    ensures { IsParsed (field Field.Cluster is_cluster (text_at (codes "cluster") (view value.now))) result }
{
    match json::text_at(value, Field::Cluster.name()) {
        Some(text) if limits::is_cluster(text.as_bytes()) => {
            Ok(Bytes::copy_of(alloc, text.as_bytes())?)
        }
        _ => Err(bad(Field::Cluster)),
    }
}

#[tactic(auto, unfolding(keep_spec::specs::Config::field))]
fn secret_of(alloc: Global, value: &Value) -> Result<Bytes, ConfigError>
    ensures { IsParsed (field Field.Secret is_secret (text_at (codes "secret") (view value.now))) result }
{
    match json::text_at(value, Field::Secret.name()) {
        Some(text) if limits::is_secret(text.as_bytes()) => {
            Ok(Bytes::copy_of(alloc, text.as_bytes())?)
        }
        _ => Err(bad(Field::Secret)),
    }
}

#[tactic(auto, unfolding(keep_spec::specs::Config::field))]
fn system_token_of(alloc: Global, value: &Value) -> Result<Bytes, ConfigError>
    ensures { IsParsed (field Field.SystemToken is_token (text_at (codes "system_token") (view value.now))) result }
{
    match json::text_at(value, Field::SystemToken.name()) {
        Some(text) if limits::is_token(text.as_bytes()) => {
            Ok(Bytes::copy_of(alloc, text.as_bytes())?)
        }
        _ => Err(bad(Field::SystemToken)),
    }
}

#[tactic(auto, unfolding(keep_spec::specs::Config::field))]
fn tokens_of(
    alloc: Global,
    value: &Value,
    system_token: &Bytes,
) -> Result<Items<Bytes>, ConfigError>
    ensures { IsParsed (field Field.Tokens (are_tokens system_token.now) (list_at as_str (codes "tokens") (view value.now))) result }
{
    let Some(tokens) = json::list_at(alloc, value, Field::Tokens.name())? else {
        return Err(bad(Field::Tokens));
    };
    if limits::are_tokens(alloc, system_token, tokens.as_slice())? {
        Ok(tokens)
    } else {
        Err(bad(Field::Tokens))
    }
}

#[tactic(auto, unfolding(keep_spec::specs::Config::field))]
fn devices_of(alloc: Global, value: &Value) -> Result<Items<Device>, ConfigError>
    ensures { IsParsed (field Field.Devices are_devices (list_at device_of (codes "devices") (view value.now))) result }
{
    let Some(devices) = json::list_at(alloc, value, Field::Devices.name())? else {
        return Err(bad(Field::Devices));
    };
    if limits::are_devices(devices.as_slice()) {
        Ok(devices)
    } else {
        Err(bad(Field::Devices))
    }
}

#[tactic(auto, unfolding(keep_spec::specs::Config::field))]
fn servers_of(alloc: Global, value: &Value) -> Result<Items<Server>, ConfigError>
    ensures { IsParsed (field Field.Servers are_servers (list_at server_of (codes "servers") (view value.now))) result }
{
    let Some(servers) = json::list_at(alloc, value, Field::Servers.name())? else {
        return Err(bad(Field::Servers));
    };
    if limits::are_servers(alloc, servers.as_slice())? {
        Ok(servers)
    } else {
        Err(bad(Field::Servers))
    }
}

#[tactic(auto, unfolding(keep_spec::specs::Config::field))]
fn mounts_of(
    alloc: Global,
    value: &Value,
    devices: &Items<Device>,
    servers: &Items<Server>,
) -> Result<Items<Mount>, ConfigError>
    ensures { IsParsed (field Field.Mounts (are_mounts (length devices.now) (length servers.now)) (list_at mount_of (codes "mounts") (view value.now))) result }
{
    let Some(mounts) = json::list_at(alloc, value, Field::Mounts.name())? else {
        return Err(bad(Field::Mounts));
    };
    if limits::are_mounts(alloc, devices.len(), servers.len(), mounts.as_slice())? {
        Ok(mounts)
    } else {
        Err(bad(Field::Mounts))
    }
}

// The number of a field, if it is within the bounds.
#[tactic(auto, unfolding(keep_spec::specs::Config::field))]
fn number_of(value: &Value, name: Field, low: u32, high: u32) -> Result<u32, ConfigError>
    ensures { IsParsed (field name (is_within low high) (number_at (field_name name) (view value.now))) result }
{
    match json::number_at(value, name.name()) {
        Some(number) if number >= u64::from(low) && number <= u64::from(high) => Ok(number as u32),
        _ => Err(bad(name)),
    }
}

// The same; the default if the field is absent.
#[tactic(auto, unfolding(keep_spec::specs::Config::field))]
fn number_or(
    value: &Value,
    name: Field,
    default: u32,
    low: u32,
    high: u32,
) -> Result<u32, ConfigError>
    requires low { low ≤ default }
    requires high { default ≤ high }
    ensures { IsParsed (field name (is_within low high) (number_or default (field_name name) (view value.now))) result }
{
    match value.get(name.name()) {
        Some(_) => number_of(value, name, low, high),
        None => Ok(default),
    }
}

fn all_known(value: &Value) -> bool
    ensures { result ≡ all_known (view value.now) }
{
    json::has_only(
        value,
        &[
            "cluster",
            "ttl",
            "skew",
            "secret",
            "system_token",
            "tokens",
            "devices",
            "servers",
            "mounts",
            "versions",
            "trash_life",
            "index_digits",
            "scan_limit",
        ],
    ) && json::each_has_only(value, "devices", &["capacity", "read_only"])
        && json::each_has_only(value, "servers", &["uuid", "addresses"])
        && json::each_has_only(value, "mounts", &["uuid", "server", "device"])
}

pub(crate) fn parse_fields(alloc: Global, value: &Value) -> Result<Config, ConfigError>
    ensures { IsParsed (config_of_object (view value.now)) result }
{
    let cluster = cluster_of(alloc, value)?;
    let ttl = number_of(value, Field::Ttl, 1, 100_000_000)?;
    let skew = number_of(value, Field::Skew, 0, 3600)?;
    let secret = secret_of(alloc, value)?;
    let system_token = system_token_of(alloc, value)?;
    let tokens = tokens_of(alloc, value, &system_token)?;
    let devices = devices_of(alloc, value)?;
    let servers = servers_of(alloc, value)?;
    let mounts = mounts_of(alloc, value, &devices, &servers)?;
    let versions = number_of(value, Field::Versions, 1, 1000)?;
    let trash_life = number_of(value, Field::TrashLife, 0, 100_000_000)?;
    let index_digits = number_or(value, Field::IndexDigits, 0, 0, 0)?;
    let scan_limit = number_or(value, Field::ScanLimit, 1000, 1, 100_000)?;
    if !all_known(value) {
        return Err(bad(Field::Unknown));
    }
    Ok(Config {
        cluster,
        ttl,
        skew,
        secret,
        system_token,
        tokens,
        devices,
        servers,
        mounts,
        versions,
        trash_life,
        index_digits,
        scan_limit,
    })
}
