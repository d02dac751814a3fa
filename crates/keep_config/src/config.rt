// The configuration: parsing, and what follows from its fields.
ghost use Rattle.std.specs.Prelude.{◌≡◌, ◌==◌, IfOk, map, filter};
ghost use Rattle.keep_spec.specs.Config.{firsts};

use crate::error::ConfigError;
use crate::fields::parse_fields;
use crate::json;
use keep_spec::{
    Bytes, Device, Field, Items, Mount, NANOS_PER_SECOND, NoMemory, Server, TokenId, grace_nanos,
    guard_nanos,
};
use std::alloc::Global;
use std::marker::Model;

/// A configuration. Every value is within the bounds of its field, names are distinct, and mounts name servers and devices that exist, as `Config::read` tests.
#[derive(Drop, Debug, PartialEq, Eq)]
pub struct Config {
    /// The cluster's name, 5 characters.
    pub cluster: Bytes,
    /// How long a signature is valid, in seconds.
    pub ttl: u32,
    /// By how much two clocks may differ, in seconds.
    pub skew: u32,
    /// The key of signatures, 1 to 4096 bytes.
    pub secret: Bytes,
    /// The token number 0, 1 to 250 bytes.
    pub system_token: Bytes,
    /// The clients' tokens, from number 1 on.
    pub tokens: Items<Bytes>,
    /// The devices, numbered from 0.
    pub devices: Items<Device>,
    /// The servers, numbered from 0.
    pub servers: Items<Server>,
    /// Which server has which device. Each device has a mount.
    pub mounts: Items<Mount>,
    /// How many versions of a collection are held besides the current one.
    pub versions: u32,
    /// How long a trashed copy is kept, in seconds.
    pub trash_life: u32,
    /// How many hexadecimal digits a round's pages are split by: 0.
    pub index_digits: u32,
    /// How many records a page of a scan has at most.
    pub scan_limit: u32,
}

impl Model for Config {
    ghost use Rattle.keep_spec.specs.Config.{Configuration, IsGood};

    ghost Value = { Configuration };

    ghost use Rattle.keep_config.specs.Shown.{shown, inside};

    ghost view = { shown };

    ghost invariant = { λ c. IsGood (shown c) };

    ghost inverse = { inside };
}

impl Config {
    ghost use Rattle.std.specs.Prelude.{◌≡◌, ◌↔◌, ◌+◌, ◌<◌, ◌≤◌, length, Some, IfOk, IsTrue, All, slice_get};
    ghost use Rattle.keep_spec.specs.Config.{config_of, token_of, token_text, devices_of};
    ghost use Rattle.keep_spec.specs.Times.{nanos, guard, grace, threshold};
    ghost use Rattle.keep_config.specs.Parsed.{IsParsed};

    /// Parses a configuration: one JSON object; of a name that stands twice in it the last counts.
    /// `BadConfig` names the first field, in the order of the struct's fields, that is missing without a default or isn't as required; before them comes `Line`, after them `Unknown`.
    /// The format is this project's own.
    #[tactic(auto, unfolding(keep_spec::specs::Config::field, keep_spec::specs::Config::config_of))]
    pub fn read(alloc: Global, text: &[u8]) -> Result<Config, ConfigError>
        ensures { IsParsed (config_of text.now) result }
    {
        match json::value_of(alloc, text)? {
            Some(value) if value.is_object() => parse_fields(alloc, &value),
            _ => Err(ConfigError::BadConfig { field: Field::Line }),
        }
    }

    /// Whether both are the same configuration; so does `==`.
    pub fn same(&self, other: &Config) -> bool
        ensures { IsTrue result ↔ (self.now ≡ other.now) }
    {
        self == other
    }

    /// The token of this text: number 0 is the system token, 1 and up are `tokens` in order. `None` if there is none.
    pub fn token(&self, text: &[u8]) -> Option<TokenId>
        ensures { result ≡ token_of self.now text.now }
    {
        if text == self.system_token.as_slice() {
            return Some(TokenId { number: 0 });
        }
        for (i, token) in self.tokens.as_slice().iter().enumerate() {
            if text == token.as_slice() {
                return Some(TokenId {
                    number: i as u32 + 1,
                });
            }
        }
        None
    }

    /// The text of one of the configuration's tokens.
    pub fn token_text(&self, token: TokenId) -> &[u8]
        requires { token.number ≤ length self.now.tokens }
        ensures { result.now ≡ token_text self.now token }
    {
        if token.number == 0 {
            self.system_token.as_slice()
        } else {
            self.tokens.as_slice()[token.number as usize - 1].as_slice()
        }
    }

    /// The devices of a server's mounts, each once, in the order of the mounts. A number that no server has gives none.
    pub fn devices_of(&self, alloc: Global, server: u32) -> Result<Vec<u32>, NoMemory>
        ensures devices { IfOk result (λ v. v.items ≡ devices_of self.now server) }
        ensures within { IfOk result (λ v. All (λ d. d < length self.now.devices) v.items) }
    {
        devices_on(alloc, self.mounts.as_slice(), server)
    }

    /// One of the devices, by its number.
    pub fn device(&self, device: u32) -> Device
        requires { device < length self.now.devices }
        ensures { slice_get self.now.devices device ≡ Some result }
    {
        self.devices.as_slice()[device as usize]
    }

    /// The guard, in nanoseconds: twice the skew.
    pub fn guard_nanos(&self) -> u64
        ensures { result ≡ guard self.now.skew }
    {
        guard_nanos(self.skew)
    }

    /// How long a block is kept after it was signed, in nanoseconds: the lifetime of a signature and the guard.
    pub fn grace_nanos(&self) -> u64
        ensures { result ≡ grace self.now.ttl self.now.skew }
    {
        grace_nanos(self.ttl, self.skew)
    }

    /// How long a trashed copy is kept, in nanoseconds.
    pub fn trash_life_nanos(&self) -> u64
        ensures { result ≡ nanos self.now.trash_life }
    {
        u64::from(self.trash_life) * NANOS_PER_SECOND
    }

    /// The reading before which a replica must be written so that a round that starts at `start` may trash it: `start` less `grace_nanos`, or 0. Readings are in nanoseconds since 1970.
    pub fn threshold(&self, start: u64) -> u64
        ensures { result ≡ threshold self.now.ttl self.now.skew start }
    {
        start.saturating_sub(self.grace_nanos())
    }
}

fn devices_on(alloc: Global, mounts: &[Mount], server: u32) -> Result<Vec<u32>, NoMemory>
    ensures { IfOk result (λ v. v.items ≡ firsts (map (λ m. m.device) (filter (λ m. m.server == server) mounts.now))) }
{
    let mut devices = Vec::new(alloc);
    for mount in mounts {
        if mount.server == server && !devices.contains(&mount.device) {
            if devices.push(mount.device).is_err() {
                return Err(NoMemory);
            }
        }
    }
    Ok(devices)
}
