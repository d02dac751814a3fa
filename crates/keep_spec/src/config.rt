// The parts of a configuration, and the names of its fields.
use crate::{Bytes, Items, Uuid};
use std::fmt;

/// A device of the configuration.
#[derive(Clone, Copy, Debug, PartialEq, Eq)]
pub struct Device {
    /// The most bytes that its replicas and trashed copies may have together, at most 2^40.
    pub capacity: u64,
    /// Whether it refuses every change of its replicas.
    pub read_only: bool,
}

/// A server of the configuration.
#[derive(Drop, Debug, PartialEq, Eq)]
pub struct Server {
    /// Its name, of kind `bi6l4`.
    pub uuid: Uuid,
    /// The addresses on which it listens, at most 8.
    pub addresses: Items<Bytes>,
}

/// A mount of the configuration: a server's access to a device.
#[derive(Clone, Copy, Debug, PartialEq, Eq)]
pub struct Mount {
    /// Its name, of kind `nyw5e`.
    pub uuid: Uuid,
    /// The server's index in the configuration, from 0.
    pub server: u32,
    /// The device's index in the configuration, from 0.
    pub device: u32,
}

/// What is wrong with a configuration: the first field, in this order, that is missing without a default or isn't as required. It is shown as `name` says.
#[derive(Clone, Copy, Debug, PartialEq, Eq)]
pub enum Field {
    /// The text isn't a JSON object, or there is none.
    Line,
    /// The cluster's name: text, 5 characters of `a-z0-9`.
    Cluster,
    /// The lifetime of signatures: 1 to 10^8 seconds.
    Ttl,
    /// The most by which two clocks may differ: 0 to 3600 seconds.
    Skew,
    /// The key of signatures: text, 1 to 4096 bytes.
    Secret,
    /// The system's token: text, 1 to 250 characters from `!` to `~`.
    SystemToken,
    /// The clients' tokens: 1 to 1000 such texts, distinct, and other than the system token.
    Tokens,
    /// The devices: 1 to 64 objects of `capacity` and `read_only`.
    Devices,
    /// The servers: 1 to 64 objects of `uuid` and `addresses`, the UUIDs distinct.
    Servers,
    /// The mounts: 1 to 256 objects of `uuid`, `server` and `device`, the UUIDs distinct, and each device in one of them.
    Mounts,
    /// How many versions of a collection are held besides the current one: 1 to 1000.
    Versions,
    /// How long a trashed copy is kept: 0 to 10^8 seconds.
    TrashLife,
    /// How many hexadecimal digits a round's pages are split by: so far 0 alone.
    IndexDigits,
    /// How many records a page of a scan has at most: 1 to 100000.
    ScanLimit,
    /// Every field is as required, and some object has a name that isn't known there.
    Unknown,
}

impl Field {
    ghost use Rattle.std.specs.Prelude.{◌≡◌};
    ghost use Rattle.keep_spec.specs.Config.{field_name};

    /// The field's name, in a configuration and in messages.
    pub fn name(self) -> &'static str
        ensures { result.now ≡ field_name self }
    {
        match self {
            Field::Line => "Line",
            Field::Cluster => "cluster",
            Field::Ttl => "ttl",
            Field::Skew => "skew",
            Field::Secret => "secret",
            Field::SystemToken => "system_token",
            Field::Tokens => "tokens",
            Field::Devices => "devices",
            Field::Servers => "servers",
            Field::Mounts => "mounts",
            Field::Versions => "versions",
            Field::TrashLife => "trash_life",
            Field::IndexDigits => "index_digits",
            Field::ScanLimit => "scan_limit",
            Field::Unknown => "Unknown",
        }
    }
}

impl fmt::Display for Field {
    ghost use Rattle.std.specs.Prelude.{Some};
    ghost use Rattle.keep_spec.specs.Config.{field_name};

    ghost output = { λ field. Some (field_name field) };

    fn fmt<W: fmt::Write>(&self, f: &mut fmt::Formatter<W>) -> fmt::Result {
        f.write_str(self.name())
    }
}
