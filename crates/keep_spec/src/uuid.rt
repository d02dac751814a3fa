// The names of collections, services and mounts.
ghost use Rattle.std.specs.Prelude.{◌≡◌, IsTrue, length};
ghost use Rattle.std.specs.Result.{OkIff};
ghost use Rattle.keep_spec.specs.Uuid.{is_uuid, is_uuid_part, uuid_kind};

use std::marker::Model;

/// A UUID of Arvados: 27 characters, `-` at the 6th and the 12th place and `a-z0-9` elsewhere. Contracts see the list of its characters.
#[derive(Clone, Copy, Debug, PartialEq, Eq, PartialOrd, Ord)]
pub struct Uuid {
    bytes: [u8; 27],
}

impl Model for Uuid {
    ghost use Rattle.std.specs.Prelude.{List, ℕ, IsTrue};
    ghost use Rattle.keep_spec.specs.Uuid.{is_uuid};

    ghost Value = { List ℕ };

    ghost view = { λ u. u.bytes };

    ghost invariant = { λ u. IsTrue (is_uuid u.bytes) };

    ghost inverse = { λ bytes. record { bytes = bytes } };
}

/// The text isn't a UUID.
#[derive(Clone, Copy, Debug, PartialEq, Eq)]
pub struct BadUuid;

impl Uuid {
    /// Parses a UUID of any kind; `BadUuid` for any other text.
    pub fn read(text: &[u8]) -> Result<Uuid, BadUuid>
        ensures { OkIff result (IsTrue (is_uuid text.now)) text.now }
    {
        if !is_uuid(text) {
            return Err(BadUuid);
        }
        let mut bytes = [0; 27];
        bytes.copy_from_slice(text);
        Ok(Uuid { bytes })
    }

    /// Its 27 characters.
    pub fn as_bytes(&self) -> &[u8; 27]
        ensures text { result.now ≡ self.now }
        ensures form { IsTrue (is_uuid self.now) }
    {
        &self.bytes
    }

    /// The middle part: `4zz18` for a collection, `bi6l4` for a service, `nyw5e` for a mount.
    pub fn kind(&self) -> &[u8]
        ensures { result.now ≡ uuid_kind self.now }
    {
        &self.bytes[6..11]
    }
}

fn is_uuid(text: &[u8]) -> bool
    ensures { result ≡ is_uuid text.now }
{
    text.len() == 27
        && is_uuid_part(&text[0..5])
        && text[5] == b'-'
        && is_uuid_part(&text[6..11])
        && text[11] == b'-'
        && is_uuid_part(&text[12..27])
}

fn is_uuid_part(text: &[u8]) -> bool
    ensures { result ≡ is_uuid_part text.now }
{
    text.iter().all(|b| (*b >= b'a' && *b <= b'z') || (*b >= b'0' && *b <= b'9'))
}
