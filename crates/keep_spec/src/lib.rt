//! The plain types that definitions name, and in `specs/` the definitions on texts that the contracts of the other crates cite.
#![tactic(auto)]

mod bytes;
mod bytes_order;
mod config;
mod digest;
mod equality;
mod failed;
mod items;
mod manifest;
mod memory;
mod number;
mod permission;
mod portable;
mod status;
mod times;
mod token;
mod unverified;
mod uuid;

pub use bytes::Bytes;
pub use config::{Device, Field, Mount, Server};
pub use digest::{DIGEST_DIGITS, Digest, digest_prefix_len, is_lower_digit};
pub use failed::Failed;
pub use items::Items;
pub use manifest::{Kind, Manifest, Refusal, Segment, Stream};
pub use memory::NoMemory;
pub use number::{NUMBER_DIGITS, NumberPrefix, number_prefix, read_number};
pub use permission::Permission;
pub use portable::{PORTABLE_MAX, Portable};
pub use status::{AuditFault, Status};
pub use times::{NANOS_PER_SECOND, READING_END, grace_nanos, guard_nanos};
pub use token::TokenId;
pub use unverified::{Unverified, Verified};
pub use uuid::{BadUuid, Uuid};
