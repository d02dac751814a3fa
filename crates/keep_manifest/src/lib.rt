//! Manifests: reading, writing, and the digests that they name (the Arvados manifest format).
#![tactic(auto)]

mod cut;
mod digests;
mod fault;
mod good;
mod line;
mod names;
mod parsing;
mod segment;
mod writing;

pub use cut::cut_token;
pub use digests::named;
pub use fault::BadManifest;
pub use good::is_good;
pub use keep_spec::{Kind, Manifest, Refusal, Segment, Stream};
pub use names::{decode_name, encode_name};
pub use parsing::read;
pub use writing::write;
