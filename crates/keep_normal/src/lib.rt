//! The portable data hash of a manifest, its files, and its normal form (the Arvados manifest format).
#![tactic(auto)]

mod block;
mod blocks;
mod fault;
mod groups;
mod hash;
mod joining;
mod laws;
mod listing;
mod normal;
mod part;
mod path;
mod segments;
mod span;
mod stripping;

pub use fault::NormalError;
pub use hash::{portable_hash, stripped_text};
pub use keep_manifest::{BadManifest, Manifest};
pub use keep_spec::Portable;
pub use laws::normal_forms_keep_files;
pub use listing::files;
pub use normal::normalize;
pub use part::{FileParts, Part};
