//! Signatures of locators: HMAC-SHA1 under the cluster's secret, made, checked, and put into and taken out of manifests.
#![tactic(auto)]

mod hint;
mod laws;
mod mac;
mod signature;
mod text;
mod verification;

pub use hint::push_permission_hint;
pub use keep_manifest::BadManifest;
pub use keep_spec::{Permission, Unverified, Verified};
pub use laws::{
    other_signatures_are_invalid, signed_locators_are_valid, unsigned_locators_have_no_permission,
};
pub use mac::hmac;
pub use signature::{hex8, sign};
pub use text::{sign_manifest, unsigned_manifest};
pub use verification::verify;
