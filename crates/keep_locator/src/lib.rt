//! Locators: the names of blocks in texts (Arvados). A locator is parsed where it stands and borrows its text; no call takes memory.
#![tactic(auto)]

mod hint;
mod hint_state;
mod laws;
mod locator;

pub use hint::{first_hint, is_permission_hint};
pub use keep_spec::{Digest, PORTABLE_MAX, Permission, Portable, Unverified};
pub use laws::{digests_have_one_text, locators_are_joined_parts, prefixes_are_decidable};
pub use locator::{BadLocator, Locator};
