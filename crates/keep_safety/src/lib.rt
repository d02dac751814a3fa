//! What may happen in a cluster, and the safety of it: no block that a held collection or an unexpired signature names is lost. Definitions, and the theorem on them.
#![tactic(auto)]

mod laws;
mod superseded;

pub use laws::signatures_keep_blocks;
pub use superseded::Superseded;
