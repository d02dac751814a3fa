//! The order in which services and devices are asked for a block: Arvados' rendezvous hashing.
#![tactic(auto)]

mod places;
mod weights;

pub use places::{by_weight, order};
pub use weights::weight;
