//! The port of a run: the devices of a configuration over their stores, and the table of collections.
#![tactic(auto)]

mod asking;
mod cluster;

pub use cluster::{Cluster, device_rules};
