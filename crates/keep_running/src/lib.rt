//! Tasks of any kind: those of clients, balance tasks and workers, and the opening of each.
#![tactic(auto)]

mod running;

pub use running::{AnyTask, open_any};
