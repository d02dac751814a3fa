//! What tasks of every kind have in common: how an opening ends or makes one, and a step, which is one query to a port and what its answer makes of the task.
#![tactic(auto)]

mod steps;

pub use steps::{Opened, Step, Steps};
