//! Tasks and script lines, and in `specs/` definitions over whole runs: what a script line asks, what a task asks next, what lines do and print, and how a run ends.
#![tactic(auto)]

mod task;

pub use task::{Command, Opening, Outcome, Task, TaskState};
