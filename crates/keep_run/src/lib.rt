//! The top call: a script is read, its lines are done on the devices and the table, and their text is written.
#![tactic(auto)]

mod asking;
mod call;
mod run;
mod stage;
mod stores;

pub use call::run_call;
