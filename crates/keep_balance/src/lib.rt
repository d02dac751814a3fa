//! The balance task: a round as a task, which asks one query a step.
#![tactic(auto)]

mod answers;
mod copies;
mod gathering;
mod planning;
mod prefixes;
mod steps;
mod task;
mod totals;

pub use task::BalanceTask;
