//! Cases as data: files of cases, what a case says, the answer that a program makes to it, and the loop over them. A program of cases brings its subjects.
//! `crates/keep_cases/README.md` says how a case is written. Nothing of the storage stands on this crate.
#![tactic(auto)]

mod answer;
mod book;
mod error;
mod run;
mod stores;

pub use answer::Answer;
pub use book::{Case, Setting, bytes_of_hex, numbers_of, repeated};
pub use error::OutOfMemory;
pub use run::{Subjects, run_cases};
pub use stores::{answer_store, put_held};
