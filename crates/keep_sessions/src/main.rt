//! Runs the cases of sessions over HTTP in the files beside it, and prints a line for each: its name and `ok`, or what differs. `crates/keep_cases/README.md`
//! says how a case is written.
#![tactic(auto)]

mod escapes;
mod instants;
mod parts;
mod responses;
mod sessions;
mod watched;

use keep_casebook::{Answer, Case, Subjects, run_cases};
use std::alloc::Global;
use std::io;

// The subjects of this program.
#[derive(Clone, Copy)]
struct SessionCases;

impl Subjects for SessionCases {
    fn answer_to(&self, alloc: Global, subject: &str, case: &Case, answer: &mut Answer) -> bool {
        match subject {
            "instants" => instants::answer(alloc, case, answer),
            "responses" => responses::answer(alloc, case, answer),
            "sessions" => sessions::answer(alloc, case, answer),
            _ => return false,
        }
        true
    }
}

fn main(rt: HostRuntime) -> io::Result<()> {
    run_cases(&rt, &SessionCases)
}
