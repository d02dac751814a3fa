//! Runs the cases of scripts in the files beside it, and prints a line for each: its name and `ok`, or what differs. `crates/keep_cases/README.md` says how a case is
//! written.
#![tactic(auto)]

mod runs;
mod statuses;

use keep_casebook::{Answer, Case, Subjects, run_cases};
use std::alloc::Global;
use std::io;

// The subjects of this program.
#[derive(Clone, Copy)]
struct Scripts;

impl Subjects for Scripts {
    fn answer_to(&self, alloc: Global, subject: &str, case: &Case, answer: &mut Answer) -> bool {
        match subject {
            "commands" => runs::answer_commands(alloc, case, answer),
            "runs" => runs::answer(alloc, case, answer),
            "statuses" => statuses::answer(alloc, case, answer),
            _ => return false,
        }
        true
    }
}

fn main(rt: HostRuntime) -> io::Result<()> {
    run_cases(&rt, &Scripts)
}
