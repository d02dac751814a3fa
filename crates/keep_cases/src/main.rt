//! Runs the cases of texts, lists and messages, and prints a line for each: its name and `ok`, or what differs. README.md says how a case is written, and how
//! a subject is added.
#![tactic(auto)]

mod configurations;
mod indexes;
mod lines;
mod lists;
mod locators;
mod manifests;
mod names;
mod orders;
mod packs;
mod pieces;
mod printed;
mod script;
mod signing;
mod subjects;
mod texts;
mod wire;
mod written;

use crate::subjects::Cases;
use keep_casebook::run_cases;
use std::io;

fn main(rt: HostRuntime) -> io::Result<()> {
    run_cases(&rt, &Cases)
}
