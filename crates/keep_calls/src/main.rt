//! Runs the cases of calls on devices, tables, tasks and plans, and of whole histories, and prints a line for each: its name and `ok`, or what differs.
//! The README of `keep_cases` says how a case is written, and how a subject is added.
#![tactic(auto)]

mod copies;
mod counted;
mod devices;
mod moments;
mod plans;
mod safety;
mod subjects;
mod tables;
mod tasks;
mod volumes;
mod worlds;

use crate::subjects::Cases;
use keep_casebook::run_cases;
use std::io;

fn main(rt: HostRuntime) -> io::Result<()> {
    run_cases(&rt, &Cases)
}
