// The subjects: which module answers the cases of a file.
use crate::{devices, moments, plans, safety, tables, tasks, worlds};
use keep_casebook::{Answer, Case, Subjects};
use std::alloc::Global;

/// The subjects of this program.
#[derive(Clone, Copy)]
pub struct Cases;

impl Subjects for Cases {
    fn answer_to(&self, alloc: Global, subject: &str, case: &Case, answer: &mut Answer) -> bool {
        match subject {
            "devices" => devices::answer(alloc, case, answer),
            "moments" => moments::answer(alloc, case, answer),
            "plans" => plans::answer(alloc, case, answer),
            "safety" => safety::answer(alloc, case, answer),
            "tables" => tables::answer(alloc, case, answer),
            "tasks" => tasks::answer(alloc, case, answer),
            "worlds" => worlds::answer(alloc, case, answer),
            _ => return false,
        }
        true
    }
}
