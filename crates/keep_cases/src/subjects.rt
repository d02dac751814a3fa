// The subjects: which module answers the cases of a file.
use crate::{
    configurations, indexes, lines, lists, locators, manifests, names, orders, packs, printed,
    script, signing, texts, wire, written,
};
use keep_casebook::{Answer, Case, Subjects};
use std::alloc::Global;

/// The subjects of this program.
#[derive(Clone, Copy)]
pub struct Cases;

impl Subjects for Cases {
    fn answer_to(&self, alloc: Global, subject: &str, case: &Case, answer: &mut Answer) -> bool {
        match subject {
            "configurations" => configurations::answer(alloc, case, answer),
            "digests" => texts::answer(subject, case, answer),
            "files" => manifests::answer(alloc, subject, case, answer),
            "hashes" => manifests::answer_hash(alloc, case, answer),
            "indexes" => indexes::answer(alloc, case, answer),
            "lines" => lines::answer(alloc, case, answer),
            "lists" => lists::answer(alloc, case, answer),
            "locators" => locators::answer(case, answer),
            "macs" => signing::answer_mac(alloc, case, answer),
            "manifests" => manifests::answer(alloc, subject, case, answer),
            "names" => names::answer(alloc, case, answer),
            "normals" => manifests::answer(alloc, subject, case, answer),
            "orders" => orders::answer(alloc, case, answer),
            "packs" => packs::answer(alloc, case, answer),
            "portables" => texts::answer(subject, case, answer),
            "printed" => printed::answer(alloc, case, answer),
            "requests" => wire::answer(alloc, subject, case, answer),
            "responses" => wire::answer(alloc, subject, case, answer),
            "script" => script::answer(alloc, case, answer),
            "signatures" => signing::answer_signatures(case, answer),
            "signed" => signing::answer_signed(alloc, case, answer),
            "sinks" => lines::answer_sink(alloc, case, answer),
            "unpacks" => packs::answer_manifest(alloc, case, answer),
            "uuids" => texts::answer(subject, case, answer),
            "verdicts" => signing::answer_verdicts(case, answer),
            "written" => written::answer(alloc, case, answer),
            _ => return false,
        }
        true
    }
}
