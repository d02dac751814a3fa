// Names of manifests. With the setting `encode` the input, whole, is a name that is encoded; else each line is a text that is decoded.
use keep_casebook::{Answer, Case};
use keep_manifest::{decode_name, encode_name};
use std::alloc::Global;

pub fn answer(alloc: Global, case: &Case, answer: &mut Answer) {
    if case.value("encode").is_some() {
        match encode_name(alloc, case.input()) {
            Ok(text) => answer.value(text.as_slice()),
            Err(_) => answer.cut(),
        }
        return;
    }
    for line in case.body().split(|byte| *byte == b'\n') {
        match decode_name(alloc, line) {
            Ok(name) => answer.value(name.as_slice()),
            Err(_) => answer.cut(),
        }
    }
}
