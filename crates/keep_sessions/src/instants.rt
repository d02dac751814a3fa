// Instants in text. Settings, in order: `read TEXT` is answered by the reading, or `none`; `write READING` by the text.
use keep_casebook::{Answer, Case};
use keep_clock::{read_instant, write_instant};
use std::alloc::Global;

pub fn answer(alloc: Global, case: &Case, answer: &mut Answer) {
    for setting in case.settings() {
        match setting.key {
            "read" => answer_reading(setting.value, answer),
            "write" => answer_text(alloc, setting.value, answer),
            _ => {}
        }
    }
}

fn answer_reading(text: &str, answer: &mut Answer) {
    match read_instant(text.as_bytes()) {
        Ok(reading) => {
            answer.number(reading);
            answer.end();
        }
        Err(_) => answer.value(b"none"),
    }
}

fn answer_text(alloc: Global, number: &str, answer: &mut Answer) {
    let Ok(reading) = number.parse::<u64>() else {
        return answer.value(b"no number");
    };
    match write_instant(alloc, reading) {
        Ok(text) => answer.value(text.as_slice()),
        Err(_) => answer.cut(),
    }
}
