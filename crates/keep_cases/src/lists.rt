// Lists of a device: the setting `config` is a configuration, `device` the device's number, and the whole input a text. Its items, one a line, and whether
// they are written as this text; or the refusal.
use crate::indexes::answer_again;
use keep_casebook::{Answer, Case};
use keep_config::Config;
use keep_lists::{Lists, ListsError, read_lists, write_lists};
use std::alloc::Global;

pub fn answer(alloc: Global, case: &Case, answer: &mut Answer) {
    let Ok(config) = Config::read(alloc, case.value("config").unwrap_or("").as_bytes()) else {
        return answer.value(b"no configuration");
    };
    let device = u32::try_from(case.number("device", 0)).unwrap_or(u32::MAX);
    match read_lists(alloc, case.input(), &config, device) {
        Ok(lists) => {
            answer_items(&lists, answer);
            match write_lists(alloc, &lists, &config, device) {
                Ok(text) => answer_again(text.as_slice(), case.input(), answer),
                Err(_) => answer.cut(),
            }
        }
        Err(ListsError::BadList { item }) => {
            answer.text(b"BadList ");
            answer.number(item);
            answer.end();
        }
        Err(ListsError::NoMemory) => answer.cut(),
    }
}

fn answer_items(lists: &Lists, answer: &mut Answer) {
    for item in lists.trash.as_slice() {
        answer.text(b"trash ");
        answer.text(&item.digest.write());
        answer.text(b" ");
        answer.number(item.size);
        answer.text(b" ");
        answer.number(item.mtime);
        answer.end();
    }
    for item in lists.pull.as_slice() {
        answer.text(b"pull ");
        answer.text(&item.digest.write());
        answer.text(b" ");
        answer.number(item.size);
        answer.text(b" from");
        for source in item.sources.as_slice() {
            answer.text(b" ");
            answer.number(*source as u64);
        }
        answer.end();
    }
}
