// Locators, one a line: their parts, or the place of the refusal.
use keep_casebook::{Answer, Case};
use keep_locator::{BadLocator, Locator};

// The most hints that are told.
const HINTS: usize = 9;

pub fn answer(case: &Case, answer: &mut Answer) {
    for line in case.body().split(|byte| *byte == b'\n') {
        match Locator::read(line) {
            Ok(locator) => answer_parts(&locator, answer),
            Err(BadLocator { at }) => {
                answer.text(b"refused at ");
                answer.number(at as u64);
                answer.end();
            }
        }
    }
}

fn answer_parts(locator: &Locator, answer: &mut Answer) {
    answer.text(&locator.digest().write());
    answer.text(b" size ");
    answer.number(locator.size());
    answer.text(b" stripped ");
    answer.value(locator.stripped());
    for index in 0..HINTS {
        if let Some(hint) = locator.hint(index) {
            answer.text(b"hint ");
            answer.value(hint);
        }
    }
    if let Some(permission) = locator.permission() {
        answer.text(b"permission ");
        answer.text(&permission.signature);
        answer.text(b" ");
        answer.number(u64::from(permission.expiry));
        answer.end();
    }
    if locator.is_empty_block() {
        answer.value(b"empty block");
    }
}
