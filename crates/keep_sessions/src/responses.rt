// Responses to ends of tasks that no session over a cluster has. Settings, in order: `end WORD` is the end that is answered, by the bytes of its response.
use crate::escapes::add_escaped;
use keep_casebook::{Answer, Case};
use keep_history::Outcome;
use keep_routes::outcome_response;
use keep_spec::{Bytes, NoMemory};
use keep_wire::write_response;
use std::alloc::Global;

pub fn answer(alloc: Global, case: &Case, answer: &mut Answer) {
    for setting in case.settings() {
        if setting.key == "end" && answer_end(alloc, setting.value, answer).is_err() {
            answer.cut();
        }
    }
}

// The end of a word.
fn end_of(alloc: Global, word: &str) -> Result<Option<Outcome>, NoMemory> {
    Ok(match word {
        "TooLong" => Some(Outcome::TooLong),
        "Disordered" => Some(Outcome::Disordered {
            earlier: 2,
            later: 1,
        }),
        "Restarted" => Some(Outcome::Restarted),
        "BadText" => Some(Outcome::Row {
            version: 1,
            want: 1,
            trash_at: None,
            text: Bytes::copy_of(alloc, b"\xff")?,
        }),
        _ => None,
    })
}

fn answer_end(alloc: Global, word: &str, answer: &mut Answer) -> Result<(), NoMemory> {
    let Some(end) = end_of(alloc, word)? else {
        answer.value(b"no such end");
        return Ok(());
    };
    let response = outcome_response(alloc, b"", end)?;
    let text = write_response(alloc, response.status, response.body.as_slice())?;
    add_escaped(text.as_slice(), answer);
    answer.end();
    Ok(())
}
