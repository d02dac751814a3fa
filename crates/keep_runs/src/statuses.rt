// Statuses, one a line: a word and its numbers. The exit status of the program, and its words.
use keep_casebook::{Answer, Case};
use keep_spec::{AuditFault, Status};
use std::alloc::Global;
use std::str::from_utf8;

/// Adds the exit status and the words to a line.
pub fn add_status(alloc: Global, status: Status, answer: &mut Answer) {
    answer.text(b"exit ");
    answer.number(u64::from(status.exit_status()));
    answer.text(b": ");
    match status.to_string(alloc) {
        Ok(words) => answer.text(words.as_bytes()),
        Err(_) => answer.cut(),
    }
}

pub fn answer(alloc: Global, case: &Case, answer: &mut Answer) {
    for line in case.body().split(|byte| *byte == b'\n') {
        let text = from_utf8(line).unwrap_or("");
        if let Some(status) = status_of(text) {
            add_status(alloc, status, answer);
        }
        answer.end();
    }
}

// The number of this place among the words of a line.
fn number_at(text: &str, place: usize) -> u64 {
    let word = text.split_whitespace().nth(place).unwrap_or("");
    word.parse::<u64>().unwrap_or(0)
}

// The statuses that no run reaches here.
fn status_of(text: &str) -> Option<Status> {
    let number = number_at(text, 1);
    match text.split_whitespace().next().unwrap_or("") {
        "NoMemory" => Some(Status::NoMemory),
        "LineTooLong" => Some(Status::LineTooLong { number }),
        "InputTooLong" => Some(Status::InputTooLong),
        "DoorFault" => Some(Status::DoorFault),
        "PortFault" => Some(Status::PortFault),
        kind => match audit_fault_of(kind, number, number_at(text, 2)) {
            Some(fault) => Some(Status::AuditFault { fault }),
            None => None,
        },
    }
}

fn audit_fault_of(kind: &str, tick: u64, later: u64) -> Option<AuditFault> {
    let earlier = tick;
    match kind {
        "Twice" => Some(AuditFault::Twice { tick }),
        "Stranger" => Some(AuditFault::Stranger { tick }),
        "Skew" => Some(AuditFault::Skew { earlier, later }),
        "Unissued" => Some(AuditFault::Unissued { tick }),
        "RoundOrder" => Some(AuditFault::RoundOrder { earlier, later }),
        "Unplanned" => Some(AuditFault::Unplanned { tick }),
        _ => None,
    }
}
