// Ends and events that no run over one device reaches, one a line: `end TooLong`, `end Corrupt DIGEST`, `end Untrashed COPIES`, the ends of rounds and workers
// as `end WORD` with their numbers in the order of their fields, `full DEVICE CAPACITY` of a device with as many bytes as a u128 counts. The printed line.
use keep_casebook::{Answer, Case, OutOfMemory, numbers_of};
use keep_event::DeviceAnswer;
use keep_history::Outcome;
use keep_script::{push_end_line, push_event_line};
use keep_spec::Digest;
use std::alloc::Global;
use std::str::from_utf8;

// The name of each line's task.
const NAME: &[u8] = b"a";

pub fn answer(alloc: Global, case: &Case, answer: &mut Answer) {
    for line in case.body().split(|byte| *byte == b'\n') {
        let line = from_utf8(line).unwrap_or("");
        let mut text = Vec::new(alloc);
        match push_line(alloc, &mut text, line) {
            Ok(()) => answer.output(&text),
            Err(OutOfMemory) => answer.cut(),
        }
    }
}

fn push_line(alloc: Global, text: &mut Vec<u8>, line: &str) -> Result<(), OutOfMemory> {
    let (kind, rest) = line.split_once(' ').unwrap_or((line, ""));
    let (first, second) = rest.split_once(' ').unwrap_or((rest, ""));
    if kind == "full" {
        let full = DeviceAnswer::Full {
            used: u128::MAX,
            capacity: second.parse::<u64>().unwrap_or(0),
        };
        push_event_line(text, NAME, first.parse::<u32>().unwrap_or(0), &full)?;
        return Ok(());
    }
    let numbers = numbers_of(alloc, second)?;
    push_end_line(text, NAME, &outcome_of(first, second, &numbers))?;
    Ok(())
}

fn outcome_of(word: &str, value: &str, numbers: &[u64]) -> Outcome {
    match word {
        "Corrupt" => Outcome::Corrupt {
            found: Digest::read(value.as_bytes()).unwrap_or(Digest::of_md5([0; 16])),
        },
        "Untrashed" => Outcome::Untrashed {
            copies: number_at(numbers, 0),
        },
        "TooLong" => Outcome::TooLong,
        _ => round_outcome_of(word, numbers),
    }
}

fn round_outcome_of(word: &str, numbers: &[u64]) -> Outcome {
    match word {
        "Balanced" => Outcome::Balanced {
            round: number_at(numbers, 0),
            trash: number_at(numbers, 1),
            pull: number_at(numbers, 2),
            lost: number_at(numbers, 3),
            stale: number_at(numbers, 4),
        },
        "Stale" => Outcome::Stale {
            device: u32::try_from(number_at(numbers, 0)).unwrap_or(0),
            held: number_at(numbers, 1),
        },
        "Disordered" => Outcome::Disordered {
            earlier: number_at(numbers, 0),
            later: number_at(numbers, 1),
        },
        "Trashed" => Outcome::Trashed {
            replicas: number_at(numbers, 0),
        },
        "Pulled" => Outcome::Pulled {
            done: number_at(numbers, 0),
            failed: number_at(numbers, 1),
        },
        "Emptied" => Outcome::Emptied {
            copies: number_at(numbers, 0),
        },
        _ => Outcome::ReadOnly,
    }
}

// The number at a place, or 0 where there is none.
fn number_at(numbers: &[u64], place: usize) -> u64 {
    match numbers.get(place) {
        Some(number) => *number,
        None => 0,
    }
}
