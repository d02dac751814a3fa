// Lines and sinks of bytes. `lines`: the answer is each line of the input with its number, and how the lines end, which the call after that has to say again. Settings: `most` (the most
// bytes of a read), `failing` (the read that fails), `ending` (the read that returns no byte though some are left), `reader` (by std's reader of a slice), `take`
// (after so many lines, or where they end before, what is left of the source is told too).
// `sinks`: the input is written to a sink; the answer is what it has taken, and whether all was. Settings: `most` (the most bytes of a call), `failing`,
// `room` (std's writer to a slice of so many bytes).
ghost use Rattle.std.specs.Prelude.{◌≤◌};

use crate::pieces::Pieces;
use keep_base::{
    ByteSink, Failed, LineError, Lines, ReaderSource, Sink, Source, WriteFault, WriterSink,
    write_all,
};
use keep_casebook::{Answer, Case, OutOfMemory, numbers_of};
use std::alloc::Global;

// The longest line that is shown.
const SHOWN: usize = 64;

pub fn answer(alloc: Global, case: &Case, answer: &mut Answer) {
    if case.value("reader").is_some() {
        return answer_lines(alloc, case, &mut ReaderSource::new(case.input()), answer);
    }
    let mut source = Pieces {
        bytes: case.input(),
        cut: 0,
        most: most_of(case),
        failing: case.number("failing", 0),
        ending: case.number("ending", 0),
        ends_failing: false,
        calls: 0,
        faults: 0,
    };
    answer_lines(alloc, case, &mut source, answer);
    if case.value("take").is_some() {
        answer.text(b"left ");
        answer.text(source.bytes);
        answer.note();
    }
}

// The most bytes of a call.
fn most_of(case: &Case) -> usize {
    usize::try_from(case.number("most", u64::MAX)).unwrap_or(usize::MAX)
}

fn answer_lines<S: Source>(alloc: Global, case: &Case, source: &mut S, answer: &mut Answer) {
    let mut lines = Lines::new(alloc, source);
    for _ in 0..case.number("take", u64::MAX) {
        match lines.next() {
            Ok(Some(number)) => answer_line(number, lines.text(), answer),
            Ok(None) => {
                if !matches!(lines.next(), Ok(None)) {
                    answer.value(b"another end at the next call");
                }
                return answer_end(None, answer);
            }
            Err(error) => {
                if !matches!(lines.next(), Err(other) if other == error) {
                    answer.value(b"another error at the next call");
                }
                return answer_end(Some(error), answer);
            }
        }
    }
}

fn answer_line(number: u64, text: &[u8], answer: &mut Answer) {
    answer.number(number);
    if text.len() > SHOWN {
        answer.text(b" of ");
        answer.number(text.len() as u64);
        answer.text(b" bytes");
    } else if !text.is_empty() {
        answer.text(b" ");
        answer.text(text);
    }
    answer.end();
}

fn answer_end(error: Option<LineError>, answer: &mut Answer) {
    match error {
        None => answer.text(b"Clean"),
        Some(LineError::ReadFault) => answer.text(b"ReadFault"),
        Some(LineError::LineTooLong { number }) => {
            answer.text(b"LineTooLong ");
            answer.number(number);
        }
        Some(LineError::InputTooLong) => answer.text(b"InputTooLong"),
        Some(LineError::NoMemory) => answer.cut(),
    }
    answer.note();
}

// A sink that takes at most so many bytes a call.
#[derive(Drop)]
struct Slow<S> {
    sink: S,
    most: usize,
}

impl<S: Sink> Sink for Slow<S> {
    ghost taken = { λ s. S.taken s.sink };

    ghost faults = { λ s. S.faults s.sink };

    fn write(&mut self, bytes: &[u8]) -> Result<usize, Failed> {
        let count = bytes.len().min(self.most.max(1));
        self.sink.write(&bytes[..count])
    }
}

pub fn answer_sink(alloc: Global, case: &Case, answer: &mut Answer) {
    if write_case(alloc, case, answer).is_err() {
        answer.cut();
    }
}

fn write_case(alloc: Global, case: &Case, answer: &mut Answer) -> Result<(), OutOfMemory> {
    if case.value("room").is_some() {
        return write_to_room(alloc, case, answer);
    }
    let failing = numbers_of(alloc, case.value("failing").unwrap_or(""))?;
    let mut sink = Slow {
        sink: ByteSink::new(alloc, failing),
        most: most_of(case),
    };
    let ended = write_all(&mut sink, case.input());
    answer.output(sink.sink.bytes());
    answer_written(ended, answer);
    Ok(())
}

// Writes to a slice with room for some of the bytes.
fn write_to_room(alloc: Global, case: &Case, answer: &mut Answer) -> Result<(), OutOfMemory> {
    let mut room = Vec::new(alloc);
    for _ in 0..case.number("room", 0) {
        room.push(b'.')?;
    }
    let ended = write_all(&mut WriterSink::new(room.as_mut_slice()), case.input());
    answer.output(&room);
    answer_written(ended, answer);
    Ok(())
}

fn answer_written(ended: Result<(), WriteFault>, answer: &mut Answer) {
    answer.text(match ended {
        Ok(()) => b"written".as_slice(),
        Err(WriteFault) => b"WriteFault".as_slice(),
    });
    answer.note();
}
