// Messages of HTTP as they are written. Each line of the input names one of the messages below; the answer is its text, whose lines end with a carriage return and a newline.
use keep_base::Bytes;
use keep_casebook::{Answer, Case};
use keep_spec::NoMemory;
use keep_wire::{write_request, write_response};
use std::alloc::Global;
use std::str::from_utf8;

pub fn answer(alloc: Global, case: &Case, answer: &mut Answer) {
    for line in case.body().split(|byte| *byte == b'\n') {
        match message_of(alloc, from_utf8(line).unwrap_or("")) {
            Some(Ok(text)) => answer_text(text.as_slice(), answer),
            Some(Err(_)) => answer.cut(),
            None => answer.value(b"no message"),
        }
    }
}

fn message_of(alloc: Global, name: &str) -> Option<Result<Bytes, NoMemory>> {
    match name {
        "get" => Some(write_request(alloc, b"GET", b"/a+3", b"", b"")),
        "put with a token" => Some(write_request(alloc, b"PUT", b"/a", b"t", b"xy")),
        "touch with a token" => Some(write_request(alloc, b"TOUCH", b"/a", b"t/u", b"")),
        "post" => Some(write_request(alloc, b"POST", b"/a", b"", b"0123456789")),
        "200" => Some(write_response(alloc, 200, b"")),
        "404" => Some(write_response(alloc, 404, b"x")),
        "413" => Some(write_response(alloc, 413, b"TooLong\n")),
        "503" => Some(write_response(alloc, 503, b"")),
        _ => None,
    }
}

// The lines of a head without their ends, and then the body.
fn answer_text(text: &[u8], answer: &mut Answer) {
    for piece in text.split_inclusive(|byte| *byte == b'\n') {
        match piece.strip_suffix(b"\r\n") {
            Some(line) => answer.value(line),
            None => answer.output(piece),
        }
    }
}
