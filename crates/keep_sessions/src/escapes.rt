// Bytes in a setting, and in an answer.
use keep_casebook::{Answer, OutOfMemory};
use std::alloc::Global;

// What stands before the next byte of an escaped text.
#[derive(Clone, Copy)]
enum Before {
    Nothing,
    Backslash,
    NoDigit,
    Digit(u8),
}

/// The bytes of a text in which `\r`, `\n`, `\\` and `\xHH` stand for one byte.
pub fn unescaped(alloc: Global, text: &[u8]) -> Result<Vec<u8>, OutOfMemory> {
    let mut bytes = Vec::new(alloc);
    let mut before = Before::Nothing;
    for byte in text {
        before = after(before, *byte, &mut bytes)?;
    }
    Ok(bytes)
}

// Takes the next byte of an escaped text.
fn after(before: Before, byte: u8, bytes: &mut Vec<u8>) -> Result<Before, OutOfMemory> {
    match (before, byte) {
        (Before::Nothing, b'\\') => return Ok(Before::Backslash),
        (Before::Backslash, b'x') => return Ok(Before::NoDigit),
        (Before::NoDigit, digit) => return Ok(Before::Digit(value_of(digit))),
        (Before::Nothing, other) => bytes.push(other)?,
        (Before::Backslash, b'r') => bytes.push(b'\r')?,
        (Before::Backslash, b'n') => bytes.push(b'\n')?,
        (Before::Backslash, other) => bytes.push(other)?,
        (Before::Digit(high), low) => bytes.push((high << 4) | value_of(low))?,
    }
    Ok(Before::Nothing)
}

// The value of a hexadecimal digit in lower case; 0 for another byte.
fn value_of(digit: u8) -> u8 {
    match digit {
        b'0'..=b'9' => digit - b'0',
        b'a'..=b'f' => digit - b'a' + 10,
        _ => 0,
    }
}

/// Answers bytes in which `\r`, `\n` and `\\` stand for one byte.
pub fn add_escaped(bytes: &[u8], answer: &mut Answer) {
    for byte in bytes {
        match *byte {
            b'\r' => answer.text(b"\\r"),
            b'\n' => answer.text(b"\\n"),
            b'\\' => answer.text(b"\\\\"),
            other => answer.text(&[other]),
        }
    }
}
