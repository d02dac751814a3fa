// Bytes as hexadecimal digits in lower case.
ghost use Rattle.std.specs.Prelude.{◌≡◌, ◌≤◌, ◌++◌, length, IfOk, OnOk};
ghost use Rattle.std.specs.List.{list_all};
ghost use Rattle.hex.specs.Hex.{encode_lower};
ghost use Rattle.keep_spec.specs.Digest.{is_lower_digit};
ghost use Rattle.keep_history.specs.Script.{bytes_of_text};

use hex::{FromHexError, encode_to_slice};
use keep_spec::{Bytes, NoMemory, is_lower_digit};
use std::alloc::Global;

/// Decodes lower-case digits. `None` where the text isn't pairs of them.
pub(crate) fn bytes_of_text(alloc: Global, digits: &[u8]) -> Result<Option<Bytes>, NoMemory>
    ensures { IfOk result (λ o. o ≡ bytes_of_text digits.now) }
{
    if !are_lower_digits(digits) {
        return Ok(None);
    }
    match hex::decode(alloc, digits) {
        Ok(bytes) => Ok(Some(Bytes::of(bytes))),
        Err(FromHexError::OutOfMemory) => Err(NoMemory),
        Err(_) => Ok(None),
    }
}

fn are_lower_digits(digits: &[u8]) -> bool
    ensures { result ≡ list_all is_lower_digit digits.now }
{
    digits.iter().all(|digit| is_lower_digit(*digit))
}

/// How many bytes are written as digits at a time.
const PIECE: usize = 512;

/// Appends the digits of bytes to `out`. On error a part of them may remain.
pub(crate) fn push_digits(out: &mut Vec<u8>, bytes: &[u8]) -> Result<(), NoMemory>
    ensures { OnOk result (out.new.items ≡ out.old.items ++ encode_lower bytes.now) }
{
    out.reserve(bytes.len().saturating_mul(2))?;
    for piece in bytes.chunks(PIECE) {
        push_piece(out, piece)?;
    }
    Ok(())
}

fn push_piece(out: &mut Vec<u8>, piece: &[u8]) -> Result<(), NoMemory>
    requires { length piece.now ≤ PIECE }
    ensures { OnOk result (out.new.items ≡ out.old.items ++ encode_lower piece.now) }
{
    let mut digits = [0; 2 * PIECE];
    let room = &mut digits[..2 * piece.len()];
    let _ = encode_to_slice(piece, room);
    out.extend_from_slice(room)?;
    Ok(())
}
