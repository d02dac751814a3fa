// Names and their escapes.
ghost use Rattle.std.specs.Prelude.{◌≡◌, ◌+◌, ◌≤◌, ◌<◌, ◌∷◌, ◌++◌, [], length, drop, IfOk, IsTrue};
ghost use Rattle.keep_spec.specs.Names.{decode, encode, encode_byte, is_escaped, is_octal, is_code, octal_value, is_component, is_path, is_stream_name};
ghost use Rattle.keep_manifest.specs.Escapes.{begins_escape, begins_double};

use keep_spec::{Bytes, NoMemory};
use std::alloc::{AllocError, Global};

/// Decodes a name of a manifest: `\` and three octal digits of value at most 255 stand for one byte, `\\` for one backslash, and any
/// other byte for itself (Arvados). Every text decodes.
pub fn decode_name(alloc: Global, text: &[u8]) -> Result<Bytes, NoMemory>
    ensures { IfOk result (λ name. name ≡ decode text.now) }
{
    Ok(Bytes::of(decode_bytes(alloc, text)?))
}

fn decode_bytes(alloc: Global, text: &[u8]) -> Result<Vec<u8>, AllocError>
    ensures { IfOk result (λ name. name.items ≡ decode text.now) }
{
    let mut name = Vec::with_capacity(alloc, text.len())?;
    let mut rest = text;
    while !rest.is_empty() {
        let (byte, width) = first_byte(rest);
        name.push(byte)?;
        rest = &rest[width..];
    }
    Ok(name)
}

// The first byte that a written name stands for, and how many bytes it is written in.
fn first_byte(text: &[u8]) -> (u8, usize)
    requires { 0 < length text.now }
    ensures byte { decode text.now ≡ result.0 ∷ decode (drop result.1 text.now) }
    ensures not_empty { 0 < result.1 }
    ensures within { result.1 ≤ length text.now }
{
    if begins_escape(text) {
        (octal_value(text[1], text[2], text[3]) as u8, 4)
    } else if begins_double(text) {
        (b'\\', 2)
    } else {
        (text[0], 1)
    }
}

fn begins_escape(text: &[u8]) -> bool
    ensures { result ≡ begins_escape text.now }
{
    match text {
        [b'\\', a, b, c, ..] => is_code(*a, *b, *c),
        _ => false,
    }
}

fn begins_double(text: &[u8]) -> bool
    ensures { result ≡ begins_double text.now }
{
    matches!(text, [b'\\', b'\\', ..])
}

/// Encodes a name for a manifest: the bytes 0 to 32, `:` and `\` each as `\` and three octal digits, all others as they are (Arvados).
/// Decoding the result returns the name.
pub fn encode_name(alloc: Global, name: &[u8]) -> Result<Bytes, NoMemory>
    ensures written { IfOk result (λ text. text ≡ encode name.now) }
    ensures read_again { IfOk result (λ text. decode text ≡ name.now) }
{
    let text = encode_bytes(alloc, name)?;
    Ok(Bytes::of(text))
}

fn encode_bytes(alloc: Global, name: &[u8]) -> Result<Vec<u8>, AllocError>
    ensures { IfOk result (λ text. text.items ≡ encode name.now) }
{
    let mut text = Vec::with_capacity(alloc, name.len())?;
    push_name(&mut text, name)?;
    Ok(text)
}

// Appends an encoded name. On error a part of it may remain.
pub(crate) fn push_name(text: &mut Vec<u8>, name: &[u8]) -> Result<(), AllocError>
    ensures { IfOk result (λ _. text.new.items ≡ text.old.items ++ encode name.now) }
{
    for byte in name {
        push_byte(text, *byte)?;
    }
    Ok(())
}

fn push_byte(text: &mut Vec<u8>, byte: u8) -> Result<(), AllocError>
    ensures { IfOk result (λ _. text.new.items ≡ text.old.items ++ encode_byte byte) }
{
    if byte <= 32 || byte == b':' || byte == b'\\' {
        let escape = [b'\\', byte / 64 + 48, byte / 8 % 8 + 48, byte % 8 + 48];
        text.extend_from_slice(&escape)?;
    } else {
        text.push(byte)?;
    }
    Ok(())
}

// One or more components with `/` between.
pub(crate) fn is_path(name: &[u8]) -> bool
    ensures { result ≡ is_path name.now }
{
    name.split(|b| *b == b'/').all(is_component)
}

// Neither empty, nor `.`, nor `..`.
fn is_component(part: &[u8]) -> bool
    ensures { result ≡ is_component part.now }
{
    !matches!(part, [] | [b'.'] | [b'.', b'.'])
}

// `.`, or `./` and a path.
pub(crate) fn is_stream_name(name: &[u8]) -> bool
    ensures { result ≡ is_stream_name name.now }
{
    match name {
        [b'.'] => true,
        [b'.', b'/', path @ ..] => is_path(path),
        _ => false,
    }
}

// Three octal digits of value at most 255.
fn is_code(a: u8, b: u8, c: u8) -> bool
    ensures { result ≡ is_code a b c }
{
    is_octal(a) && is_octal(b) && is_octal(c) && octal_value(a, b, c) <= 255
}

fn octal_value(a: u8, b: u8, c: u8) -> u16
    requires first { IsTrue (is_octal a) }
    requires second { IsTrue (is_octal b) }
    requires third { IsTrue (is_octal c) }
    ensures { result ≡ octal_value a b c }
{
    u16::from(a - 48) * 64 + u16::from(b - 48) * 8 + u16::from(c - 48)
}

fn is_octal(b: u8) -> bool
    ensures { result ≡ is_octal b }
{
    b >= b'0' && b <= b'7'
}
