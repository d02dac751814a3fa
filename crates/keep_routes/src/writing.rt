// Bodies of JSON (RFC 8259), a member at a time.
ghost use Rattle.std.specs.Prelude.{◌≡◌, ◌<◌, ◌++◌, OnOk, IfOk};
ghost use Rattle.json.specs.Print.{escape, escape_byte, escape_letter, quoted};
ghost use Rattle.std.specs.Char.{digit_char};
ghost use Rattle.keep_spec.specs.Portable.{portable_text};
ghost use Rattle.keep_routes.specs.Responses.{count_member, optional_time_member, row_text, saved_text, text_member, time_member, times_text};

use itoa::Buffer;
use keep_clock::write_instant;
use keep_spec::{NoMemory, Portable};
use std::alloc::Global;

// Appends a text as a JSON string, with the shortest escapes.
fn push_quoted(out: &mut Vec<u8>, text: &[u8]) -> Result<(), NoMemory>
    ensures { OnOk result (out.new.items ≡ out.old.items ++ quoted text.now) }
{
    out.reserve(text.len().saturating_add(2))?;
    out.extend_from_slice(b"\"")?;
    push_escaped(out, text)?;
    out.extend_from_slice(b"\"")?;
    Ok(())
}

fn push_escaped(out: &mut Vec<u8>, text: &[u8]) -> Result<(), NoMemory>
    ensures { OnOk result (out.new.items ≡ out.old.items ++ escape text.now) }
{
    for byte in text {
        push_escaped_byte(out, *byte)?;
    }
    Ok(())
}

#[tactic(auto, unfolding(json::specs::Print::escape_byte))]
fn push_escaped_byte(out: &mut Vec<u8>, byte: u8) -> Result<(), NoMemory>
    ensures { OnOk result (out.new.items ≡ out.old.items ++ escape_byte byte) }
{
    let letter = escape_letter(byte);
    if 0 < letter {
        out.extend_from_slice(&[b'\\', letter])?;
    } else if byte < 32 {
        let digits = [digit(byte / 16), digit(byte % 16)];
        out.extend_from_slice(b"\\u00")?;
        out.extend_from_slice(&digits)?;
    } else {
        out.extend_from_slice(&[byte])?;
    }
    Ok(())
}

fn escape_letter(byte: u8) -> u8
    ensures { result ≡ escape_letter byte }
{
    if byte == b'"' || byte == b'\\' {
        byte
    } else if byte == 8 {
        b'b'
    } else if byte == 12 {
        b'f'
    } else if byte == b'\n' {
        b'n'
    } else if byte == b'\r' {
        b'r'
    } else if byte == b'\t' {
        b't'
    } else {
        0
    }
}

fn digit(value: u8) -> u8
    requires { value < 16 }
    ensures { result ≡ digit_char value }
{
    if value < 10 {
        b'0' + value
    } else {
        b'a' - 10 + value
    }
}

fn push_text(out: &mut Vec<u8>, before: &[u8], text: &[u8]) -> Result<(), NoMemory>
    ensures { OnOk result (out.new.items ≡ out.old.items ++ text_member before.now text.now) }
{
    out.extend_from_slice(before)?;
    push_quoted(out, text)
}

fn push_count(out: &mut Vec<u8>, before: &[u8], count: u64) -> Result<(), NoMemory>
    ensures { OnOk result (out.new.items ≡ out.old.items ++ count_member before.now count) }
{
    let mut buffer = Buffer::new();
    out.extend_from_slice(before)?;
    out.extend_from_slice(buffer.format(count).as_bytes())?;
    Ok(())
}

fn push_time(alloc: Global, out: &mut Vec<u8>, before: &[u8], time: u64) -> Result<(), NoMemory>
    ensures { OnOk result (out.new.items ≡ out.old.items ++ time_member before.now time) }
{
    let text = write_instant(alloc, time)?;
    push_text(out, before, text.as_slice())
}

fn push_optional_time(
    alloc: Global,
    out: &mut Vec<u8>,
    before: &[u8],
    time: Option<u64>,
) -> Result<(), NoMemory>
    ensures { OnOk result (out.new.items ≡ out.old.items ++ optional_time_member before.now time) }
{
    match time {
        Some(time) => push_time(alloc, out, before, time),
        None => {
            out.extend_from_slice(before)?;
            out.extend_from_slice(b"null")?;
            Ok(())
        }
    }
}

fn push_portable(out: &mut Vec<u8>, before: &[u8], portable: &Portable) -> Result<(), NoMemory>
    ensures { OnOk result (out.new.items ≡ out.old.items ++ text_member before.now (portable_text portable.now)) }
{
    let (text, size) = portable.write();
    push_text(out, before, &text[..size])
}

pub(crate) fn saved_text(
    alloc: Global,
    uuid: &[u8],
    version: u64,
    portable: &Portable,
) -> Result<Vec<u8>, NoMemory>
    ensures { IfOk result (λ v. v.items ≡ saved_text uuid.now version portable.now) }
{
    let mut out = Vec::new(alloc);
    push_portable(&mut out, b"{\"portable\":", portable)?;
    push_text(&mut out, b",\"uuid\":", uuid)?;
    push_count(&mut out, b",\"version\":", version)?;
    out.extend_from_slice(b"}")?;
    Ok(out)
}

pub(crate) fn row_text(
    alloc: Global,
    uuid: &[u8],
    version: u64,
    want: u8,
    trash_at: Option<u64>,
    text: &[u8],
) -> Result<Vec<u8>, NoMemory>
    ensures { IfOk result (λ v. v.items ≡ row_text uuid.now version want trash_at text.now) }
{
    let mut out = Vec::new(alloc);
    push_text(&mut out, b"{\"manifest\":", text)?;
    push_optional_time(alloc, &mut out, b",\"trash_at\":", trash_at)?;
    push_text(&mut out, b",\"uuid\":", uuid)?;
    push_count(&mut out, b",\"version\":", version)?;
    push_count(&mut out, b",\"want\":", u64::from(want))?;
    out.extend_from_slice(b"}")?;
    Ok(out)
}

pub(crate) fn times_text(alloc: Global, trash_at: u64, delete_at: u64) -> Result<Vec<u8>, NoMemory>
    ensures { IfOk result (λ v. v.items ≡ times_text trash_at delete_at) }
{
    let mut out = Vec::new(alloc);
    push_time(alloc, &mut out, b"{\"delete_at\":", delete_at)?;
    push_time(alloc, &mut out, b",\"trash_at\":", trash_at)?;
    out.extend_from_slice(b"}")?;
    Ok(out)
}
