// What is printed of the table's answers, and of texts as JSON strings.
ghost use Rattle.std.specs.Prelude.{◌≡◌, ◌<◌, ◌++◌, ◌∷◌, OnOk, codes};
ghost use Rattle.std.specs.Char.{digit_char};
ghost use Rattle.json.specs.Print.{escape, escape_byte, escape_letter, quoted};
ghost use Rattle.keep_history.specs.Printed.{kind_word, last_word, number_field, optional_field, portable_field, table_event_line, table_words, why_words};

use crate::printed::{push_number, push_text, push_word};
use keep_event::TableAnswer;
use keep_spec::{Kind, NoMemory, Portable, Unverified};

/// Appends to `out` the line of an event of a named task at the table: the name, `table`, the answer's word and fields, a newline. On error a part of the
/// line may remain.
#[tactic(auto, unfolding(keep_history::specs::Printed::table_event_line))]
pub fn push_table_event_line(
    out: &mut Vec<u8>,
    name: &[u8],
    answer: &TableAnswer,
) -> Result<(), NoMemory>
    ensures { OnOk result (out.new.items ≡ out.old.items ++ table_event_line name.now answer.now) }
{
    out.extend_from_slice(name)?;
    out.extend_from_slice(b" table ")?;
    push_table_answer(out, answer)?;
    out.extend_from_slice(b"\n")?;
    Ok(())
}

fn push_table_answer(out: &mut Vec<u8>, answer: &TableAnswer) -> Result<(), NoMemory>
    ensures { OnOk result (out.new.items ≡ out.old.items ++ table_words answer.now) }
{
    match answer {
        TableAnswer::Round { round, started } => push_numbers(out, b"Round", *round, *started),
        TableAnswer::Saved {
            number,
            version,
            portable,
        } => push_made(out, b"Saved", *number, *version, portable),
        TableAnswer::Updated {
            number,
            version,
            portable,
        } => push_made(out, b"Updated", *number, *version, portable),
        TableAnswer::Row {
            number,
            version,
            expiry,
            ..
        } => push_row(out, *number, *version, *expiry),
        TableAnswer::TrashSet {
            trash_at,
            delete_at,
        } => push_numbers(out, b"TrashSet", *trash_at, *delete_at),
        TableAnswer::Restored => push_word(out, b"Restored"),
        TableAnswer::Swept {
            versions,
            collections,
        } => push_numbers(out, b"Swept", *versions, *collections),
        TableAnswer::Rows { rows, last } => push_rows(out, rows.len() as u64, *last),
        TableAnswer::UnknownToken => push_word(out, b"UnknownToken"),
        TableAnswer::NoSuch => push_word(out, b"NoSuch"),
        TableAnswer::NotOwner => push_word(out, b"NotOwner"),
        TableAnswer::InTrash { at } => push_number(out, b"InTrash", *at),
        TableAnswer::BadManifest { at, kind } => push_bad_manifest(out, *at, *kind),
        TableAnswer::Unsigned { index, why } => push_unsigned(out, *index, *why),
        TableAnswer::WrongHash { computed } => push_hash(out, b"WrongHash", computed),
        TableAnswer::BadWant => push_word(out, b"BadWant"),
        TableAnswer::TooManyVersions { held } => push_number(out, b"TooManyVersions", *held),
    }
}

// A word and two numbers.
pub(crate) fn push_numbers(
    out: &mut Vec<u8>,
    word: &[u8],
    first: u64,
    second: u64,
) -> Result<(), NoMemory>
    ensures { OnOk result (out.new.items ≡ out.old.items ++ (word.now ++ number_field first ++ number_field second)) }
{
    push_number(out, word, first)?;
    push_number(out, b"", second)
}

// A word and a portable hash.
pub(crate) fn push_hash(out: &mut Vec<u8>, word: &[u8], portable: &Portable) -> Result<(), NoMemory>
    ensures { OnOk result (out.new.items ≡ out.old.items ++ (word.now ++ portable_field portable.now)) }
{
    push_text(out, word, b" ")?;
    let (text, length) = portable.write();
    out.extend_from_slice(&text[..length])?;
    Ok(())
}

fn push_made(
    out: &mut Vec<u8>,
    word: &[u8],
    number: u64,
    version: u64,
    portable: &Portable,
) -> Result<(), NoMemory>
    ensures { OnOk result (out.new.items ≡ out.old.items ++ (word.now ++ number_field number ++ number_field version ++ portable_field portable.now)) }
{
    push_numbers(out, word, number, version)?;
    push_hash(out, b"", portable)
}

fn push_row(
    out: &mut Vec<u8>,
    number: u64,
    version: u64,
    expiry: Option<u32>,
) -> Result<(), NoMemory>
    ensures { OnOk result (out.new.items ≡ out.old.items ++ (codes "Row" ++ number_field number ++ number_field version ++ optional_field expiry)) }
{
    push_numbers(out, b"Row", number, version)?;
    match expiry {
        Some(expiry) => push_number(out, b"", u64::from(expiry)),
        None => push_word(out, b" -"),
    }
}

fn push_rows(out: &mut Vec<u8>, count: u64, last: bool) -> Result<(), NoMemory>
    ensures { OnOk result (out.new.items ≡ out.old.items ++ (codes "Rows" ++ number_field count ++ last_word last)) }
{
    push_number(out, b"Rows", count)?;
    if last {
        push_word(out, b" last")
    } else {
        push_word(out, b" more")
    }
}

pub(crate) fn push_bad_manifest(out: &mut Vec<u8>, at: u64, kind: Kind) -> Result<(), NoMemory>
    ensures { OnOk result (out.new.items ≡ out.old.items ++ (codes "BadManifest" ++ number_field at ++ 32 ∷ kind_word kind)) }
{
    push_number(out, b"BadManifest", at)?;
    push_text(out, b" ", kind_word(kind))
}

fn kind_word(kind: Kind) -> &'static [u8]
    ensures { result.now ≡ kind_word kind }
{
    match kind {
        Kind::BadStream => b"BadStream",
        Kind::BadLocator => b"BadLocator",
        Kind::NoSegment => b"NoSegment",
        Kind::BadSegment => b"BadSegment",
        Kind::BadName => b"BadName",
        Kind::PastEnd => b"PastEnd",
        Kind::NoNewline => b"NoNewline",
    }
}

pub(crate) fn push_unsigned(out: &mut Vec<u8>, index: u64, why: Unverified) -> Result<(), NoMemory>
    ensures { OnOk result (out.new.items ≡ out.old.items ++ (codes "Unsigned" ++ number_field index ++ why_words why)) }
{
    push_number(out, b"Unsigned", index)?;
    match why {
        Unverified::Missing => push_word(out, b" Missing"),
        Unverified::Expired { expiry } => push_number(out, b" Expired", u64::from(expiry)),
        Unverified::Invalid => push_word(out, b" Invalid"),
    }
}

/// Appends a space and the number, or a dash where there is none.
pub(crate) fn push_optional(out: &mut Vec<u8>, number: Option<u64>) -> Result<(), NoMemory>
    ensures { OnOk result (out.new.items ≡ out.old.items ++ optional_field number) }
{
    match number {
        Some(number) => push_number(out, b"", number),
        None => push_word(out, b" -"),
    }
}

/// Appends a text as a JSON string (RFC 8259), with the shortest escapes.
pub(crate) fn push_quoted(out: &mut Vec<u8>, text: &[u8]) -> Result<(), NoMemory>
    ensures { OnOk result (out.new.items ≡ out.old.items ++ quoted text.now) }
{
    out.reserve(text.len().saturating_add(2))?;
    out.extend_from_slice(b"\"")?;
    push_escaped(out, text)?;
    out.extend_from_slice(b"\"")?;
    Ok(())
}

fn push_escaped(out: &mut Vec<u8>, text: &[u8]) -> Result<(), NoMemory>
    ensures { OnOk result (out.new.items ≡ out.old.items ++ escape text.now) }
{
    for byte in text {
        push_escaped_byte(out, *byte)?;
    }
    Ok(())
}

#[tactic(auto, unfolding(json::specs::Print::escape_byte))]
fn push_escaped_byte(out: &mut Vec<u8>, byte: u8) -> Result<(), NoMemory>
    ensures { OnOk result (out.new.items ≡ out.old.items ++ escape_byte byte) }
{
    let letter = escape_letter(byte);
    if 0 < letter {
        out.extend_from_slice(&[b'\\', letter])?;
    } else if byte < 32 {
        let digits = [digit(byte / 16), digit(byte % 16)];
        out.extend_from_slice(b"\\u00")?;
        out.extend_from_slice(&digits)?;
    } else {
        out.extend_from_slice(&[byte])?;
    }
    Ok(())
}

fn escape_letter(byte: u8) -> u8
    ensures { result ≡ escape_letter byte }
{
    if byte == b'"' || byte == b'\\' {
        byte
    } else if byte == 8 {
        b'b'
    } else if byte == 12 {
        b'f'
    } else if byte == b'\n' {
        b'n'
    } else if byte == b'\r' {
        b'r'
    } else if byte == b'\t' {
        b't'
    } else {
        0
    }
}

fn digit(value: u8) -> u8
    requires { value < 16 }
    ensures { result ≡ digit_char value }
{
    if value < 10 {
        b'0' + value
    } else {
        b'a' - 10 + value
    }
}
