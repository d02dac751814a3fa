// Parts and spans that touch, joined.
ghost use Rattle.std.specs.Prelude.{◌≡◌, true, IsTrue, OnOk, fold};
ghost use Rattle.keep_normal.specs.Joined.{joined_after};
ghost use Rattle.keep_normal.specs.Files.{touch, both_parts};
ghost use Rattle.keep_normal.specs.Normal.{meet, both_spans};
ghost use Rattle.keep_normal.specs.Sound.{is_sound, are_sound};

use crate::part::Part;
use crate::span::Span;
use crate::stripping::stripped;
use std::alloc::AllocError;

// Appends parts, each joined to the last one where the two touch.
pub(crate) fn join_parts(parts: &mut Vec<Part>, more: Vec<Part>) -> Result<(), AllocError>
    requires before { IsTrue (are_sound parts.old.items) }
    requires more { IsTrue (are_sound more.items) }
    ensures sound { OnOk result (IsTrue (are_sound parts.new.items)) }
    ensures joined { OnOk result
        (parts.new.items ≡ fold (joined_after touch both_parts) parts.old.items more.items) }
{
    for part in more {
        join_part(parts, part)?;
    }
    Ok(())
}

fn join_part(parts: &mut Vec<Part>, part: Part) -> Result<(), AllocError>
    requires before { IsTrue (are_sound parts.old.items) }
    requires part { IsTrue (is_sound part) }
    ensures sound { OnOk result (IsTrue (are_sound parts.new.items)) }
    ensures joined { OnOk result (parts.new.items ≡ joined_after touch both_parts parts.old.items part) }
{
    let Some(last) = parts.pop() else {
        parts.push(part)?;
        return Ok(());
    };
    if touch(&last, &part) {
        parts.push(both(last, &part))?;
        return Ok(());
    }
    parts.push(last)?;
    parts.push(part)?;
    Ok(())
}

// Whether the second part follows the first in one block, with no byte between.
fn touch(first: &Part, second: &Part) -> bool
    ensures { result ≡ touch first.now second.now }
{
    stripped(first.locator.as_slice()) == stripped(second.locator.as_slice())
        && u128::from(first.offset) + u128::from(first.length) == u128::from(second.offset)
}

// Two parts that touch, as one.
fn both(first: Part, second: &Part) -> Part
    requires touch { touch first second.now ≡ true }
    requires first { IsTrue (is_sound first) }
    requires second { IsTrue (is_sound second.now) }
    ensures { result ≡ both_parts first second.now }
{
    let Part {
        locator,
        offset,
        length,
    } = first;
    Part {
        locator,
        offset,
        length: length + second.length,
    }
}

// Appends a span, joined to the last one where the two meet.
pub(crate) fn join_span(spans: &mut Vec<Span>, span: Span) -> Result<(), AllocError>
    ensures { OnOk result (spans.new.items ≡ joined_after meet both_spans spans.old.items span) }
{
    let Some(last) = spans.pop() else {
        spans.push(span)?;
        return Ok(());
    };
    if last.to == span.from {
        spans.push(Span {
            from: last.from,
            to: span.to,
        })?;
        return Ok(());
    }
    spans.push(last)?;
    spans.push(span)?;
    Ok(())
}
