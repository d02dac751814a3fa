// One segment of a stream.
ghost use Rattle.std.specs.Prelude.{◌≡◌, IfOk, codes};
ghost use Rattle.std.specs.Str.{bytes_eq};
ghost use Rattle.keep_spec.specs.Manifest.{segment_form, is_named, is_within};
ghost use Rattle.keep_manifest.specs.Parsing.{Returns, segment_at};

use crate::cut::cut_at;
use crate::fault::{BadManifest, refused};
use crate::names::{decode_name, is_path};
use keep_spec::{Kind, NoMemory, Segment, read_number};
use std::alloc::Global;

// The segment of a token in a stream of `total` bytes. The token begins at `at` in the text.
#[tactic(auto, unfolding(crate::specs::Parsing::segment_at))]
pub(crate) fn parse_segment(
    alloc: Global,
    at: usize,
    total: u128,
    token: &[u8],
) -> Result<Segment, BadManifest>
    ensures { Returns result (segment_at at total token.now) }
{
    let Some(segment) = segment_form(alloc, token)? else {
        return Err(refused(at, Kind::BadSegment));
    };
    if !is_named(&segment) {
        return Err(refused(at, Kind::BadName));
    }
    if !is_within(total, &segment) {
        return Err(refused(at, Kind::PastEnd));
    }
    Ok(segment)
}

// A token of the form `position:size:name`.
#[tactic(auto, unfolding(keep_spec::specs::Manifest::segment_form))]
fn segment_form(alloc: Global, token: &[u8]) -> Result<Option<Segment>, NoMemory>
    ensures { IfOk result (λ segment. segment ≡ segment_form token.now) }
{
    let Some((digits, rest)) = cut_at(token, b':') else {
        return Ok(None);
    };
    let Some(position) = read_number(digits) else {
        return Ok(None);
    };
    let Some((digits, name)) = cut_at(rest, b':') else {
        return Ok(None);
    };
    let Some(size) = read_number(digits) else {
        return Ok(None);
    };
    let name = decode_name(alloc, name)?;
    Ok(Some(Segment {
        position,
        size,
        name,
    }))
}

// A path, or the mark of an empty directory.
pub(crate) fn is_named(segment: &Segment) -> bool
    ensures { result ≡ is_named segment.now }
{
    is_path(segment.name.as_slice()) || (segment.size == 0 && is_dot(segment.name.as_slice()))
}

fn is_dot(name: &[u8]) -> bool
    ensures { result ≡ bytes_eq name.now (codes ".") }
{
    name == b".".as_slice()
}

pub(crate) fn is_within(total: u128, segment: &Segment) -> bool
    ensures { result ≡ is_within total segment.now }
{
    u128::from(segment.position) + u128::from(segment.size) <= total
}
