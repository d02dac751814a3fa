// Which manifests can be written.
ghost use Rattle.std.specs.Prelude.{◌≡◌, ◌↔◌, ◌^◌, ◌&&◌, nat_lt, IsTrue, Some, None, length, if◌then◌else◌};
ghost use Rattle.std.specs.List.{list_all};
ghost use Rattle.keep_spec.specs.Locator.{is_locator};
ghost use Rattle.keep_spec.specs.Manifest.{IsGood, total_size};
ghost use Rattle.keep_manifest.specs.Good.{is_good_segment, is_good_stream, is_good_manifest};

use crate::line::locator_size;
use crate::names::is_stream_name;
use crate::segment::{is_named, is_within};
use keep_spec::{Bytes, Manifest, Segment, Stream};

// Numbers have at most 19 digits.
const NUMBERS_END: u64 = 10_000_000_000_000_000_000;

/// Whether some text reads to this manifest, so that it can be written. Takes no memory.
pub fn is_good(manifest: &Manifest) -> bool
    ensures { IsTrue result ↔ IsGood manifest.now }
{
    are_good_streams(manifest.streams.as_slice())
}

fn are_good_streams(streams: &[Stream]) -> bool
    ensures { result ≡ list_all is_good_stream streams.now }
{
    streams.iter().all(is_good_stream)
}

fn is_good_stream(stream: &Stream) -> bool
    ensures { result ≡ is_good_stream stream.now }
{
    let locators = stream.locators.as_slice();
    let segments = stream.segments.as_slice();
    if !is_stream_name(stream.name.as_slice()) || locators.is_empty() || segments.is_empty() {
        return false;
    }
    match total_of(locators) {
        Some(total) => are_good_segments(total, segments),
        None => false,
    }
}

fn are_good_segments(total: u128, segments: &[Segment]) -> bool
    ensures { result ≡ list_all (is_good_segment total) segments.now }
{
    segments
        .iter()
        .all(|segment| is_good_segment(total, segment))
}

fn is_good_segment(total: u128, segment: &Segment) -> bool
    ensures { result ≡ is_good_segment total segment.now }
{
    segment.position < NUMBERS_END
        && segment.size < NUMBERS_END
        && is_named(segment)
        && is_within(total, segment)
}

// The sum of the blocks' sizes in bytes; `None` where one isn't a locator.
fn total_of(locators: &[Bytes]) -> Option<u128>
    ensures { result ≡ (if list_all is_locator locators.now then Some (total_size locators.now) else None) }
{
    let mut total: u128 = 0;
    for locator in locators {
        let size = locator_size(locator.as_slice())?;
        total += u128::from(size);
    }
    Some(total)
}
