// Writing a manifest.
ghost use Rattle.std.specs.Prelude.{◌≡◌, ◌++◌, IfOk, OnOk, Some, decimal};
ghost use Rattle.std.specs.List.{flat_map};
ghost use Rattle.keep_spec.specs.Manifest.{IsGood, manifest_of, text_of, follow, segment_text, stream_text};

use crate::names::push_name;
use itoa::Buffer;
use keep_spec::{Bytes, Manifest, NoMemory, Segment, Stream};
use std::alloc::{AllocError, Global};

/// Writes a good manifest: names encoded, numbers without leading zeros, a newline after each line (Arvados). Reading the text returns
/// the manifest.
pub fn write(alloc: Global, manifest: &Manifest) -> Result<Bytes, NoMemory>
    requires { IsGood manifest.now }
    ensures written { IfOk result (λ text. text ≡ text_of manifest.now) }
    ensures read_again { IfOk result (λ text. manifest_of text ≡ Some manifest.now) }
{
    let text = write_bytes(alloc, manifest)?;
    Ok(Bytes::of(text))
}

#[tactic(auto, unfolding(keep_spec::specs::Manifest::text_of))]
fn write_bytes(alloc: Global, manifest: &Manifest) -> Result<Vec<u8>, AllocError>
    ensures { IfOk result (λ text. text.items ≡ text_of manifest.now) }
{
    let mut text = Vec::new(alloc);
    for stream in manifest.streams.as_slice() {
        push_stream(&mut text, stream)?;
    }
    Ok(text)
}

fn push_stream(text: &mut Vec<u8>, stream: &Stream) -> Result<(), AllocError>
    ensures { OnOk result (text.new.items ≡ text.old.items ++ stream_text stream.now) }
{
    push_name(text, stream.name.as_slice())?;
    push_locators(text, stream.locators.as_slice())?;
    push_segments(text, stream.segments.as_slice())?;
    text.push(b'\n')?;
    Ok(())
}

fn push_locators(text: &mut Vec<u8>, locators: &[Bytes]) -> Result<(), AllocError>
    ensures { OnOk result (text.new.items ≡ text.old.items ++ flat_map follow locators.now) }
{
    for locator in locators {
        text.push(b' ')?;
        text.extend_from_slice(locator.as_slice())?;
    }
    Ok(())
}

fn push_segments(text: &mut Vec<u8>, segments: &[Segment]) -> Result<(), AllocError>
    ensures { OnOk result (text.new.items ≡ text.old.items ++ flat_map (λ g. follow (segment_text g)) segments.now) }
{
    for segment in segments {
        text.push(b' ')?;
        push_segment(text, segment)?;
    }
    Ok(())
}

fn push_segment(text: &mut Vec<u8>, segment: &Segment) -> Result<(), AllocError>
    ensures { OnOk result (text.new.items ≡ text.old.items ++ segment_text segment.now) }
{
    push_number(text, segment.position)?;
    text.push(b':')?;
    push_number(text, segment.size)?;
    text.push(b':')?;
    push_name(text, segment.name.as_slice())?;
    Ok(())
}

fn push_number(text: &mut Vec<u8>, number: u64) -> Result<(), AllocError>
    ensures { OnOk result (text.new.items ≡ text.old.items ++ decimal number) }
{
    let mut buffer = Buffer::new();
    text.extend_from_slice(buffer.format(number).as_bytes())?;
    Ok(())
}
