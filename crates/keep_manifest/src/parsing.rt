// Parsing a manifest.
ghost use Rattle.std.specs.Prelude.{◌≡◌, ◌↔◌, ◌+◌, ◌<◌, IfOk, IfErr, IsSome, Some, None};
ghost use Rattle.keep_spec.specs.Manifest.{manifest_of};
ghost use Rattle.keep_spec.specs.Refusals.{bad};
ghost use Rattle.keep_manifest.specs.Causes.{IsCause};
ghost use Rattle.keep_manifest.specs.Parsing.{Returns, pieces_at};
ghost use Rattle.keep_manifest.specs.Tokens.{lines_of};

use crate::cut::cut_at;
use crate::fault::{BadManifest, refused};
use crate::line::parse_line;
use keep_spec::{Items, Kind, Manifest, Stream};
use std::alloc::Global;

/// Parses a manifest. Names are decoded; locators stay as they are written. On error returns the text's first refusal from the left,
/// with the byte offset of its token (the offsets are this project's own rule).
pub fn read(alloc: Global, text: &[u8]) -> Result<Manifest, BadManifest>
    ensures manifest { IfOk result (λ m. manifest_of text.now ≡ Some m) }
    ensures refusal { IfErr result (IsCause (bad text.now)) }

    // A text is refused exactly where it is no manifest.
    ensures refused_or_manifest { (bad text.now ≡ None) ↔ IsSome (manifest_of text.now) }
{
    let streams = parse_streams(alloc, text)?;
    Ok(Manifest { streams })
}

fn parse_streams(alloc: Global, text: &[u8]) -> Result<Items<Stream>, BadManifest>
    ensures { Returns result (pieces_at 0 (lines_of text.now)) }
{
    let mut streams = Vec::new(alloc);
    let mut rest = text;
    while let Some((line, after)) = cut_at(rest, b'\n') {
        let stream = parse_line(alloc, text.len() - rest.len(), line)?;
        streams.push(stream)?;
        rest = after;
    }
    if rest.is_empty() {
        return Ok(Items::of(streams));
    }
    let _unfinished = parse_line(alloc, text.len() - rest.len(), rest)?;
    Err(refused(text.len(), Kind::NoNewline))
}
