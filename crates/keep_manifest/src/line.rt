// One line of a manifest's text.
ghost use Rattle.std.specs.Prelude.{◌≡◌, ◌==◌, ◌&&◌, ◌+◌, ◌*◌, ◌^◌, ◌<◌, ◌≤◌, ◌∷◌, [], length, Option, Some, None, MatchOption, OnOk, IfSome, if◌then◌else◌};
ghost use Rattle.std.specs.Vec.{vec_len};
ghost use Rattle.std.specs.List.{slice_split};
ghost use Rattle.keep_spec.specs.Locator.{is_locator, size as block_size};
ghost use Rattle.keep_spec.specs.Manifest.{total_size};
ghost use Rattle.keep_manifest.specs.Parsing.{Returns, line_at};
ghost use Rattle.keep_manifest.specs.Tokens.{tokens_of};

use crate::cut::cut_at;
use crate::fault::{BadManifest, refused};
use crate::names::{decode_name, is_stream_name};
use crate::segment::parse_segment;
use keep_locator::Locator;
use keep_spec::{Bytes, Items, Kind, Segment, Stream};
use std::alloc::{AllocError, Global};

// The stream of a line, from the tokens so far.
#[derive(Drop)]
struct StreamBuilder {
    locators: Vec<Bytes>,
    // The sum of their sizes, in bytes.
    total: u128,
    segments: Vec<Segment>,
    ghost summed: { total ≡ total_size locators.items },
    ghost bounded: { total ≤ 10 ^ 19 * vec_len locators },
}

impl StreamBuilder {
    ghost use Rattle.keep_manifest.specs.Builder.{parts_of, Leaves};
    ghost use Rattle.keep_manifest.specs.Parsing.{token_at, whole, no_parts, with_locator};

    fn new(alloc: Global) -> StreamBuilder
        ensures { parts_of result ≡ no_parts }
    {
        StreamBuilder {
            locators: Vec::new(alloc),
            total: 0,
            segments: Vec::new(alloc),
        }
    }

    // Adds the next token of the line, which begins at `at` in the text.
    #[tactic(auto, unfolding(crate::specs::Parsing::token_at))]
    fn push_token(&mut self, alloc: Global, at: usize, token: &[u8]) -> Result<(), BadManifest>
        ensures { Leaves result (parts_of self.new) (token_at at token.now (parts_of self.old)) }
    {
        if let Some(size) = self.parse_locator(token) {
            self.push_locator(alloc, token, size)?;
            return Ok(());
        }
        if self.locators.is_empty() {
            return Err(refused(at, Kind::BadLocator));
        }
        let segment = parse_segment(alloc, at, self.total, token)?;
        self.segments.push(segment)?;
        Ok(())
    }

    // The size of the block that a token names; `None` where it is no locator, or segments have begun.
    fn parse_locator(&self, token: &[u8]) -> Option<u64>
        ensures value { result ≡ (if length self.now.segments.items == 0 && is_locator token.now then Some (block_size token.now) else None) }
        ensures bound { IfSome result (λ n. n < 10 ^ 19) }
    {
        if self.segments.is_empty() {
            locator_size(token)
        } else {
            None
        }
    }

    fn push_locator(&mut self, alloc: Global, token: &[u8], size: u64) -> Result<(), AllocError>
        requires size { size ≡ block_size token.now }
        requires bound { size < 10 ^ 19 }
        ensures { OnOk result (parts_of self.new ≡ with_locator (parts_of self.old) token.now) }
    {
        let locator = Bytes::of(Vec::from_slice(alloc, token)?);
        self.locators.push(locator)?;
        self.total += u128::from(size);
        Ok(())
    }

    // The stream of a line that ends at `end` in the text.
    #[tactic(auto, unfolding(crate::specs::Parsing::whole))]
    fn finish(self, end: usize, name: Bytes) -> Result<Stream, BadManifest>
        ensures { Returns result (whole end name (parts_of self)) }
    {
        if self.locators.is_empty() {
            return Err(refused(end, Kind::BadLocator));
        }
        if self.segments.is_empty() {
            return Err(refused(end, Kind::NoSegment));
        }
        Ok(Stream {
            name,
            locators: Items::of(self.locators),
            segments: Items::of(self.segments),
        })
    }
}

// The stream of a line that begins at `at` in the text.
pub(crate) fn parse_line(alloc: Global, at: usize, line: &[u8]) -> Result<Stream, BadManifest>
    requires { at + length line.now < 2 ^ 64 }
    ensures { Returns result (line_at at line.now) }
{
    let end = at + line.len();
    let (token, mut rest) = first_token(line);
    let name = decode_name(alloc, token)?;
    if !is_stream_name(name.as_slice()) {
        return Err(refused(at, Kind::BadStream));
    }
    let mut builder = StreamBuilder::new(alloc);
    while let Some(tokens) = rest {
        let (token, after) = first_token(tokens);
        builder.push_token(alloc, end - tokens.len(), token)?;
        rest = after;
    }
    builder.finish(end, name)
}

// The first token, and what follows the space that ends it; `None` where no space does.
fn first_token(text: &[u8]) -> (&[u8], Option<&[u8]>)
    ensures tokens { slice_split (λ b. b == 32) text.now ≡ result.0.now ∷ tokens_of result.1 }
    ensures length { MatchOption result.1 (length result.0.now ≡ length text.now) (λ rest. length result.0.now + 1 + length rest.now ≡ length text.now) }
{
    match cut_at(text, b' ') {
        Some((token, rest)) => (token, Some(rest)),
        None => (text, None),
    }
}

// The size that a locator states; `None` where the token is no locator.
pub(crate) fn locator_size(token: &[u8]) -> Option<u64>
    ensures value { result ≡ (if is_locator token.now then Some (block_size token.now) else None) }
    ensures bound { IfSome result (λ n. n < 10 ^ 19) }
{
    match Locator::read(token) {
        Ok(locator) => Some(locator.size()),
        Err(_) => None,
    }
}
