// The messages of a source, of either kind.
ghost use Rattle.std.specs.Prelude.{◌≡◌, ◌≤◌, ◌+◌, Option, None, Some, OnOk, IfOk, IfErr, IfSome, IsErrOf, length, vec_len, take, drop, [], Err};
ghost use Rattle.std.specs.Io.KnownBytes.{prepend_known};
ghost use Rattle.keep_spec.specs.Causes.{Rose};
ghost use Rattle.keep_wire.specs.Looks.{IsFound, SameBytes, IsBegunNext, IsBodyNext};
ghost use Rattle.keep_wire.specs.Messages.{IsNext};

use crate::filling::{fill, fill_body, look};
use crate::head::{Begun, Message};
use crate::{BODY_MAX, Source, WireError};
use keep_base::Bytes;
use std::alloc::{AllocError, Global};

// Reads the messages of a source.
#[derive(Drop)]
pub(crate) struct Reader<'a, R: Source> {
    source: &'a mut R,
    alloc: Global,
    // What was read. Messages were returned of its first `start` bytes.
    pending: Vec<u8>,
    start: usize,
    failed: Option<WireError>,
    ghost within: { start ≤ vec_len pending },
}

// Removes the first bytes.
fn drop_front(bytes: &mut Vec<u8>, count: usize)
    requires { count ≤ length bytes.old.items }
    ensures { bytes.new.items ≡ drop count bytes.old.items }
{
    let rest = bytes.len() - count;
    bytes.rotate_left(count);
    bytes.truncate(rest);
}

// The bytes from an index on.
fn rest_of(bytes: &[u8], start: usize) -> &[u8]
    requires { start ≤ length bytes.now }
    ensures { result.now ≡ drop start bytes.now }
{
    &bytes[start..]
}

// This many bytes from an index on.
fn part_of(bytes: &[u8], start: usize, count: usize) -> &[u8]
    requires { start + count ≤ length bytes.now }
    ensures { result.now ≡ take count (drop start bytes.now) }
{
    &bytes[start..start + count]
}

// The bytes, in room for `size` of them, so that a body stays in one place while it grows.
fn body_of(alloc: Global, bytes: &[u8], size: usize) -> Result<Vec<u8>, AllocError>
    ensures { IfOk result (λ body. body.items ≡ bytes.now) }
{
    let mut body = Vec::with_capacity(alloc, size)?;
    body.extend_from_slice(bytes)?;
    Ok(body)
}

impl<'a, R: Source> Reader<'a, R> {
    ghost use Rattle.keep_wire.specs.Told.{reader_left, reader_failed, reader_source, reader_name};

    pub(crate) fn new(alloc: Global, source: &'a mut R) -> Reader<'a, R>
        ensures same_reference { reader_name result ≡ source.entry.ghost_name }
        ensures same_source { reader_source result ≡ source.old }
        ensures left { reader_left result ≡ prepend_known [] (R.left source.old) }
        ensures no_error { reader_failed result ≡ None }
    {
        Reader {
            source,
            alloc,
            pending: Vec::new(alloc),
            start: 0,
            failed: None,
        }
    }

    pub(crate) fn into_source(self) -> &'a mut R
        ensures same_reference { result.ghost_name ≡ reader_name self.entry }
        ensures same_source { result.now ≡ reader_source self.entry }
    {
        let Reader { source, .. } = self;
        source
    }

    // The next message, or the error that was returned before.
    pub(crate) fn next<M: Message>(&mut self) -> Result<Option<M>, WireError>
        ensures same_reference { reader_name self.new ≡ reader_name self.old }
        ensures next_message { reader_failed self.old ≡ None → IsNext M.grammar M.make (reader_left self.old) result (reader_left self.new) }
        ensures no_error { OnOk result ((reader_failed self.old ≡ None) × (reader_failed self.new ≡ None)) }
        ensures failed { IfErr result (λ e. reader_failed self.new ≡ Some e) }
        ensures same_error { IfSome (reader_failed self.old) (λ e. result ≡ Err e) }
        ensures unread { IfSome (reader_failed self.old) (λ e. reader_source self.new ≡ reader_source self.old) }
        ensures never_falls { R.faults (reader_source self.old) ≤ R.faults (reader_source self.new) }
        ensures cause { result ≡ Err WireError.ReadFault → reader_failed self.old ≡ None → Rose (R.faults (reader_source self.old)) (R.faults (reader_source self.new)) }
    {
        if let Some(error) = self.failed {
            return Err(error);
        }
        let result = self.advance::<M>();
        if let Err(error) = result {
            self.failed = Some(error);
        }
        result
    }

    #[tactic(auto, using(crate::proofs::Next::next_from_begun_end))]
    fn advance<M: Message>(&mut self) -> Result<Option<M>, WireError>
        ensures same_reference { reader_name self.new ≡ reader_name self.old }
        ensures next_message { IsNext M.grammar M.make (reader_left self.old) result (reader_left self.new) }
        ensures failed { reader_failed self.new ≡ reader_failed self.old }
        ensures never_falls { R.faults (reader_source self.old) ≤ R.faults (reader_source self.new) }
        ensures cause { result ≡ Err WireError.ReadFault → Rose (R.faults (reader_source self.old)) (R.faults (reader_source self.new)) }
    {
        let begun = match begin::<R, M>(
            self.alloc,
            self.source,
            &mut self.pending,
            &mut self.start,
        ) {
            Ok(Some(begun)) => begun,
            Ok(None) => return Ok(None),
            Err(error) => return Err(error),
        };
        match take_body(
            self.alloc,
            self.source,
            &self.pending,
            &mut self.start,
            begun.body as usize,
        ) {
            Ok(body) => Ok(Some(begun.message.with(body))),
            Err(error) => Err(error),
        }
    }
}

// The head at the front of what is pending from `start` on. Reads only where it isn't there whole.
fn find<R: Source, M: Message>(
    alloc: Global,
    source: &mut R,
    pending: &mut Vec<u8>,
    start: &mut usize,
) -> Result<Option<Begun<M>>, WireError>
    requires { start.old ≤ vec_len pending.old }
    ensures within { start.new ≤ vec_len pending.new }
    ensures found { IsFound M.grammar M.make (drop start.new pending.new.items) (R.left source.new) result }
    ensures bytes { SameBytes result (drop start.old pending.old.items) (R.left source.old) (drop start.new pending.new.items) (R.left source.new) }
    ensures never_falls { R.faults source.old ≤ R.faults source.new }
    ensures cause { IsErrOf result WireError.ReadFault → Rose (R.faults source.old) (R.faults source.new) }
{
    match look::<M>(alloc, rest_of(pending, *start)) {
        Ok(None) => {}
        Ok(Some(begun)) => return Ok(Some(begun)),
        Err(error) => return Err(error),
    }
    drop_front(pending, *start);
    *start = 0;
    fill::<R, M>(alloc, source, pending)
}

// The next message apart from its body.
#[tactic(auto, using(crate::proofs::Next::begun_at_end))]
fn begin<R: Source, M: Message>(
    alloc: Global,
    source: &mut R,
    pending: &mut Vec<u8>,
    start: &mut usize,
) -> Result<Option<Begun<M>>, WireError>
    requires { start.old ≤ vec_len pending.old }
    ensures within { start.new ≤ vec_len pending.new }
    ensures next_message { IsBegunNext M.grammar M.make (prepend_known (drop start.old pending.old.items) (R.left source.old)) result (prepend_known (drop start.new pending.new.items) (R.left source.new)) }
    ensures short { IfOk result (λ o. IfSome o (λ b. b.body ≤ BODY_MAX)) }
    ensures never_falls { R.faults source.old ≤ R.faults source.new }
    ensures cause { IsErrOf result WireError.ReadFault → Rose (R.faults source.old) (R.faults source.new) }
{
    match find::<R, M>(alloc, source, pending, start) {
        Ok(Some(begun)) => {
            *start += begun.head;
            Ok(Some(begun))
        }
        Ok(None) => Ok(None),
        Err(error) => Err(error),
    }
}

// A body of this many bytes.
fn take_body<R: Source>(
    alloc: Global,
    source: &mut R,
    pending: &[u8],
    start: &mut usize,
    size: usize,
) -> Result<Bytes, WireError>
    requires { start.old ≤ length pending.now }
    ensures within { start.new ≤ length pending.now }
    ensures next_message { IsBodyNext size (prepend_known (drop start.old pending.now) (R.left source.old)) result (prepend_known (drop start.new pending.now) (R.left source.new)) }
    ensures never_falls { R.faults source.old ≤ R.faults source.new }
    ensures cause { IsErrOf result WireError.ReadFault → Rose (R.faults source.old) (R.faults source.new) }
{
    let there = size.min(pending.len() - *start);
    let Ok(mut body) = body_of(alloc, part_of(pending, *start, there), size) else {
        return Err(WireError::NoMemory);
    };
    *start += there;
    match fill_body(source, &mut body, size) {
        Ok(()) => Ok(Bytes::of(body)),
        Err(error) => Err(error),
    }
}
