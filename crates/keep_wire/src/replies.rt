// The responses of a source.
ghost use Rattle.std.specs.Prelude.{◌≡◌, ◌≤◌, Option, None, Some, OnOk, IfErr, IfSome, [], Err};
ghost use Rattle.std.specs.Io.KnownBytes.{prepend_known};
ghost use Rattle.keep_spec.specs.Causes.{Rose};
ghost use Rattle.keep_wire.specs.Replies.{IsNext};

use crate::reader::Reader;
use crate::{Response, Source, WireError};
use std::alloc::Global;

/// The responses of a source (HTTP/1.0 and HTTP/1.1, RFC 9112), the same however the source cuts its bytes into pieces. After an error, `next` returns the same error for ever.
#[derive(Drop)]
pub struct Replies<'a, R: Source> {
    reader: Reader<'a, R>,
}

impl<'a, R: Source> Replies<'a, R> {
    ghost use Rattle.keep_wire.specs.Told.{replies_left, replies_failed, replies_source, replies_name};

    /// The responses of the bytes that the source has left. Reads nothing yet.
    pub fn new(alloc: Global, source: &'a mut R) -> Replies<'a, R>
        ensures same_reference { replies_name result ≡ source.entry.ghost_name }
        ensures same_source { replies_source result ≡ source.old }
        ensures left { replies_left result ≡ prepend_known [] (R.left source.old) }
        ensures no_error { replies_failed result ≡ None }
    {
        Replies {
            reader: Reader::new(alloc, source),
        }
    }

    /// Gives the source back. It may have been read past the last response that was returned. A caller with a clause on its source ends with this call, since nothing is known of a borrow that ends in a dropped value.
    pub fn into_source(self) -> &'a mut R
        ensures same_reference { result.ghost_name ≡ replies_name self.entry }
        ensures same_source { result.now ≡ replies_source self.entry }
    {
        self.reader.into_source()
    }

    /// The next response, or `None` at the end of the input. An error is returned by every later call too. `ReadFault` comes only where the source's count of faults rose in the call that first returned it.
    pub fn next(&mut self) -> Result<Option<Response>, WireError>
        ensures same_reference { replies_name self.new ≡ replies_name self.old }
        ensures next_message { replies_failed self.old ≡ None → IsNext (replies_left self.old) result (replies_left self.new) }
        ensures no_error { OnOk result ((replies_failed self.old ≡ None) × (replies_failed self.new ≡ None)) }
        ensures failed { IfErr result (λ e. replies_failed self.new ≡ Some e) }
        ensures same_error { IfSome (replies_failed self.old) (λ e. result ≡ Err e) }
        ensures unread { IfSome (replies_failed self.old) (λ e. replies_source self.new ≡ replies_source self.old) }
        ensures never_falls { R.faults (replies_source self.old) ≤ R.faults (replies_source self.new) }
        ensures cause { result ≡ Err WireError.ReadFault → replies_failed self.old ≡ None → Rose (R.faults (replies_source self.old)) (R.faults (replies_source self.new)) }
    {
        self.reader.next::<Response>()
    }
}
