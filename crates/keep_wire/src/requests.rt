// The requests of a source.
ghost use Rattle.std.specs.Prelude.{◌≡◌, ◌≤◌, Option, None, Some, OnOk, IfErr, IfSome, [], Err};
ghost use Rattle.std.specs.Io.KnownBytes.{prepend_known};
ghost use Rattle.keep_spec.specs.Causes.{Rose};
ghost use Rattle.keep_wire.specs.Requests.{IsNext};

use crate::reader::Reader;
use crate::{Request, Source, WireError};
use std::alloc::Global;

/// The requests of a source (HTTP/1.0 and HTTP/1.1, RFC 9112), the same however the source cuts its bytes into pieces. After an error, `next` returns the same error for ever.
#[derive(Drop)]
pub struct Requests<'a, R: Source> {
    reader: Reader<'a, R>,
}

impl<'a, R: Source> Requests<'a, R> {
    ghost use Rattle.keep_wire.specs.Told.{requests_left, requests_failed, requests_source, requests_name};

    /// The requests of the bytes that the source has left. Reads nothing yet.
    pub fn new(alloc: Global, source: &'a mut R) -> Requests<'a, R>
        ensures same_reference { requests_name result ≡ source.entry.ghost_name }
        ensures same_source { requests_source result ≡ source.old }
        ensures left { requests_left result ≡ prepend_known [] (R.left source.old) }
        ensures no_error { requests_failed result ≡ None }
    {
        Requests {
            reader: Reader::new(alloc, source),
        }
    }

    /// Gives the source back. It may have been read past the last request that was returned. A caller with a clause on its source ends with this call, since nothing is known of a borrow that ends in a dropped value.
    pub fn into_source(self) -> &'a mut R
        ensures same_reference { result.ghost_name ≡ requests_name self.entry }
        ensures same_source { result.now ≡ requests_source self.entry }
    {
        self.reader.into_source()
    }

    /// The next request, or `None` at the end of the input. After a request that closes, it reads on as after any other: the caller stops. An error is returned by every later call too. `ReadFault` comes only where the source's count of faults rose in the call that first returned it.
    pub fn next(&mut self) -> Result<Option<Request>, WireError>
        ensures same_reference { requests_name self.new ≡ requests_name self.old }
        ensures next_message { requests_failed self.old ≡ None → IsNext (requests_left self.old) result (requests_left self.new) }
        ensures no_error { OnOk result ((requests_failed self.old ≡ None) × (requests_failed self.new ≡ None)) }
        ensures failed { IfErr result (λ e. requests_failed self.new ≡ Some e) }
        ensures same_error { IfSome (requests_failed self.old) (λ e. result ≡ Err e) }
        ensures unread { IfSome (requests_failed self.old) (λ e. requests_source self.new ≡ requests_source self.old) }
        ensures never_falls { R.faults (requests_source self.old) ≤ R.faults (requests_source self.new) }
        ensures cause { result ≡ Err WireError.ReadFault → requests_failed self.old ≡ None → Rose (R.faults (requests_source self.old)) (R.faults (requests_source self.new)) }
    {
        self.reader.next::<Request>()
    }
}
