// Reads until a head or a body is there.
ghost use Rattle.std.specs.Prelude.{◌≡◌, ◌≤◌, ◌<◌, IsFalse, length, vec_len, take, IsErrOf};
ghost use Rattle.std.specs.Io.KnownBytes.{IsAtEnd};
ghost use Rattle.keep_spec.specs.Causes.{Rose};
ghost use Rattle.keep_wire.specs.Looks.{front_of, IsLooked, IsFound, IsEnded, SameBytes, IsFilled, IsReadMore};

use crate::head::{Begun, Message};
use crate::{HEAD_MAX, Source, WireError};
use std::alloc::Global;

// How many bytes are asked of the source at once.
pub(crate) const CHUNK: usize = 16384;

// When to look at a head that grows. A look costs the time of the head's bytes. So there is one at the end of each line after the empty lines at the front, of which a head has at most 66, and one whenever the bytes have doubled.
#[derive(Clone, Copy)]
pub(crate) struct Looks {
    /// Where the empty lines at the front end, as far as is known.
    empty: usize,
    /// How many bytes there were before.
    before: usize,
    /// From how many bytes on to look in any case.
    next: usize,
}

impl Looks {
    pub(crate) fn after(length: usize) -> Looks {
        Looks {
            empty: 0,
            before: length,
            next: length.saturating_mul(2).max(256),
        }
    }

    // Whether to look at the bytes, which have grown.
    pub(crate) fn is_due(&mut self, bytes: &[u8]) -> bool
        ensures { IsFalse result → length bytes.now ≤ HEAD_MAX }
    {
        if bytes.len() > HEAD_MAX || bytes.len() >= self.next {
            self.next = bytes.len().saturating_mul(2);
            self.before = bytes.len();
            return true;
        }
        while self.empty < bytes.len() && matches!(bytes[self.empty], b'\r' | b'\n') {
            self.empty += 1;
        }
        let from = self.empty.max(self.before);
        self.before = bytes.len();
        from < bytes.len() && bytes[from..].contains(&b'\n')
    }
}

// As many of the bytes as a head may have.
fn front(bytes: &[u8]) -> &[u8]
    ensures { result.now ≡ front_of bytes.now }
{
    &bytes[..HEAD_MAX.min(bytes.len())]
}

// Looks at as many of the bytes as a head may have.
pub(crate) fn look<M: Message>(alloc: Global, bytes: &[u8]) -> Result<Option<Begun<M>>, WireError>
    ensures { IsLooked M.grammar M.make bytes.now result }
{
    match M::look(alloc, front(bytes)) {
        Ok(Some(begun)) => Ok(Some(begun)),
        Ok(None) => {
            if bytes.len() > HEAD_MAX {
                return Err(WireError::BadHead);
            }
            Ok(None)
        }
        Err(error) => Err(error),
    }
}

// What there is at the end of the input.
fn look_at_end<M: Message>(alloc: Global, bytes: &[u8]) -> Result<Option<Begun<M>>, WireError>
    ensures { IsEnded M.grammar M.make bytes.now result }
{
    if bytes.is_empty() {
        return Ok(None);
    }
    match look::<M>(alloc, bytes) {
        Ok(Some(begun)) => Ok(Some(begun)),
        Ok(None) => Err(WireError::CutBody),
        Err(error) => Err(error),
    }
}

// Reads at most this many bytes more, and returns whether there were any.
pub(crate) fn read_more<R: Source>(
    source: &mut R,
    pending: &mut Vec<u8>,
    chunk: &mut [u8],
    most: usize,
) -> Result<bool, WireError>
    requires not_empty { 0 < most }
    requires room { 0 < length chunk.old }
    ensures read { IsReadMore most pending.old.items (R.left source.old) pending.new.items (R.left source.new) result }
    ensures never_falls { R.faults source.old ≤ R.faults source.new }
    ensures cause { IsErrOf result WireError.ReadFault → Rose (R.faults source.old) (R.faults source.new) }
{
    let want = chunk.len().min(most);
    let count = match source.read(&mut chunk[..want]) {
        Ok(count) => count,
        Err(_) => return Err(WireError::ReadFault),
    };
    if count == 0 {
        return Ok(false);
    }
    if pending.extend_from_slice(&chunk[..count]).is_err() {
        return Err(WireError::NoMemory);
    }
    Ok(true)
}

// Reads until what is pending begins with a head, or can't.
pub(crate) fn fill<R: Source, M: Message>(
    alloc: Global,
    source: &mut R,
    pending: &mut Vec<u8>,
) -> Result<Option<Begun<M>>, WireError>
    requires { vec_len pending.old ≤ HEAD_MAX }
    ensures found { IsFound M.grammar M.make pending.new.items (R.left source.new) result }
    ensures bytes { SameBytes result pending.old.items (R.left source.old) pending.new.items (R.left source.new) }
    ensures never_falls { R.faults source.old ≤ R.faults source.new }
    ensures cause { IsErrOf result WireError.ReadFault → Rose (R.faults source.old) (R.faults source.new) }
{
    let mut looks = Looks::after(pending.len());
    let mut chunk = [0; CHUNK];
    loop {
        match read_more(source, pending, &mut chunk, CHUNK) {
            Ok(true) => {}
            Ok(false) => return look_at_end::<M>(alloc, pending),
            Err(error) => return Err(error),
        }
        if looks.is_due(pending) {
            match look::<M>(alloc, pending) {
                Ok(None) => {}
                Ok(Some(begun)) => return Ok(Some(begun)),
                Err(error) => return Err(error),
            }
        }
    }
}

// Reads until the body has this many bytes.
pub(crate) fn fill_body<R: Source>(
    source: &mut R,
    body: &mut Vec<u8>,
    size: usize,
) -> Result<(), WireError>
    requires { vec_len body.old ≤ size }
    ensures filled { IsFilled size body.new.items (R.left source.new) result }
    ensures bytes { SameBytes result body.old.items (R.left source.old) body.new.items (R.left source.new) }
    ensures never_falls { R.faults source.old ≤ R.faults source.new }
    ensures cause { IsErrOf result WireError.ReadFault → Rose (R.faults source.old) (R.faults source.new) }
{
    if body.len() == size {
        return Ok(());
    }
    let mut chunk = [0; CHUNK];
    while body.len() < size {
        let most = size - body.len();
        match read_more(source, body, &mut chunk, most) {
            Ok(true) => {}
            Ok(false) => return Err(WireError::CutBody),
            Err(error) => return Err(error),
        }
    }
    Ok(())
}
