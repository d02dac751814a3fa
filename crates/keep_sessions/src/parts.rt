// A source of bytes that are cut into two pieces.
ghost use Rattle.std.specs.Prelude.{None};

use keep_base::{Failed, Source};

/// Gives the bytes before a place and those after it in reads of their own.
#[derive(Drop)]
pub struct Parts<'a> {
    bytes: &'a [u8],
    cut: usize,
    failing: u64,
    calls: u64,
    faults: u64,
}

impl<'a> Parts<'a> {
    /// A source of these bytes, with so many in the first piece; 0 for no cut. The read of the number `failing` fails, counted from 1; 0 for none.
    pub fn new(bytes: &'a [u8], cut: usize, failing: u64) -> Parts<'a> {
        Parts {
            bytes,
            cut,
            failing,
            calls: 0,
            faults: 0,
        }
    }
}

impl<'a> Source for Parts<'a> {
    ghost left = { λ _. None };

    ghost faults = { λ s. s.faults };

    fn read(&mut self, buf: &mut [u8]) -> Result<usize, Failed> {
        self.calls = self.calls.saturating_add(1);
        if self.calls == self.failing && self.faults < u64::MAX {
            self.faults += 1;
            return Err(Failed);
        }
        let piece = if self.cut == 0 {
            self.bytes.len()
        } else {
            self.cut.min(self.bytes.len())
        };
        let count = piece.min(buf.len());
        buf[..count].copy_from_slice(&self.bytes[..count]);
        self.bytes = &self.bytes[count..];
        self.cut = self.cut.saturating_sub(count);
        Ok(count)
    }
}
