// A source of bytes that are cut into pieces.
ghost use Rattle.std.specs.Prelude.{None};

use keep_base::{Failed, Source};

/// Gives the bytes before a place and those after it in reads of their own, and at most `most` of them a read.
#[derive(Drop)]
pub struct Pieces<'a> {
    pub bytes: &'a [u8],
    pub cut: usize,
    pub most: usize,
    /// The number of the read that fails; 0 for none.
    pub failing: u64,
    /// The number of the read that returns no byte, as at the end, whatever is left; 0 for none.
    pub ending: u64,
    /// Whether each read after the last byte fails.
    pub ends_failing: bool,
    pub calls: u64,
    pub faults: u64,
}

impl<'a> Source for Pieces<'a> {
    ghost left = { λ _. None };

    ghost faults = { λ s. s.faults };

    fn read(&mut self, buf: &mut [u8]) -> Result<usize, Failed> {
        self.calls = self.calls.saturating_add(1);
        let fails = self.calls == self.failing || self.ends_failing && self.bytes.is_empty();
        if fails && self.faults < u64::MAX {
            self.faults += 1;
            return Err(Failed);
        }
        if self.calls == self.ending {
            return Ok(0);
        }
        let piece = if self.cut == 0 {
            self.bytes.len()
        } else {
            self.cut.min(self.bytes.len())
        };
        let count = piece.min(self.most).min(buf.len());
        buf[..count].copy_from_slice(&self.bytes[..count]);
        self.bytes = &self.bytes[count..];
        self.cut = self.cut.saturating_sub(count);
        Ok(count)
    }
}
