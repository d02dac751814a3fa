// Requests of HTTP: the reader of keep_wire, and a plain loop over httparse beside it.
ghost use Rattle.std.specs.Prelude.{None};

use anyhow::Result;
use httparse::Status;
use httparse::spans::{EMPTY_HEADER_SPAN, HeaderSpan, parse_request};
use keep_base::{Failed, Source};
use keep_wire::Requests;

// A source over bytes, which gives at most `most` of them a read.
#[derive(Drop)]
struct Pieces<'a> {
    bytes: &'a [u8],
    most: usize,
}

impl<'a> Source for Pieces<'a> {
    ghost left = { λ _. None };

    ghost faults = { λ _. 0 };

    fn read(&mut self, buf: &mut [u8]) -> std::result::Result<usize, Failed> {
        let count = self.most.min(buf.len()).min(self.bytes.len());
        buf[..count].copy_from_slice(&self.bytes[..count]);
        self.bytes = &self.bytes[count..];
        Ok(count)
    }
}

/// Reads all requests, of which the source gives at most `most` bytes a read.
pub fn read_requests(rt: &HostRuntime, input: &[u8], most: usize) -> Result<()> {
    let mut source = Pieces { bytes: input, most };
    let mut requests = Requests::new(rt.alloc(), &mut source);
    let mut count: u64 = 0;
    let mut bytes: u64 = 0;
    for _ in 0..u64::MAX {
        match requests.next() {
            Ok(Some(request)) => {
                count = count.saturating_add(1);
                bytes = bytes.saturating_add(request.body.len() as u64);
            }
            Ok(None) => break,
            Err(error) => {
                println!(rt; "{error:?}")?;
                break;
            }
        }
    }
    println!(rt; "{count} requests, {bytes} bytes of bodies")?;
    Ok(())
}

// The Content-Length among these fields, and 0 without one.
fn length_in(bytes: &[u8], headers: &[HeaderSpan]) -> usize {
    for header in headers {
        let name = bytes.get(header.name.start..header.name.end).unwrap_or(b"");
        if name.eq_ignore_ascii_case(b"content-length") {
            let value = bytes
                .get(header.value.start..header.value.end)
                .unwrap_or(b"");
            let text = std::str::from_utf8(value).unwrap_or("");
            return text.parse::<usize>().unwrap_or(0);
        }
    }
    0
}

/// The least that a reader does: parses each head where it lies, and passes its body over.
pub fn parse_heads(rt: &HostRuntime, input: &[u8]) -> Result<()> {
    let mut spans = [EMPTY_HEADER_SPAN; 64];
    let mut rest = input;
    let mut count: u64 = 0;
    let mut bytes: u64 = 0;
    for _ in 0..input.len() {
        let Ok(Status::Complete(head)) = parse_request(rest, &mut spans) else {
            break;
        };
        let length = length_in(rest, spans.get(..head.headers).unwrap_or(&[]));
        count = count.saturating_add(1);
        bytes = bytes.saturating_add(length as u64);
        rest = rest.get(head.len.saturating_add(length)..).unwrap_or(b"");
    }
    println!(rt; "{count} requests, {bytes} bytes of bodies")?;
    Ok(())
}
