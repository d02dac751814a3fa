// A link in memory, whose answers are given beforehand. What is proved of it is what it tells.
ghost use Rattle.std.specs.Prelude.{◌≡◌, ◌≤◌, ◌++◌, take, length, min, IfOk, Ok};
ghost use Rattle.keep_client.specs.Exchanges.{begun, after_write, after_read};

use crate::link::{Exchange, Link, Standing};
use keep_spec::{Bytes, Failed, NoMemory};
use std::alloc::Global;

/// What a scripted link is to give at an opening.
#[derive(Drop, Debug)]
pub enum LinkAnswer {
    /// The opening succeeds, whatever is written is taken, and the answer has these bytes and then ends.
    Bytes(Bytes),
    /// The opening fails.
    Fails,
}

/// A link in memory whose answers are given beforehand, one for each opening in order, whichever server is asked; once they are used up each opening fails. A write takes all bytes, a read gives as many as are left and fit.
///
/// It is proved that it tells its exchanges until it stops telling. That it stops only where memory for them is refused, and which calls fail and which bytes are given, no clause says; the cases show it.
#[derive(Drop)]
pub struct ScriptedLink {
    alloc: Global,
    answers: Vec<LinkAnswer>,
    // How many openings there were, and how many bytes of the last one's answer were read.
    opened: usize,
    at: usize,
    standing: Standing,
    exchanges: Vec<Exchange>,
    is_lost: bool,
    faults: u64,
}

// The bytes, and then more.
fn appended(bytes: Bytes, more: &[u8]) -> Result<Bytes, NoMemory>
    ensures { IfOk result (λ b. b ≡ bytes ++ more.now) }
{
    let mut items = bytes.into_vec();
    items.extend_from_slice(more)?;
    Ok(Bytes::of(items))
}

// An exchange that was just begun.
fn begun(alloc: Global, server: u32, failed: bool) -> Exchange
    ensures { result ≡ begun server failed }
{
    Exchange {
        server,
        written: Bytes::of(Vec::new(alloc)),
        read: Bytes::of(Vec::new(alloc)),
        ended: false,
        failed,
    }
}

// The exchange after these bytes were written.
fn after_write(exchange: Exchange, bytes: &[u8]) -> Result<Exchange, NoMemory>
    ensures { IfOk result (λ e. e ≡ record exchange { written = exchange.written ++ bytes.now }) }
{
    let Exchange {
        server,
        written,
        read,
        ended,
        failed,
    } = exchange;
    Ok(Exchange {
        server,
        written: appended(written, bytes)?,
        read,
        ended,
        failed,
    })
}

// The exchange after so many bytes were read into the buffer.
fn after_read(exchange: Exchange, buf: &[u8], count: usize) -> Result<Exchange, NoMemory>
    requires { count ≤ length buf.now }
    ensures { IfOk result (λ e. e ≡ after_read {E = Failed} (Ok count) buf.now exchange) }
{
    let Exchange {
        server,
        written,
        read,
        ended,
        failed,
    } = exchange;
    Ok(Exchange {
        server,
        written,
        read: appended(read, &buf[..count])?,
        ended: ended || (count == 0 && !buf.is_empty()),
        failed,
    })
}

// Copies bytes into the start of a buffer, and returns how many.
fn copy_to(bytes: &[u8], buf: &mut [u8]) -> usize
    ensures count { result ≡ min (length bytes.now) (length buf.old) }
    ensures copied { take result buf.new ≡ take result bytes.now }
    ensures same_length { length buf.new ≡ length buf.old }
{
    let count = bytes.len().min(buf.len());
    let (front, _) = bytes.split_at(count);
    buf[..count].copy_from_slice(front);
    count
}

impl ScriptedLink {
    ghost use Rattle.std.specs.Prelude.{◌≡◌, ◌≤◌, Some, Ok, [], length};
    ghost use Rattle.std.specs.Option.{option_copied};
    ghost use Rattle.keep_spec.specs.Causes.{counted};
    ghost use Rattle.keep_client.specs.Exchanges.{begun, after_write, after_read};
    ghost use Rattle.keep_client.specs.Scripted.{Notes, Changes};

    /// A link with these answers, over which nothing was exchanged.
    pub fn new(alloc: Global, answers: Vec<LinkAnswer>) -> ScriptedLink
        ensures told { ⟦<ScriptedLink as Link>⟧.told result ≡ Some [] }
        ensures standing { ⟦<ScriptedLink as Link>⟧.standing result ≡ Standing.Closed }
        ensures faults { ⟦<ScriptedLink as Link>⟧.faults result ≡ 0 }
    {
        ScriptedLink {
            alloc,
            answers,
            opened: 0,
            at: 0,
            standing: Standing::Closed,
            exchanges: Vec::new(alloc),
            is_lost: false,
            faults: 0,
        }
    }

    /// The exchanges so far, in order; `None` once the link has stopped telling, as it does where memory for them is refused.
    pub fn exchanges(&self) -> Option<&[Exchange]>
        ensures { option_copied result ≡ ⟦<ScriptedLink as Link>⟧.told self.now }
    {
        if self.is_lost {
            None
        } else {
            Some(self.exchanges.as_slice())
        }
    }

    // Notes an exchange after the others. Where there is no memory for it, nothing is told from now on.
    fn note(&mut self, exchange: Result<Exchange, NoMemory>)
        ensures noted { Notes exchange self.old self.new }
        ensures rest { self.new ≡ record self.old { exchanges = self.new.exchanges; is_lost = self.new.is_lost } }
    {
        match exchange {
            Ok(exchange) => {
                if self.exchanges.push(exchange).is_err() {
                    self.is_lost = true;
                }
            }
            Err(_) => self.is_lost = true,
        }
    }

    // Notes an opening.
    fn begin(&mut self, server: u32, failed: bool)
        ensures noted { Notes {E = NoMemory} (Ok (begun server failed)) self.old self.new }
        ensures rest { self.new ≡ record self.old { exchanges = self.new.exchanges; is_lost = self.new.is_lost } }
    {
        self.note(Ok(begun(self.alloc, server, failed)))
    }

    // Notes that bytes were written in the exchange that stands open.
    fn note_written(&mut self, bytes: &[u8])
        ensures noted { Changes (after_write {E = Failed} (Ok (length bytes.now)) bytes.now) self.old self.new }
        ensures rest { self.new ≡ record self.old { exchanges = self.new.exchanges; is_lost = self.new.is_lost } }
    {
        match self.exchanges.pop() {
            Some(last) => self.note(after_write(last, bytes)),
            None => self.is_lost = true,
        }
    }

    // Notes that so many bytes were read into a buffer in the exchange that stands open.
    fn note_read(&mut self, buf: &[u8], count: usize)
        requires { count ≤ length buf.now }
        ensures noted { Changes (after_read {E = Failed} (Ok count) buf.now) self.old self.new }
        ensures rest { self.new ≡ record self.old { exchanges = self.new.exchanges; is_lost = self.new.is_lost } }
    {
        match self.exchanges.pop() {
            Some(last) => self.note(after_read(last, buf, count)),
            None => self.is_lost = true,
        }
    }

    // Whether the next opening succeeds.
    fn has_answer(&self) -> bool {
        matches!(self.answers.get(self.opened), Some(LinkAnswer::Bytes(_)))
    }

    // What is left of the answer to the last opening.
    fn unread(&self) -> &[u8] {
        let Some(last) = self.opened.checked_sub(1) else {
            return &[];
        };
        match self.answers.get(last) {
            Some(LinkAnswer::Bytes(bytes)) => bytes.as_slice().get(self.at..).unwrap_or(&[]),
            _ => &[],
        }
    }
}

impl Link for ScriptedLink {
    ghost use Rattle.keep_client.specs.Scripted.{scripted_told};

    ghost told = { scripted_told };

    ghost standing = { λ s. s.standing };

    ghost faults = { λ s. s.faults };

    fn open(&mut self, server: u32) -> Result<(), Failed> {
        let opens = self.has_answer();
        self.opened = self.opened.saturating_add(1);
        self.at = 0;
        if opens {
            self.begin(server, false);
            self.standing = Standing::Open;
            return Ok(());
        }
        self.begin(server, true);
        self.standing = Standing::Closed;
        self.faults = self.faults.saturating_add(1);
        Err(Failed)
    }

    fn write(&mut self, bytes: &[u8]) -> Result<usize, Failed> {
        self.note_written(bytes);
        Ok(bytes.len())
    }

    fn read(&mut self, buf: &mut [u8]) -> Result<usize, Failed> {
        let count = copy_to(self.unread(), buf);
        self.at = self.at.saturating_add(count);
        self.note_read(buf, count);
        Ok(count)
    }

    fn close(&mut self) {
        self.standing = Standing::Closed;
    }
}
