// A link over TCP.
use crate::link::{Link, Standing};
use keep_config::Config;
use keep_spec::Failed;
use std::alloc::Global;
use std::io::{BufReader, Read, Write};
use std::net::{Net, TcpStream};
use std::str;

/// A link over TCP, one connection for each exchange. A server is reached at the first of its addresses in the configuration that can be connected to. An opening fails, and counts as one failure, where none of them can, or where memory for the connection's buffer is refused; those that refuse before another one answers count for nothing. Each error of a read or a write counts as a failure, also where it was only interrupted, and so does a write that takes nothing of bytes that there are. Nothing is told of what is exchanged. It reads ahead of what is asked for, and a close drops what wasn't handed out.
#[derive(Drop)]
pub struct TcpLink<'a, N: Net> {
    alloc: Global,
    net: &'a N,
    config: &'a Config,
    // Buffered, since the head of an answer is read byte by byte.
    stream: Option<BufReader<N::Stream>>,
    standing: Standing,
    faults: u64,
}

impl<'a, N: Net> TcpLink<'a, N> {
    ghost use Rattle.std.specs.Prelude.{◌≡◌, ◌≤◌};
    ghost use Rattle.keep_spec.specs.Causes.{Rose};

    /// A link to the servers of a configuration. Connects to none yet.
    pub fn new(alloc: Global, net: &'a N, config: &'a Config) -> TcpLink<'a, N>
        ensures standing { ⟦<TcpLink<'a, N> as Link>⟧.standing result ≡ Standing.Closed }
        ensures faults { ⟦<TcpLink<'a, N> as Link>⟧.faults result ≡ 0 }
    {
        TcpLink {
            alloc,
            net,
            config,
            stream: None,
            standing: Standing::Closed,
            faults: 0,
        }
    }

    // Counts a failed call of the exchange that stands open.
    fn failed(&mut self) -> Failed
        ensures standing { self.new.standing ≡ Standing.Failed }
        ensures never_falls { self.old.faults ≤ self.new.faults }
        ensures rose { Rose self.old.faults self.new.faults }
    {
        self.standing = Standing::Failed;
        self.faults = self.faults.saturating_add(1);
        Failed
    }

    fn connected(&self, server: u32) -> Option<BufReader<N::Stream>> {
        let config: &Config = self.config;
        let server = config.servers.as_slice().get(server as usize)?;
        for address in server.addresses.as_slice() {
            let Ok(text) = str::from_utf8(address.as_slice()) else {
                continue;
            };
            if let Ok(stream) = TcpStream::connect(self.net, text) {
                return BufReader::new(self.alloc, stream).ok();
            }
        }
        None
    }
}

impl<'a, N: Net> Link for TcpLink<'a, N> {
    ghost use Rattle.std.specs.Prelude.{None};

    ghost told = { λ _. None };

    ghost standing = { λ s. s.standing };

    ghost faults = { λ s. s.faults };

    fn open(&mut self, server: u32) -> Result<(), Failed> {
        self.stream = self.connected(server);
        if self.stream.is_some() {
            self.standing = Standing::Open;
            return Ok(());
        }
        self.standing = Standing::Closed;
        self.faults = self.faults.saturating_add(1);
        Err(Failed)
    }

    fn write(&mut self, bytes: &[u8]) -> Result<usize, Failed> {
        let result = match &mut self.stream {
            Some(stream) => stream.get_mut().write(bytes).ok(),
            None => None,
        };
        match result {
            Some(count) if count > 0 || bytes.is_empty() => Ok(count),
            _ => Err(self.failed()),
        }
    }

    fn read(&mut self, buf: &mut [u8]) -> Result<usize, Failed> {
        let result = match &mut self.stream {
            Some(stream) => stream.read(buf).ok(),
            None => None,
        };
        match result {
            Some(count) => Ok(count),
            None => Err(self.failed()),
        }
    }

    fn close(&mut self) {
        self.stream = None;
        self.standing = Standing::Closed;
    }
}
