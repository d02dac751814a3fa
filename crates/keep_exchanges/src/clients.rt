// Calls of a client over a link in memory. The first line of the input is a configuration. Settings: each `answer TEXT` is the answer to one opening, in
// order, with `\r`, `\n` and `\\` for those bytes, and `answer fails` an opening that fails; `call N` is the number of a call of the link that fails, where it
// is an opening, a write or a read. `put COPIES TOKEN TEXT` puts the block of a text, `get TOKEN LOCATOR` gets one, `index MOUNT ROUND PREFIX` fetches an
// index; a token `-` is none. The answer is what the call returned, then for each exchange what the server was sent and what was read of its answer, and at
// last the calls of the link: `o`, `w`, `r` and `c` for an opening, a write, a read and a close, and `!` after one that failed.
use keep_casebook::{Answer, Case, OutOfMemory};
use keep_client::{
    ClientError, Exchange, Link, LinkAnswer, ScriptedLink, fetch_index, get_block, is_index_prefix,
    put_block, server_of,
};
use keep_config::Config;
use keep_event::Block;
use keep_spec::{Bytes, Failed, Uuid};
use std::alloc::Global;

// A link over one in memory that notes each call, and fails at one of them.
#[derive(Drop)]
struct Watched {
    link: ScriptedLink,
    failing: u64,
    calls: u64,
    has_failed: bool,
    faults: u64,
    noted: Vec<u8>,
}

impl Watched {
    ghost use Rattle.std.specs.Prelude.{◌≡◌, ◌≤◌};
    ghost use Rattle.keep_spec.specs.Causes.{Rose};

    // Notes a call. Whether it is to fail.
    fn note(&mut self, letter: u8) -> bool
        ensures link { self.new.link ≡ self.old.link }
        ensures has_failed { self.new.has_failed ≡ self.old.has_failed }
        ensures faults { self.new.faults ≡ self.old.faults }
    {
        self.calls = self.calls.saturating_add(1);
        let is_noted = self.noted.push(letter).is_ok();
        !is_noted || self.calls == self.failing
    }

    // Counts a call that failed.
    fn fault(&mut self) -> Failed
        ensures link { self.new.link ≡ self.old.link }
        ensures has_failed { self.new.has_failed ≡ self.old.has_failed }
        ensures never_falls { self.old.faults ≤ self.new.faults }
        ensures rose { Rose self.old.faults self.new.faults }
    {
        self.faults = self.faults.saturating_add(1);
        match self.noted.push(b'!') {
            Ok(()) => Failed,
            Err(_) => Failed,
        }
    }
}

impl Link for Watched {
    ghost use Rattle.std.specs.Prelude.{None, if◌then◌else◌};
    ghost use Rattle.keep_client.specs.declared.link.Standing.TheVariants as state;

    ghost told = { λ _. None };

    ghost standing = { λ s. if s.has_failed then state.Failed else ⟦<ScriptedLink as Link>⟧.standing s.link };

    ghost faults = { λ s. s.faults };

    fn open(&mut self, server: u32) -> Result<(), Failed> {
        self.has_failed = false;
        self.link.close();
        if self.note(b'o') {
            return Err(self.fault());
        }
        match self.link.open(server) {
            Ok(()) => Ok(()),
            Err(_) => Err(self.fault()),
        }
    }

    fn write(&mut self, bytes: &[u8]) -> Result<usize, Failed> {
        if self.note(b'w') {
            self.has_failed = true;
            return Err(self.fault());
        }
        match self.link.write(bytes) {
            Ok(count) => Ok(count),
            Err(_) => {
                self.has_failed = true;
                Err(self.fault())
            }
        }
    }

    fn read(&mut self, buf: &mut [u8]) -> Result<usize, Failed> {
        if self.note(b'r') {
            self.has_failed = true;
            return Err(self.fault());
        }
        match self.link.read(buf) {
            Ok(count) => Ok(count),
            Err(_) => {
                self.has_failed = true;
                Err(self.fault())
            }
        }
    }

    fn close(&mut self) {
        self.has_failed = false;
        self.link.close();
        self.note(b'c');
    }
}

// The bytes of a text in which `\r`, `\n` and `\\` stand for one byte.
fn unescaped(alloc: Global, text: &[u8]) -> Result<Vec<u8>, OutOfMemory> {
    let mut bytes = Vec::new(alloc);
    let mut is_escaped = false;
    for byte in text {
        if is_escaped {
            bytes.push(match *byte {
                b'r' => b'\r',
                b'n' => b'\n',
                other => other,
            })?;
            is_escaped = false;
        } else if *byte == b'\\' {
            is_escaped = true;
        } else {
            bytes.push(*byte)?;
        }
    }
    Ok(bytes)
}

// The longest text of an exchange that is shown, in bytes.
const SHOWN: usize = 400;

fn add_escaped(bytes: &[u8], answer: &mut Answer) {
    if bytes.len() > SHOWN {
        answer.number(bytes.len() as u64);
        return answer.text(b" bytes");
    }
    for byte in bytes {
        match *byte {
            b'\r' => answer.text(b"\\r"),
            b'\n' => answer.text(b"\\n"),
            b'\\' => answer.text(b"\\\\"),
            other => answer.text(&[other]),
        }
    }
}

fn answers_of(alloc: Global, case: &Case) -> Result<Vec<LinkAnswer>, OutOfMemory> {
    let mut answers = Vec::new(alloc);
    for setting in case.settings() {
        if setting.key == "answer" {
            answers.push(match setting.value {
                "fails" => LinkAnswer::Fails,
                text => LinkAnswer::Bytes(Bytes::of(unescaped(alloc, text.as_bytes())?)),
            })?;
        }
    }
    Ok(answers)
}

pub fn answer(alloc: Global, case: &Case, answer: &mut Answer) {
    let Ok(config) = Config::read(alloc, case.body()) else {
        return answer.value(b"no configuration");
    };
    if answer_calls(alloc, case, &config, answer).is_err() {
        answer.cut();
    }
}

fn answer_calls(
    alloc: Global,
    case: &Case,
    config: &Config,
    answer: &mut Answer,
) -> Result<(), OutOfMemory> {
    let mut link = Watched {
        link: ScriptedLink::new(alloc, answers_of(alloc, case)?),
        failing: case.number("call", 0),
        calls: 0,
        has_failed: false,
        faults: 0,
        noted: Vec::new(alloc),
    };
    for setting in case.settings() {
        match setting.key {
            "put" => answer_put(alloc, &mut link, config, setting.value, answer)?,
            "get" => answer_get(alloc, &mut link, config, setting.value, answer),
            "index" => answer_index(alloc, &mut link, config, setting.value, answer),
            _ => {}
        }
    }
    answer_exchanges(&link, answer);
    Ok(())
}

fn token_of(text: &str) -> &[u8] {
    if text == "-" { &[] } else { text.as_bytes() }
}

fn answer_put(
    alloc: Global,
    link: &mut Watched,
    config: &Config,
    value: &str,
    answer: &mut Answer,
) -> Result<(), OutOfMemory> {
    let (copies, rest) = value.split_once(' ').unwrap_or((value, ""));
    let (token, text) = rest.split_once(' ').unwrap_or((rest, ""));
    let Ok(block) = Block::of(Bytes::copy_of(alloc, text.as_bytes())?) else {
        answer.value(b"no block");
        return Ok(());
    };
    let copies = copies.parse::<u32>().unwrap_or(0);
    match put_block(alloc, link, config, token_of(token), &block, copies) {
        Ok(done) => {
            for locator in done.locators.as_slice() {
                answer.value(locator.as_slice());
            }
            answer.value(b"Stored");
        }
        Err(error) => add_error(error, answer),
    }
    Ok(())
}

fn answer_get(
    alloc: Global,
    link: &mut Watched,
    config: &Config,
    value: &str,
    answer: &mut Answer,
) {
    let (token, locator) = value.split_once(' ').unwrap_or((value, ""));
    match get_block(alloc, link, config, token_of(token), locator.as_bytes()) {
        Ok(bytes) => {
            answer.text(b"Bytes ");
            add_escaped(bytes.as_slice(), answer);
            answer.end();
        }
        Err(error) => add_error(error, answer),
    }
}

fn answer_index(
    alloc: Global,
    link: &mut Watched,
    config: &Config,
    value: &str,
    answer: &mut Answer,
) {
    let (mount, rest) = value.split_once(' ').unwrap_or((value, ""));
    let (round, prefix) = rest.split_once(' ').unwrap_or((rest, ""));
    let Ok(mount) = Uuid::read(mount.as_bytes()) else {
        return answer.value(b"no UUID");
    };
    if server_of(config, &mount).is_none() || !is_index_prefix(prefix.as_bytes()) {
        return answer.value(b"no mount or no prefix");
    }
    let round = round.parse::<u64>().unwrap_or(0);
    match fetch_index(alloc, link, config, &mount, round, prefix.as_bytes()) {
        Ok(entries) => {
            for entry in &entries {
                answer.text(&entry.digest.write());
                answer.text(b" ");
                answer.number(entry.size);
                answer.text(b" ");
                answer.number(entry.mtime);
                answer.end();
            }
            answer.value(b"Index");
        }
        Err(error) => add_error(error, answer),
    }
}

fn add_counts(word: &[u8], counts: &[usize], answer: &mut Answer) {
    answer.text(word);
    for count in counts {
        answer.text(b" ");
        answer.number(*count as u64);
    }
    answer.end();
}

fn add_error(error: ClientError, answer: &mut Answer) {
    match error {
        ClientError::BadLocator { at } => add_counts(b"BadLocator", &[at], answer),
        ClientError::TooFew {
            acked,
            failed,
            refused,
        } => add_counts(b"TooFew", &[acked, failed, refused], answer),
        ClientError::NotFound => answer.value(b"NotFound"),
        ClientError::Unread {
            wrong,
            failed,
            refused,
        } => add_counts(b"Unread", &[wrong, failed, refused], answer),
        ClientError::LinkFault => answer.value(b"LinkFault"),
        ClientError::Refused { status } => add_counts(b"Refused", &[status as usize], answer),
        ClientError::BadResponse => answer.value(b"BadResponse"),
        ClientError::BadIndex { at } => add_counts(b"BadIndex", &[at], answer),
        ClientError::CutIndex => answer.value(b"CutIndex"),
        ClientError::NoMemory => answer.cut(),
    }
}

fn answer_exchanges(link: &Watched, answer: &mut Answer) {
    match link.link.exchanges() {
        Some(exchanges) => {
            for exchange in exchanges {
                answer_exchange(exchange, answer);
            }
        }
        None => answer.cut(),
    }
    answer.text(b"calls ");
    answer.text(&link.noted);
    answer.note();
}

fn answer_exchange(exchange: &Exchange, answer: &mut Answer) {
    answer.number(exchange.server as u64);
    answer.text(b" was sent ");
    add_escaped(exchange.written.as_slice(), answer);
    answer.note();
    answer.number(exchange.server as u64);
    answer.text(b" said ");
    add_escaped(exchange.read.as_slice(), answer);
    if exchange.ended {
        answer.text(b" and ended");
    }
    if exchange.failed {
        answer.text(b" and failed");
    }
    answer.note();
}
