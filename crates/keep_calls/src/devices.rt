// Devices: each line of the input is a reading and a query, `compare`, `write`, `fetch`, `touch` or `untrash` and a block, `clear ROUND`,
// `accept ROUND` and then any number of `trash BLOCK SIZE MTIME` and `pull BLOCK SIZE SOURCES`, `page ROUND PREFIX`, `trash`, `pull`, `empty` or `restart`; or
// `reopen` alone. A block is its bytes as text, or `x:` and hexadecimal digits; where a digest is asked for, it is the block's. Settings: `capacity`, `read_only`,
// `ttl`, `skew`, `trash_life` (seconds), `store_fails`, `held ..`, and `changes`. The answer is the printed line of each
// event, with what that line doesn't say, and at the end what the store holds; with `changes` also how many calls that change a store were made of it.
ghost use Rattle.std.specs.Prelude.{◌≤◌};

use crate::counted::Counted;
use keep_casebook::{Answer, Case, OutOfMemory, answer_store, bytes_of_hex, numbers_of, put_held};
use keep_event::{
    Block, DeviceAnswer, DeviceQuery, DeviceRules, Entry, Lists, PullItem, TrashItem,
};
use keep_script::push_event_line;
use keep_spec::{Bytes, Digest, Items};
use keep_store::MemoryStore;
use keep_volume::{OpenError, Volume};
use std::alloc::Global;
use std::str::from_utf8;

const READING_MAX: u64 = 3_999_999_999_999_999_999;

// A span of the case, in seconds.
fn span(case: &Case, key: &str, other: u64) -> u32 {
    u32::try_from(case.number(key, other)).unwrap_or(u32::MAX)
}

fn rules_of(case: &Case) -> DeviceRules {
    DeviceRules {
        capacity: case.number("capacity", 1000),
        read_only: case.value("read_only").is_some(),
        ttl: span(case, "ttl", 100),
        skew: span(case, "skew", 1),
        trash_life: span(case, "trash_life", 50),
    }
}

// A device, or the store of one that was not opened.
#[derive(Drop)]
enum Stand {
    Open(Volume<Counted>),
    Shut(Counted),
}

impl Stand {
    fn into_store(self) -> Counted {
        match self {
            Stand::Open(volume) => volume.into_store(),
            Stand::Shut(store) => store,
        }
    }
}

pub fn answer(alloc: Global, case: &Case, answer: &mut Answer) {
    if answer_lines(alloc, case, answer).is_err() {
        answer.cut();
    }
}

fn answer_lines(alloc: Global, case: &Case, answer: &mut Answer) -> Result<(), OutOfMemory> {
    let fails = numbers_of(alloc, case.value("store_fails").unwrap_or(""))?;
    let mut store = MemoryStore::new(alloc, fails);
    for setting in case.settings() {
        if setting.key == "held" {
            put_held(alloc, &mut store, setting.value)?;
        }
    }
    let mut stand = opened(alloc, case, Counted::over(store), answer)?;
    for line in case.body().split(|byte| *byte == b'\n') {
        let line = from_utf8(line).unwrap_or("");
        stand = if line == "reopen" {
            opened(alloc, case, stand.into_store(), answer)?
        } else {
            after_query(alloc, stand, line, answer)?
        };
    }
    let mut store = stand.into_store();
    answer_store(0, &mut store.inner, answer);
    if case.value("changes").is_some() {
        answer.text(b"changing calls ");
        answer.number(store.changes);
        answer.note();
    }
    Ok(())
}

fn opened(
    alloc: Global,
    case: &Case,
    store: Counted,
    answer: &mut Answer,
) -> Result<Stand, OutOfMemory> {
    match Volume::open(alloc, store, rules_of(case)) {
        Ok(volume) => Ok(Stand::Open(volume)),
        Err(OpenError::StoreFault { store }) => {
            answer.value(b"not opened: StoreFault");
            Ok(Stand::Shut(store))
        }
        Err(OpenError::NoMemory { store: _ }) => Err(OutOfMemory),
    }
}

fn after_query(
    alloc: Global,
    stand: Stand,
    line: &str,
    answer: &mut Answer,
) -> Result<Stand, OutOfMemory> {
    let mut volume = match stand {
        Stand::Open(volume) => volume,
        Stand::Shut(store) => {
            answer.value(b"no device");
            return Ok(Stand::Shut(store));
        }
    };
    let mut words = Vec::new(alloc);
    for word in line.split_whitespace() {
        words.push(word)?;
    }
    let reading = number_at(&words, 0).min(READING_MAX);
    match query_of(alloc, &words)? {
        Some(query) => answer_event(alloc, 0, &volume.step(reading, &query)?, answer)?,
        None => answer.value(b"no query"),
    }
    Ok(Stand::Open(volume))
}

fn word_at<'a>(words: &[&'a str], at: usize) -> &'a str {
    words.get(at).copied().unwrap_or("")
}

fn number_at(words: &[&str], at: usize) -> u64 {
    word_at(words, at).parse::<u64>().unwrap_or(0)
}

fn block_of(alloc: Global, word: &str) -> Result<Option<Block>, OutOfMemory> {
    let bytes = match word.strip_prefix("x:") {
        Some(digits) => bytes_of_hex(alloc, digits)?,
        None => Some(Vec::from_slice(alloc, word.as_bytes())?),
    };
    match bytes {
        Some(bytes) => Ok(Block::of(Bytes::of(bytes)).ok()),
        None => Ok(None),
    }
}

/// The digest of a block.
pub fn digest_of(alloc: Global, word: &str) -> Result<Option<Digest>, OutOfMemory> {
    Ok(block_of(alloc, word)?.map(|block| block.digest()))
}

/// The query of a line, after its reading.
pub fn query_of(alloc: Global, words: &[&str]) -> Result<Option<DeviceQuery>, OutOfMemory> {
    match word_at(words, 1) {
        "clear" => Ok(Some(DeviceQuery::Clear {
            round: number_at(words, 2),
        })),
        "accept" => Ok(Some(DeviceQuery::Accept {
            round: number_at(words, 2),
            lists: lists_of(alloc, words)?,
        })),
        "page" => Ok(Some(DeviceQuery::Page {
            round: number_at(words, 2),
            prefix: Bytes::of(Vec::from_slice(alloc, word_at(words, 3).as_bytes())?),
        })),
        "trash" => Ok(Some(DeviceQuery::TrashNext)),
        "pull" => Ok(Some(DeviceQuery::PullNext)),
        "empty" => Ok(Some(DeviceQuery::EmptyNext)),
        "restart" => Ok(Some(DeviceQuery::Restart)),
        kind => query_about(alloc, kind, word_at(words, 2)),
    }
}

// The query about a block or its digest.
fn query_about(alloc: Global, kind: &str, word: &str) -> Result<Option<DeviceQuery>, OutOfMemory> {
    let Some(block) = block_of(alloc, word)? else {
        return Ok(None);
    };
    let digest = block.digest();
    let token = None;
    match kind {
        "compare" => Ok(Some(DeviceQuery::CompareTouch { block, token })),
        "write" => Ok(Some(DeviceQuery::Write { block, token })),
        "fetch" => Ok(Some(DeviceQuery::Fetch { digest })),
        "touch" => Ok(Some(DeviceQuery::Touch { digest, token })),
        "untrash" => Ok(Some(DeviceQuery::Untrash { digest })),
        _ => Ok(None),
    }
}

// The lists of an `accept`: after the round four words for each item.
fn lists_of(alloc: Global, words: &[&str]) -> Result<Lists, OutOfMemory> {
    let mut trash = Vec::new(alloc);
    let mut pull = Vec::new(alloc);
    for item in words.get(3..).unwrap_or(&[]).chunks(4) {
        let size = number_at(item, 2);
        let Some(digest) = digest_of(alloc, word_at(item, 1))? else {
            continue;
        };
        if word_at(item, 0) == "trash" {
            let mtime = number_at(item, 3);
            trash.push(TrashItem {
                digest,
                size,
                mtime,
            })?;
        } else {
            let sources = Items::of(sources_of(alloc, word_at(item, 3))?);
            pull.push(PullItem {
                digest,
                size,
                sources,
            })?;
        }
    }
    Ok(Lists {
        trash: Items::of(trash),
        pull: Items::of(pull),
    })
}

// Numbers of devices, with commas between.
fn sources_of(alloc: Global, word: &str) -> Result<Vec<u32>, OutOfMemory> {
    let mut sources = Vec::new(alloc);
    for number in word.split(',') {
        if let Ok(number) = number.parse::<u32>() {
            sources.push(number)?;
        }
    }
    Ok(sources)
}

/// The printed line of an event of a device, and what it leaves out.
pub fn answer_event(
    alloc: Global,
    device: u32,
    reply: &DeviceAnswer,
    answer: &mut Answer,
) -> Result<(), OutOfMemory> {
    let mut line = Vec::new(alloc);
    push_event_line(&mut line, b"q", device, reply)?;
    answer.output(&line);
    match reply {
        DeviceAnswer::Block { bytes } => {
            answer.text(b"bytes ");
            answer.hexadecimal(bytes.as_slice());
            answer.note();
        }
        DeviceAnswer::Page { entries } => {
            for entry in entries.as_slice() {
                answer_entry(entry, answer);
            }
        }
        DeviceAnswer::Trashed { round, .. } => {
            answer.text(b"round ");
            answer.number(*round);
            answer.note();
        }
        DeviceAnswer::Pull { item } => answer_item(item, answer),
        _ => {}
    }
    Ok(())
}

fn answer_entry(entry: &Entry, answer: &mut Answer) {
    answer.text(b"entry ");
    answer.text(&entry.digest.write());
    answer.text(b" ");
    answer.number(entry.size);
    answer.text(b" ");
    answer.number(entry.mtime);
    answer.note();
}

fn answer_item(item: &PullItem, answer: &mut Answer) {
    answer.text(b"size ");
    answer.number(item.size);
    answer.text(b", sources");
    for source in item.sources.as_slice() {
        answer.text(b" ");
        answer.number(u64::from(*source));
    }
    answer.note();
}
