// Whether histories are safe, whether or not a machine would answer so: the setting `config` is a configuration, and each line of the input is an event, its reading first:
// `put DEVICE MTIME TEXT` and `touch DEVICE MTIME TEXT` (written and touched at this time, with the first client's token), `back DEVICE TEXT`,
// `save NUMBER TEXT..`, `update NUMBER TEXT..` and `preserve NUMBER TEXT..` (of a manifest that names the blocks of these texts), `read NUMBER EXPIRY TEXT..`,
// `trash NUMBER DELETE_AT`, `restore NUMBER`, `sweep`. Of rounds: `begin ROUND`, `clear DEVICE ROUND`, `page DEVICE ROUND MTIME TEXT..` (of replicas with this time),
// `scan ROUND AFTER more|last`, then a revision and a text for each row, `accept DEVICE ROUND MTIME TEXT..` (of a trash list of replicas with this time),
// `trashed DEVICE ROUND TEXT`. The answer has a line for each protected digest, with the devices that hold it, and at last `safe`, or the digest that is held nowhere.
use keep_casebook::{Answer, Case, OutOfMemory};
use keep_config::Config;
use keep_core::{Unsafe, holders, protected, safe_at};
use keep_event::{
    Answer as EventAnswer, Block, DeviceAnswer, DeviceQuery, Entry, Event, Lists, Query,
    SaveRequest, ScanRow, TableAnswer, TableQuery, TrashItem,
};
use keep_spec::{Bytes, Digest, Items, Portable, TokenId};
use std::alloc::Global;
use std::str::from_utf8;

pub fn answer(alloc: Global, case: &Case, answer: &mut Answer) {
    let Ok(config) = Config::read(alloc, case.value("config").unwrap_or("").as_bytes()) else {
        return answer.value(b"no configuration");
    };
    if answer_history(alloc, case, &config, answer).is_err() {
        answer.cut();
    }
}

fn answer_history(
    alloc: Global,
    case: &Case,
    config: &Config,
    answer: &mut Answer,
) -> Result<(), OutOfMemory> {
    let mut events = Vec::new(alloc);
    for line in case.body().split(|byte| *byte == b'\n') {
        let mut words = Words {
            rest: from_utf8(line).unwrap_or(""),
        };
        if !words.rest.is_empty() {
            let event = event_of(alloc, events.len() as u64, &mut words)?;
            events.push(event)?;
        }
    }
    for digest in &protected(alloc, config, &events)? {
        answer.text(&digest.write());
        for device in &holders(alloc, config, &events, digest)? {
            answer.text(b" d");
            answer.number(u64::from(*device));
        }
        answer.end();
    }
    answer_safe(alloc, config, &events, answer);
    Ok(())
}

fn answer_safe(alloc: Global, config: &Config, events: &[Event], answer: &mut Answer) {
    match safe_at(alloc, config, events) {
        Ok(()) => answer.value(b"safe"),
        Err(error) => answer_unsafe(error, answer),
    }
}

fn answer_unsafe(error: Unsafe, answer: &mut Answer) {
    match error {
        Unsafe::Unheld { digest } => {
            answer.text(b"unheld ");
            answer.text(&digest.write());
            answer.end();
        }
        Unsafe::NoMemory => answer.cut(),
    }
}

// The words of a line that are left.
#[derive(Drop)]
struct Words<'a> {
    rest: &'a str,
}

impl<'a> Words<'a> {
    fn word(&mut self) -> &'a str {
        let (word, rest) = self.rest.split_once(' ').unwrap_or((self.rest, ""));
        self.rest = rest;
        word
    }

    fn number(&mut self) -> u64 {
        self.word().parse::<u64>().unwrap_or(0)
    }
}

fn block_of(alloc: Global, text: &str) -> Result<Block, OutOfMemory> {
    let bytes = Bytes::of(Vec::from_slice(alloc, text.as_bytes())?);
    match Block::of(bytes) {
        Ok(block) => Ok(block),
        Err(_) => Err(OutOfMemory),
    }
}

fn event_of(alloc: Global, tick: u64, words: &mut Words) -> Result<Event, OutOfMemory> {
    let reading = words.number();
    let kind = words.word();
    let number = words.number();
    let (query, answer) = match kind {
        "put" | "touch" | "back" | "trashed" | "clear" | "page" | "accept" => {
            let (query, answer) = at_device(alloc, kind, words)?;
            (
                Query::Device(u32::try_from(number).unwrap_or(u32::MAX), query),
                EventAnswer::Device(answer),
            )
        }
        "begin" => (
            Query::Table(TableQuery::BeginRound),
            EventAnswer::Table(TableAnswer::Round {
                round: number,
                started: reading,
            }),
        ),
        _ => {
            let (query, answer) = at_table(alloc, kind, number, words)?;
            (Query::Table(query), EventAnswer::Table(answer))
        }
    };
    Ok(Event {
        tick,
        reading,
        actor: 0,
        query,
        answer,
    })
}

fn at_device(
    alloc: Global,
    kind: &str,
    words: &mut Words,
) -> Result<(DeviceQuery, DeviceAnswer), OutOfMemory> {
    let token = Some(TokenId { number: 1 });
    match kind {
        "put" => {
            let mtime = words.number();
            let block = block_of(alloc, words.word())?;
            Ok((
                DeviceQuery::Write { block, token },
                DeviceAnswer::Written { mtime },
            ))
        }
        "touch" => {
            let mtime = words.number();
            let digest = block_of(alloc, words.word())?.digest();
            Ok((
                DeviceQuery::Touch { digest, token },
                DeviceAnswer::Touched { mtime },
            ))
        }
        "back" => {
            let digest = block_of(alloc, words.word())?.digest();
            Ok((
                DeviceQuery::Untrash { digest },
                DeviceAnswer::Back { mtime: 0 },
            ))
        }
        _ => of_round(alloc, kind, words),
    }
}

// An event of a round at a device.
fn of_round(
    alloc: Global,
    kind: &str,
    words: &mut Words,
) -> Result<(DeviceQuery, DeviceAnswer), OutOfMemory> {
    let round = words.number();
    match kind {
        "clear" => Ok((DeviceQuery::Clear { round }, DeviceAnswer::Cleared)),
        "page" => {
            let entries = Items::of(entries_of(alloc, words)?);
            let prefix = Bytes::of(Vec::new(alloc));
            Ok((
                DeviceQuery::Page { round, prefix },
                DeviceAnswer::Page { entries },
            ))
        }
        "accept" => {
            let lists = lists_of(alloc, words)?;
            let trash = lists.trash.as_slice().len() as u64;
            Ok((
                DeviceQuery::Accept { round, lists },
                DeviceAnswer::Accepted { trash, pull: 0 },
            ))
        }
        _ => {
            let digest = block_of(alloc, words.word())?.digest();
            Ok((
                DeviceQuery::TrashNext,
                DeviceAnswer::Trashed {
                    digest,
                    deadline: 0,
                    round,
                },
            ))
        }
    }
}

// Replicas of the words with the time before them.
fn entries_of(alloc: Global, words: &mut Words) -> Result<Vec<Entry>, OutOfMemory> {
    let mtime = words.number();
    let mut entries = Vec::new(alloc);
    for word in words.rest.split_whitespace() {
        let digest = block_of(alloc, word)?.digest();
        entries.push(Entry {
            digest,
            size: 3,
            mtime,
        })?;
    }
    Ok(entries)
}

fn lists_of(alloc: Global, words: &mut Words) -> Result<Lists, OutOfMemory> {
    let mut trash = Vec::new(alloc);
    for entry in &entries_of(alloc, words)? {
        trash.push(TrashItem {
            digest: entry.digest,
            size: entry.size,
            mtime: entry.mtime,
        })?;
    }
    Ok(Lists {
        trash: Items::of(trash),
        pull: Items::of(Vec::new(alloc)),
    })
}

fn bytes_of(alloc: Global, text: &str) -> Result<Bytes, OutOfMemory> {
    Ok(Bytes::of(Vec::from_slice(alloc, text.as_bytes())?))
}

// A manifest of one file, which names the blocks of the words.
fn manifest_of(alloc: Global, words: &mut Words) -> Result<Bytes, OutOfMemory> {
    let mut text = Vec::from_slice(alloc, b".")?;
    for word in words.rest.split_whitespace() {
        text.push(b' ')?;
        text.extend_from_slice(&block_of(alloc, word)?.digest().write())?;
        text.extend_from_slice(b"+3")?;
    }
    text.extend_from_slice(b" 0:3:f\n")?;
    Ok(Bytes::of(text))
}

fn request_of(alloc: Global, words: &mut Words) -> Result<SaveRequest, OutOfMemory> {
    Ok(SaveRequest {
        token: bytes_of(alloc, "alice")?,
        text: manifest_of(alloc, words)?,
        want: 1,
        portable: None,
    })
}

fn portable() -> Portable {
    Portable {
        digest: Digest::of_md5([0; 16]),
        size: 0,
    }
}

fn at_table(
    alloc: Global,
    kind: &str,
    number: u64,
    words: &mut Words,
) -> Result<(TableQuery, TableAnswer), OutOfMemory> {
    match kind {
        "save" => Ok((
            TableQuery::Save {
                request: request_of(alloc, words)?,
            },
            TableAnswer::Saved {
                number,
                version: 1,
                portable: portable(),
            },
        )),
        "update" | "preserve" => Ok((
            TableQuery::Update {
                collection: number,
                preserve: kind == "preserve",
                request: request_of(alloc, words)?,
            },
            TableAnswer::Updated {
                number,
                version: 2,
                portable: portable(),
            },
        )),
        "read" => read_of(alloc, number, words),
        "scan" => scan_of(alloc, number, words),
        _ => about_times(alloc, kind, number, words),
    }
}

fn read_of(
    alloc: Global,
    number: u64,
    words: &mut Words,
) -> Result<(TableQuery, TableAnswer), OutOfMemory> {
    let expiry = u32::try_from(words.number()).ok();
    Ok((
        TableQuery::Read {
            token: bytes_of(alloc, "alice")?,
            collection: number,
            version: None,
        },
        TableAnswer::Row {
            number,
            version: 1,
            expiry,
            want: 1,
            trash_at: None,
            text: manifest_of(alloc, words)?,
        },
    ))
}

fn scan_of(
    alloc: Global,
    round: u64,
    words: &mut Words,
) -> Result<(TableQuery, TableAnswer), OutOfMemory> {
    let after = words.number();
    let last = words.word() == "last";
    let rows = Items::of(rows_of(alloc, words)?);
    Ok((
        TableQuery::Scan {
            round,
            after,
            limit: 1000,
        },
        TableAnswer::Rows { rows, last },
    ))
}

// A row for each revision and text of the words.
fn rows_of(alloc: Global, words: &mut Words) -> Result<Vec<ScanRow>, OutOfMemory> {
    let mut rows = Vec::new(alloc);
    let mut revision = None;
    for word in words.rest.split_whitespace() {
        match revision {
            None => revision = Some(word.parse::<u64>().unwrap_or(0)),
            Some(number) => {
                let mut digests = Vec::new(alloc);
                digests.push(block_of(alloc, word)?.digest())?;
                rows.push(ScanRow {
                    revision: number,
                    digests: Items::of(digests),
                    want: 1,
                })?;
                revision = None;
            }
        }
    }
    Ok(rows)
}

fn about_times(
    alloc: Global,
    kind: &str,
    number: u64,
    words: &mut Words,
) -> Result<(TableQuery, TableAnswer), OutOfMemory> {
    let token = bytes_of(alloc, "alice")?;
    match kind {
        "trash" => {
            let delete_at = words.number();
            Ok((
                TableQuery::SetTrash {
                    token,
                    collection: number,
                    trash_at: 0,
                    delete_at,
                },
                TableAnswer::TrashSet {
                    trash_at: 0,
                    delete_at,
                },
            ))
        }
        "restore" => Ok((
            TableQuery::Restore {
                token,
                collection: number,
            },
            TableAnswer::Restored,
        )),
        _ => Ok((
            TableQuery::Sweep,
            TableAnswer::Swept {
                versions: 0,
                collections: 0,
            },
        )),
    }
}
