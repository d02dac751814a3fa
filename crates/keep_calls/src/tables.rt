// The table of collections: the first line of the input is a configuration, and each further one a reading and a query: `round`, `sweep`,
// `scan ROUND AFTER LIMIT`, `save TOKEN WANT PORTABLE TEXT`, `update TOKEN NUMBER preserve|- WANT PORTABLE TEXT`, `read TOKEN NUMBER VERSION`,
// `trash TOKEN NUMBER TRASH_AT DELETE_AT` or `restore TOKEN NUMBER`. A line `wanted DIGEST` asks how many copies are wanted of a digest. A portable hash may be `-`, a version may be left out; a text is the rest of the line and a
// newline, or nothing. The answer is the printed line of each event, with what that line doesn't say.
ghost use Rattle.std.specs.Prelude.{◌≡◌, IfOk, IfSome};
ghost use Rattle.keep_event.specs.Requests.{MayAskTable, rules_of as table_rules_of};

use keep_casebook::{Answer, Case, OutOfMemory};
use keep_collections::{SaveRequest, Table, TableAnswer, TableQuery, rules_of};
use keep_config::Config;
use keep_event::ScanRow;
use keep_script::push_table_event_line;
use keep_spec::{Bytes, Digest};
use std::alloc::Global;
use std::str::from_utf8;

const READING_MAX: u64 = 3_999_999_999_999_999_999;

// A table by the rules of its configuration.
#[derive(Drop)]
struct Desk {
    config: Config,
    table: Table,
    ghost ruled: { table.rules ≡ table_rules_of config },
}

pub fn answer(alloc: Global, case: &Case, answer: &mut Answer) {
    let mut lines = case.body().split(|byte| *byte == b'\n');
    let first = lines.next().unwrap_or(b"");
    let Ok(config) = Config::read(alloc, first) else {
        return answer.value(b"no configuration");
    };
    let table = Table::new(alloc, rules_of(&config));
    let mut desk = Desk { config, table };
    for line in lines {
        let line = from_utf8(line).unwrap_or("");
        if let Some(digest) = line.strip_prefix("wanted ") {
            desk.answer_wanted(digest, answer);
            continue;
        }
        match desk.ask(alloc, line) {
            Ok(Some(reply)) => answer_event(alloc, &reply, answer),
            Ok(None) => answer.value(b"no query"),
            Err(_) => answer.cut(),
        }
    }
}

impl Desk {
    // What is answered to a line's query.
    fn ask(&mut self, alloc: Global, line: &str) -> Result<Option<TableAnswer>, OutOfMemory> {
        if !self.table.has_room() {
            return Ok(None);
        }
        let (reading, asked) = line.split_once(' ').unwrap_or((line, ""));
        let reading = reading.parse::<u64>().unwrap_or(0).min(READING_MAX);
        let Some(query) = query_of(alloc, asked)? else {
            return Ok(None);
        };
        let reply = keep_collections::answer(
            alloc,
            &mut self.table,
            &self.config,
            reading,
            &query,
        )?;
        Ok(Some(reply))
    }

    // How many copies are wanted of a digest.
    fn answer_wanted(&self, text: &str, answer: &mut Answer) {
        let Some(digest) = Digest::read(text.as_bytes()) else {
            return answer.value(b"no digest");
        };
        answer.text(b"wanted ");
        answer.number(u64::from(self.table.wanted(&digest)));
        answer.note();
    }
}

// The words of a query, and the rest.
#[derive(Drop)]
struct Words<'a> {
    rest: &'a str,
}

impl<'a> Words<'a> {
    fn word(&mut self) -> &'a str {
        let (word, rest) = self.rest.split_once(' ').unwrap_or((self.rest, ""));
        self.rest = rest;
        word
    }

    fn number(&mut self) -> u64 {
        self.word().parse::<u64>().unwrap_or(0)
    }

    fn bytes(&mut self, alloc: Global) -> Result<Bytes, OutOfMemory> {
        Ok(Bytes::of(Vec::from_slice(alloc, self.word().as_bytes())?))
    }
}

/// The query of a line.
pub fn query_of(alloc: Global, asked: &str) -> Result<Option<TableQuery>, OutOfMemory>
    ensures { IfOk result (λ o. IfSome o MayAskTable) }
{
    let mut words = Words { rest: asked };
    match words.word() {
        "round" => Ok(Some(TableQuery::BeginRound)),
        "sweep" => Ok(Some(TableQuery::Sweep)),
        "scan" => {
            let (round, after) = (words.number(), words.number());
            let limit = u32::try_from(words.number()).unwrap_or(1).max(1);
            Ok(Some(TableQuery::Scan {
                round,
                after,
                limit,
            }))
        }
        "save" => {
            let token = words.bytes(alloc)?;
            let request = request_of(alloc, &mut words, token)?;
            Ok(Some(TableQuery::Save { request }))
        }
        "update" => {
            let token = words.bytes(alloc)?;
            let collection = words.number();
            let preserve = words.word() == "preserve";
            let request = request_of(alloc, &mut words, token)?;
            Ok(Some(TableQuery::Update {
                collection,
                preserve,
                request,
            }))
        }
        kind => query_about(alloc, kind, &mut words),
    }
}

fn request_of(alloc: Global, words: &mut Words, token: Bytes) -> Result<SaveRequest, OutOfMemory> {
    let want = words.number();
    let portable = match words.word() {
        "-" => None,
        word => Some(Bytes::of(Vec::from_slice(alloc, word.as_bytes())?)),
    };
    let mut text = Vec::from_slice(alloc, words.rest.as_bytes())?;
    if !text.is_empty() {
        text.push(b'\n')?;
    }
    Ok(SaveRequest {
        token,
        text: Bytes::of(text),
        want,
        portable,
    })
}

// The queries that name a collection and store no record.
fn query_about(
    alloc: Global,
    kind: &str,
    words: &mut Words,
) -> Result<Option<TableQuery>, OutOfMemory>
    ensures { IfOk result (λ o. IfSome o MayAskTable) }
{
    let token = words.bytes(alloc)?;
    let collection = words.number();
    match kind {
        "read" => {
            let version = words.word().parse::<u64>().ok();
            Ok(Some(TableQuery::Read {
                token,
                collection,
                version,
            }))
        }
        "trash" => {
            let trash_at = words.number().min(READING_MAX);
            let delete_at = words.number();
            Ok(Some(TableQuery::SetTrash {
                token,
                collection,
                trash_at,
                delete_at,
            }))
        }
        "restore" => Ok(Some(TableQuery::Restore { token, collection })),
        _ => Ok(None),
    }
}

/// The printed line of an event of the table, and what it leaves out.
pub fn answer_event(alloc: Global, reply: &TableAnswer, answer: &mut Answer) {
    let mut line = Vec::new(alloc);
    if push_table_event_line(&mut line, b"q", reply).is_err() {
        return answer.cut();
    }
    answer.output(&line);
    match reply {
        TableAnswer::Row {
            want,
            trash_at,
            text,
            ..
        } => {
            answer.text(b"want ");
            answer.number(u64::from(*want));
            if let Some(at) = trash_at {
                answer.text(b", trashed at ");
                answer.number(*at);
            }
            answer.note();
            answer.output(text.as_slice());
        }
        TableAnswer::Rows { rows, .. } => {
            for row in rows.as_slice() {
                answer_row(row, answer);
            }
        }
        _ => {}
    }
}

fn answer_row(row: &ScanRow, answer: &mut Answer) {
    answer.text(b"revision ");
    answer.number(row.revision);
    answer.text(b", want ");
    answer.number(u64::from(row.want));
    answer.note();
    for digest in row.digests.as_slice() {
        answer.text(b"names ");
        answer.text(&digest.write());
        answer.note();
    }
}
