// Plans of a round: the setting `config` is a configuration, `started` the reading at which the round began. Each line of the input is `page DEVICE` and any
// number of entries `DIGEST+SIZE+MTIME`, or `row WANT` and any number of digests, which is a scan by itself, or `scan more` or `scan last` and any number of
// revisions of rows without digests. The answer has what each such scan was answered, each device's items, device by device, and then the lost digests.
use keep_casebook::{Answer, Case, OutOfMemory};
use keep_config::Config;
use keep_event::{Entry, Lists, ScanRow};
use keep_gather::{Gather, Scanned};
use keep_plan::Plan;
use keep_spec::{Digest, Items};
use std::alloc::Global;
use std::str::from_utf8;

pub fn answer(alloc: Global, case: &Case, answer: &mut Answer) {
    let Ok(config) = Config::read(alloc, case.value("config").unwrap_or("").as_bytes()) else {
        return answer.value(b"no configuration");
    };
    if answer_plan(alloc, case, &config, answer).is_err() {
        answer.cut();
    }
}

fn answer_plan(
    alloc: Global,
    case: &Case,
    config: &Config,
    answer: &mut Answer,
) -> Result<(), OutOfMemory> {
    let mut gather = Gather::new(alloc, 1, case.number("started", 0));
    for line in case.body().split(|byte| *byte == b'\n') {
        take_line(alloc, &mut gather, from_utf8(line).unwrap_or(""), answer)?;
    }
    let plan = Plan::of(alloc, &gather, config)?;
    for (device, lists) in plan.lists.iter().enumerate() {
        answer_lists(device as u64, lists, answer);
    }
    for digest in &plan.lost {
        answer.text(b"lost ");
        answer.text(&digest.write());
        answer.end();
    }
    Ok(())
}

fn take_line(
    alloc: Global,
    gather: &mut Gather,
    line: &str,
    answer: &mut Answer,
) -> Result<(), OutOfMemory> {
    let (kind, rest) = line.split_once(' ').unwrap_or((line, ""));
    let (number, rest) = rest.split_once(' ').unwrap_or((rest, ""));
    match kind {
        "page" => {
            let device = number.parse::<u32>().unwrap_or(u32::MAX);
            gather.take_page(device, entries_of(alloc, rest)?)?;
        }
        "row" => take_row(alloc, gather, number.parse::<u8>().unwrap_or(0), rest)?,
        "scan" => take_scan(alloc, gather, number == "last", rest, answer)?,
        _ => {}
    }
    Ok(())
}

fn take_scan(
    alloc: Global,
    gather: &mut Gather,
    last: bool,
    text: &str,
    answer: &mut Answer,
) -> Result<(), OutOfMemory> {
    let mut rows = Vec::new(alloc);
    for word in text.split_whitespace() {
        rows.push(ScanRow {
            revision: word.parse::<u64>().unwrap_or(0),
            digests: Items::of(Vec::new(alloc)),
            want: 1,
        })?;
    }
    if gather.scanned() {
        answer.value(b"no scan is taken");
        return Ok(());
    }
    match gather.take_scan(rows, last)? {
        Scanned::More { after } => {
            answer.text(b"more after ");
            answer.number(after);
            answer.end();
        }
        Scanned::Complete => answer.value(b"complete"),
    }
    Ok(())
}

fn entries_of(alloc: Global, text: &str) -> Result<Vec<Entry>, OutOfMemory> {
    let mut entries = Vec::new(alloc);
    for word in text.split_whitespace() {
        if let Some(entry) = entry_of(word) {
            entries.push(entry)?;
        }
    }
    Ok(entries)
}

fn entry_of(word: &str) -> Option<Entry> {
    let (digits, rest) = word.split_once('+')?;
    let (size, mtime) = rest.split_once('+')?;
    Some(Entry {
        digest: Digest::read(digits.as_bytes())?,
        size: size.parse::<u64>().ok()?,
        mtime: mtime.parse::<u64>().ok()?,
    })
}

fn take_row(alloc: Global, gather: &mut Gather, want: u8, text: &str) -> Result<(), OutOfMemory> {
    let mut digests = Vec::new(alloc);
    for word in text.split_whitespace() {
        if let Some(digest) = Digest::read(word.as_bytes()) {
            digests.push(digest)?;
        }
    }
    let mut rows = Vec::new(alloc);
    rows.push(ScanRow {
        revision: 1,
        digests: Items::of(digests),
        want,
    })?;
    if !gather.scanned() {
        gather.take_scan(rows, false)?;
    }
    Ok(())
}

fn answer_lists(device: u64, lists: &Lists, answer: &mut Answer) {
    for item in lists.trash.as_slice() {
        answer_head(device, b" trash ", &item.digest, item.size, answer);
        answer.text(b" ");
        answer.number(item.mtime);
        answer.end();
    }
    for item in lists.pull.as_slice() {
        answer_head(device, b" pull ", &item.digest, item.size, answer);
        answer.text(b" from");
        for source in item.sources.as_slice() {
            answer.text(b" ");
            answer.number(*source as u64);
        }
        answer.end();
    }
}

fn answer_head(device: u64, kind: &[u8], digest: &Digest, size: u64, answer: &mut Answer) {
    answer.text(b"d");
    answer.number(device);
    answer.text(kind);
    answer.text(&digest.write());
    answer.text(b" ");
    answer.number(size);
}
