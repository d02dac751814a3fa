// Runs. `runs`: the input is a configuration and script lines. The answer is what is printed, then the exit status and its words, and then what the stores hold.
// `commands`: the input is a configuration and script lines, an empty line, and lines that are tried one by one, each as the next line of that script. The answer is
// what the line prints, and `taken`, or `refused` where it is no script line.
// Settings: `words` (`run` where there is none), `stores` (how many, 1), `held NUMBER ..` (what the store with this number holds before), `note NUMBER ROUND`,
// `store_fails`, `source_fails`, `sink_fails` (the numbers of the calls that fail, of each store), `fails NUMBER ..` (those of one store).
use crate::statuses::add_status;
use keep_base::{ByteSink, ByteSource};
use keep_casebook::{Answer, Case, OutOfMemory, answer_store, numbers_of, put_held};
use keep_run::run_call;
use keep_spec::{Bytes, Status};
use keep_store::{MemoryStore, Store};
use std::alloc::Global;

// A run that has ended.
#[derive(Drop)]
struct Ran {
    status: Status,
    sink: ByteSink,
    stores: Vec<MemoryStore>,
}

pub fn answer(alloc: Global, case: &Case, answer: &mut Answer) {
    let Ok(ran) = run(alloc, case, case.input(), b"") else {
        return answer.cut();
    };
    answer.output(ran.sink.bytes());
    add_status(alloc, ran.status, answer);
    answer.note();
    let mut number: u64 = 0;
    for mut store in ran.stores {
        answer_store(number, &mut store, answer);
        number = number.saturating_add(1);
    }
}

pub fn answer_commands(alloc: Global, case: &Case, answer: &mut Answer) {
    let (before, lines) = split_at_empty_line(case.body());
    let Ok(ran) = run(alloc, case, before, b"") else {
        return answer.cut();
    };
    let printed = ran.sink.bytes().len();
    for line in lines.split(|byte| *byte == b'\n') {
        match run(alloc, case, before, line) {
            Ok(ran) => {
                answer.output(ran.sink.bytes().get(printed..).unwrap_or(b""));
                let is_taken = ran.status == Status::Done;
                answer.text(if is_taken { "taken" } else { "refused" }.as_bytes());
                answer.end();
            }
            Err(_) => answer.cut(),
        }
    }
}

// The lines before the first empty line, and those after it.
fn split_at_empty_line(text: &[u8]) -> (&[u8], &[u8]) {
    for (at, pair) in text.windows(2).enumerate() {
        if pair == b"\n\n".as_slice() {
            let before = text.get(..at.saturating_add(1)).unwrap_or(b"");
            return (before, text.get(at.saturating_add(2)..).unwrap_or(b""));
        }
    }
    (text, b"")
}

fn run(alloc: Global, case: &Case, before: &[u8], line: &[u8]) -> Result<Ran, OutOfMemory> {
    let words = words_of(alloc, case)?;
    let mut input = Vec::from_slice(alloc, before)?;
    input.extend_from_slice(line)?;
    let source_fails = numbers_of(alloc, case.value("source_fails").unwrap_or(""))?;
    let sink_fails = numbers_of(alloc, case.value("sink_fails").unwrap_or(""))?;
    let mut stores = stores_of(alloc, case)?;
    let mut source = ByteSource::new(Bytes::of(input), source_fails);
    let mut sink = ByteSink::new(alloc, sink_fails);
    let status = run_call(alloc, words.as_slice(), &mut source, &mut sink, &mut stores);
    Ok(Ran {
        status,
        sink,
        stores,
    })
}

fn words_of(alloc: Global, case: &Case) -> Result<Vec<String>, OutOfMemory> {
    let mut words = Vec::new(alloc);
    for word in case.value("words").unwrap_or("run").split_whitespace() {
        words.push(String::from_str(alloc, word)?)?;
    }
    Ok(words)
}

// The stores, with what the case says that they hold.
fn stores_of(alloc: Global, case: &Case) -> Result<Vec<MemoryStore>, OutOfMemory> {
    let mut stores = Vec::new(alloc);
    for number in 0..case.number("stores", 1).min(64) {
        let fails = numbers_of(alloc, fails_of(case, number))?;
        stores.push(MemoryStore::new(alloc, fails))?;
    }
    for setting in case.settings() {
        let (number, rest) = setting.value.split_once(' ').unwrap_or(("", ""));
        let number = number.parse::<usize>().unwrap_or(usize::MAX);
        if let Some(store) = stores.get_mut(number) {
            prepare(alloc, store, setting.key, rest)?;
        }
    }
    Ok(stores)
}

// The calls of the store of a number that fail: its own, or those of every store.
fn fails_of<'a>(case: &Case<'a>, number: u64) -> &'a str {
    for setting in case.settings() {
        let (store, calls) = setting.value.split_once(' ').unwrap_or(("", ""));
        if setting.key == "fails" && store.parse::<u64>() == Ok(number) {
            return calls;
        }
    }
    case.value("store_fails").unwrap_or("")
}

// Does to a store what a setting says.
fn prepare(
    alloc: Global,
    store: &mut MemoryStore,
    key: &str,
    value: &str,
) -> Result<(), OutOfMemory> {
    if key == "held" {
        put_held(alloc, store, value)?;
    } else if key == "note" {
        let _ = store.set_note(value.parse::<u64>().unwrap_or(0));
    }
    Ok(())
}
