//! The program: hands its words to the call that they name, and says on standard error why it ended otherwise than well.
#![tactic(auto)]

use keep_base::{ReaderSource, WriterSink};
use keep_run::run_call;
use keep_spec::{NoMemory, Status};
use keep_store::MemoryStore;
use std::alloc::Global;
use std::process::ExitCode;
use std::{env, io};

// How many devices a run can have.
const STORES: usize = 64;

// The words after the program's name. One that isn't UTF-8 is no word of a command.
fn words_of(rt: &HostRuntime) -> Result<Vec<String>, Status> {
    let args = match env::args(rt) {
        Ok(args) => args,
        Err(error) if error.kind() == io::ErrorKind::InvalidData => return Err(Status::BadWords),
        Err(_) => return Err(Status::NoMemory),
    };
    let mut words = Vec::new(rt.alloc());
    for word in args.skip(1) {
        if words.push(word).is_err() {
            return Err(Status::NoMemory);
        }
    }
    Ok(words)
}

fn empty_stores(alloc: Global) -> Result<Vec<MemoryStore>, NoMemory> {
    let mut stores = Vec::new(alloc);
    for _ in 0..STORES {
        let store = MemoryStore::new(alloc, Vec::new(alloc));
        if stores.push(store).is_err() {
            return Err(NoMemory);
        }
    }
    Ok(stores)
}

fn run(rt: &HostRuntime) -> Status {
    let alloc = rt.alloc();
    let words = match words_of(rt) {
        Ok(words) => words,
        Err(status) => return status,
    };
    let Ok(mut stores) = empty_stores(alloc) else {
        return Status::NoMemory;
    };
    let mut source = ReaderSource::new(rt.reader());
    let mut sink = WriterSink::new(io::writer(rt));
    run_call(alloc, words.as_slice(), &mut source, &mut sink, &mut stores)
}

fn main(rt: HostRuntime) -> ExitCode {
    let status = run(&rt);
    if status != Status::Done {
        let _ = eprintln!(rt; "keepd: {status}");
    }
    ExitCode::from(status.exit_status())
}
