// Script lines, each read by itself: its command, or `none`. The first line of the input is the configuration. Settings say what has become of names:
// `open NAME`, `ended NAME`, `located NAME LOCATOR`, `row NAME TEXT`. A command is written with its name and its reading, an opening with the kind and its
// fields in the order of the formats, an update's collection and `preserve` last: texts in quotes, bytes and digests as digits, a dash for one that isn't
// given.
use keep_casebook::{Answer, Case, OutOfMemory, Setting};
use keep_config::Config;
use keep_event::SaveRequest;
use keep_history::{Command, Opening, TaskState};
use keep_script::{CommandError, read_line};
use keep_spec::{Bytes, Digest};
use std::alloc::Global;
use std::collections::BTreeMap;

// What has become of names. Of an open task nothing is kept.
type Names = BTreeMap<Bytes, TaskState<()>>;

pub fn answer(alloc: Global, case: &Case, answer: &mut Answer) {
    let mut lines = case.body().split(|byte| *byte == b'\n');
    let Ok(config) = Config::read(alloc, lines.next().unwrap_or(b"")) else {
        return answer.value(b"no configuration");
    };
    let Ok(names) = names_of(alloc, case.settings()) else {
        return answer.cut();
    };
    for line in lines {
        match read_line(alloc, &config, &names, line) {
            Ok(command) => add_command(&command, answer),
            Err(CommandError::NotALine) => answer.value(b"none"),
            Err(CommandError::NoMemory) => answer.cut(),
        }
    }
}

fn names_of(alloc: Global, settings: &[Setting]) -> Result<Names, OutOfMemory> {
    let mut names = BTreeMap::new(alloc);
    for setting in settings {
        let (name, rest) = setting.value.split_once(' ').unwrap_or((setting.value, ""));
        let rest = Bytes::copy_of(alloc, rest.as_bytes())?;
        let state = match setting.key {
            "open" => TaskState::Open { task: () },
            "located" => TaskState::Located { locator: rest },
            "row" => TaskState::Row { text: rest },
            _ => TaskState::Ended,
        };
        names.insert(Bytes::copy_of(alloc, name.as_bytes())?, state)?;
    }
    Ok(names)
}

fn add_command(command: &Command, answer: &mut Answer) {
    match command {
        Command::Open {
            name,
            reading,
            opening,
        } => {
            add_head(b"open ", name, *reading, answer);
            add_opening(opening, answer);
        }
        Command::Step { name, reading } => add_head(b"step ", name, *reading, answer),
        Command::Finish { name, reading } => add_head(b"finish ", name, *reading, answer),
    }
    answer.end();
}

fn add_head(word: &[u8], name: &Bytes, reading: u64, answer: &mut Answer) {
    answer.text(word);
    answer.text(name.as_slice());
    add_number(reading, answer);
}

fn add_opening(opening: &Opening, answer: &mut Answer) {
    match opening {
        Opening::Put {
            token,
            server,
            bytes,
            digest,
        } => {
            add_block_request(b" put", token, *server, answer);
            answer.text(b" ");
            answer.hexadecimal(bytes.as_slice());
            add_digest(digest.as_ref(), answer);
        }
        Opening::Get {
            token,
            server,
            locator,
        } => {
            add_block_request(b" get", token, *server, answer);
            add_text(locator, answer);
        }
        Opening::Touch {
            token,
            server,
            locator,
        } => {
            add_block_request(b" touch", token, *server, answer);
            add_text(locator, answer);
        }
        Opening::Untrash {
            token,
            server,
            digest,
        } => {
            add_block_request(b" untrash", token, *server, answer);
            add_digest(Some(digest), answer);
        }
        _ => add_round_opening(opening, answer),
    }
}

fn add_round_opening(opening: &Opening, answer: &mut Answer) {
    match opening {
        Opening::Balance => answer.text(b" balance"),
        Opening::TrashWorker { device } => add_device(b" trash_worker", *device, answer),
        Opening::PullWorker { device } => add_device(b" pull_worker", *device, answer),
        Opening::EmptyWorker { device } => add_device(b" empty_worker", *device, answer),
        Opening::Restart { device } => add_device(b" restart", *device, answer),
        _ => add_table_opening(opening, answer),
    }
}

fn add_table_opening(opening: &Opening, answer: &mut Answer) {
    match opening {
        Opening::Save { request } => {
            answer.text(b" save");
            add_request(request, answer);
        }
        Opening::Update {
            collection,
            preserve,
            request,
        } => {
            answer.text(b" update");
            add_request(request, answer);
            add_text(collection, answer);
            answer.text(if *preserve { b" true" } else { b" false" });
        }
        Opening::Read {
            token,
            collection,
            version,
        } => {
            add_table_request(b" read", token, collection, answer);
            match version {
                Some(version) => add_number(*version, answer),
                None => answer.text(b" -"),
            }
        }
        Opening::Trash {
            token,
            collection,
            trash_at,
            delete_at,
        } => {
            add_table_request(b" trash", token, collection, answer);
            add_number(*trash_at, answer);
            add_number(*delete_at, answer);
        }
        Opening::Restore { token, collection } => {
            add_table_request(b" restore", token, collection, answer);
        }
        _ => answer.text(b" sweep"),
    }
}

fn add_device(kind: &[u8], device: u32, answer: &mut Answer) {
    answer.text(kind);
    add_number(u64::from(device), answer);
}

fn add_block_request(kind: &[u8], token: &Bytes, server: u32, answer: &mut Answer) {
    answer.text(kind);
    add_text(token, answer);
    add_number(u64::from(server), answer);
}

fn add_table_request(kind: &[u8], token: &Bytes, collection: &Bytes, answer: &mut Answer) {
    answer.text(kind);
    add_text(token, answer);
    add_text(collection, answer);
}

fn add_request(request: &SaveRequest, answer: &mut Answer) {
    add_text(&request.token, answer);
    add_text(&request.text, answer);
    add_number(request.want, answer);
    match &request.portable {
        Some(portable) => add_text(portable, answer),
        None => answer.text(b" -"),
    }
}

fn add_text(text: &Bytes, answer: &mut Answer) {
    answer.text(b" \"");
    answer.text(text.as_slice());
    answer.text(b"\"");
}

fn add_number(number: u64, answer: &mut Answer) {
    answer.text(b" ");
    answer.number(number);
}

fn add_digest(digest: Option<&Digest>, answer: &mut Answer) {
    answer.text(b" ");
    match digest {
        Some(digest) => answer.text(&digest.write()),
        None => answer.text(b"-"),
    }
}
