// Configurations, one a line: `ok`, or the first bad field. A line that begins with a letter changes the configuration of the settings `base FIELD VALUE` (of two
// with one field the last counts): `FIELD VALUE` gives a field this value, or adds it, and `FIELD` alone leaves it out. In a base's value `list N MEMBER` is a list of
// N members, where `#` stands for 15 digits of the member's number and `@` for that number modulo 64, and `repeat N PIECE` is a text of N pieces. A line that begins
// with `?` asks about the last configuration that was ok: `? token TEXT` the number of a token, `? text NUMBER` the text of one, `? devices SERVER` the devices of a
// server, `? device NUMBER` whether a device is read-only, and its capacity, `? addresses SERVER` how many a server has, `? cluster`, `? secret`, `? numbers` those of
// the other fields, `? threshold START`, `? trash_life`, `? guard` and `? grace` spans in nanoseconds.
use keep_casebook::{Answer, Case, OutOfMemory, Setting};
use keep_config::{Config, ConfigError, TokenId};
use std::alloc::Global;
use std::str::from_utf8;

pub fn answer(alloc: Global, case: &Case, answer: &mut Answer) {
    let mut last = None;
    for line in case.body().split(|byte| *byte == b'\n') {
        match line.strip_prefix(b"? ") {
            Some(question) => answer_question(alloc, last.as_ref(), question, answer),
            None => last = answer_line(alloc, case.settings(), line, answer),
        }
    }
}

fn answer_line(
    alloc: Global,
    settings: &[Setting],
    line: &[u8],
    answer: &mut Answer,
) -> Option<Config> {
    if !begins_with_letter(line) {
        return answer_text(alloc, line, answer);
    }
    match changed(alloc, settings, from_utf8(line).unwrap_or("")) {
        Ok(text) => answer_text(alloc, text.as_bytes(), answer),
        Err(_) => {
            answer.cut();
            None
        }
    }
}

fn begins_with_letter(line: &[u8]) -> bool {
    match line.first() {
        Some(byte) => byte.is_ascii_lowercase(),
        None => false,
    }
}

fn answer_text(alloc: Global, text: &[u8], answer: &mut Answer) -> Option<Config> {
    match Config::read(alloc, text) {
        Ok(config) => {
            answer.value(b"ok");
            Some(config)
        }
        Err(ConfigError::BadConfig { field }) => {
            answer.value(field.name().as_bytes());
            None
        }
        Err(ConfigError::NoMemory) => {
            answer.cut();
            None
        }
    }
}

fn answer_question(alloc: Global, last: Option<&Config>, question: &[u8], answer: &mut Answer) {
    let Some(config) = last else {
        return answer.value(b"no configuration");
    };
    let question = from_utf8(question).unwrap_or("");
    let (word, value) = question.split_once(' ').unwrap_or((question, ""));
    match word {
        "token" => answer_token(config.token(value.as_bytes()), answer),
        "text" => answer_token_text(config, value.parse::<u32>().unwrap_or(0), answer),
        "devices" => answer_devices(alloc, config, value.parse::<u32>().unwrap_or(0), answer),
        "device" => answer_device(config, value.parse::<u32>().unwrap_or(0), answer),
        "addresses" => answer_addresses(config, value.parse::<u32>().unwrap_or(0), answer),
        "cluster" => answer.text(config.cluster.as_slice()),
        "secret" => answer.text(config.secret.as_slice()),
        "numbers" => answer_numbers(config, answer),
        "guard" => answer.number(config.guard_nanos()),
        "threshold" => answer.number(config.threshold(value.parse::<u64>().unwrap_or(0))),
        "trash_life" => answer.number(config.trash_life_nanos()),
        _ => answer.number(config.grace_nanos()),
    }
    answer.end();
}

fn answer_token(token: Option<TokenId>, answer: &mut Answer) {
    match token {
        Some(token) => answer.number(u64::from(token.number)),
        None => answer.text(b"none"),
    }
}

fn answer_token_text(config: &Config, number: u32, answer: &mut Answer) {
    if number as usize <= config.tokens.as_slice().len() {
        answer.text(config.token_text(TokenId { number }));
    }
}

fn answer_devices(alloc: Global, config: &Config, server: u32, answer: &mut Answer) {
    match config.devices_of(alloc, server) {
        Ok(devices) => {
            for (i, device) in devices.iter().enumerate() {
                if i > 0 {
                    answer.text(b" ");
                }
                answer.number(u64::from(*device));
            }
        }
        Err(_) => answer.cut(),
    }
}

fn answer_device(config: &Config, number: u32, answer: &mut Answer) {
    match config.devices.as_slice().get(number as usize) {
        Some(device) => {
            answer.text(if device.read_only {
                "read-only "
            } else {
                "writable "
            }
            .as_bytes());
            answer.number(device.capacity);
        }
        None => answer.text(b"none"),
    }
}

fn answer_addresses(config: &Config, server: u32, answer: &mut Answer) {
    match config.servers.as_slice().get(server as usize) {
        Some(server) => answer.number(server.addresses.len() as u64),
        None => answer.text(b"none"),
    }
}

fn answer_numbers(config: &Config, answer: &mut Answer) {
    let numbers = [
        ("ttl ", config.ttl),
        (", skew ", config.skew),
        (", versions ", config.versions),
        (", trash_life ", config.trash_life),
        (", index_digits ", config.index_digits),
        (", scan_limit ", config.scan_limit),
    ];
    for (name, number) in &numbers {
        answer.text(name.as_bytes());
        answer.number(u64::from(*number));
    }
}

// The base's text with a change.
fn changed(alloc: Global, settings: &[Setting], change: &str) -> Result<String, OutOfMemory> {
    let (field, value) = change.split_once(' ').unwrap_or((change, ""));
    let mut text = String::from_str(alloc, "{")?;
    for (i, setting) in settings.iter().enumerate() {
        let (name, value) = setting.value.split_once(' ').unwrap_or(("", ""));
        let others = settings.get(i.saturating_add(1)..).unwrap_or(&[]);
        if name != field && !is_named(others, name) {
            add_member(alloc, &mut text, name, value)?;
        }
    }
    if !value.is_empty() {
        add_member(alloc, &mut text, field, value)?;
    }
    text.push_str("}")?;
    Ok(text)
}

fn is_named(settings: &[Setting], name: &str) -> bool {
    for setting in settings {
        if setting.value.split_once(' ').unwrap_or(("", "")).0 == name {
            return true;
        }
    }
    false
}

fn add_member(
    alloc: Global,
    text: &mut String,
    name: &str,
    value: &str,
) -> Result<(), OutOfMemory> {
    text.push_str(if text.len() == 1 { "\"" } else { ",\"" })?;
    text.push_str(name)?;
    text.push_str("\":")?;
    if let Some(rest) = value.strip_prefix("list ") {
        return add_list(alloc, text, rest);
    }
    if let Some(rest) = value.strip_prefix("repeat ") {
        return add_repeated(text, rest);
    }
    text.push_str(value)?;
    Ok(())
}

fn add_list(alloc: Global, text: &mut String, rest: &str) -> Result<(), OutOfMemory> {
    let (count, member) = rest.split_once(' ').unwrap_or((rest, ""));
    text.push_str("[")?;
    for i in 0..count.parse::<u32>().unwrap_or(0) {
        text.push_str(if i == 0 { "" } else { "," })?;
        for c in member.chars() {
            match c {
                '#' => text.push_str(format!(in alloc; "{i:015}")?.as_str())?,
                '@' => text.push_str(format!(in alloc; "{}", i % 64)?.as_str())?,
                _ => text.push(c)?,
            }
        }
    }
    text.push_str("]")?;
    Ok(())
}

fn add_repeated(text: &mut String, rest: &str) -> Result<(), OutOfMemory> {
    let (count, piece) = rest.split_once(' ').unwrap_or((rest, ""));
    text.push_str("\"")?;
    for _ in 0..count.parse::<u32>().unwrap_or(0) {
        text.push_str(piece)?;
    }
    text.push_str("\"")?;
    Ok(())
}
