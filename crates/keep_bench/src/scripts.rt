// Script lines: the whole reading of one, and each step of it by itself.
ghost use Rattle.std.specs.Prelude.{◌≤◌};

use crate::print_line;
use anyhow::Result;
use keep_base::{Lines, ReaderSource};
use keep_config::Config;
use keep_config::json::value_of;
use keep_history::TaskState;
use keep_script::read_line;
use keep_spec::{Bytes, is_lower_digit};
use std::collections::BTreeMap;

/// Reads the first line as a configuration, and each further one as a line of a script that has opened nothing yet.
pub fn read_script(rt: &HostRuntime, input: &[u8]) -> Result<()> {
    let mut lines = input.split(|byte| *byte == b'\n');
    let Ok(config) = Config::read(rt.alloc(), lines.next().unwrap_or(b"")) else {
        return print_line(rt, "no configuration");
    };
    let names: BTreeMap<Bytes, TaskState<()>> = BTreeMap::new(rt.alloc());
    let mut commands: u64 = 0;
    for line in lines {
        if read_line(rt.alloc(), &config, &names, line).is_ok() {
            commands = commands.saturating_add(1);
        }
    }
    println!(rt; "{commands} commands")?;
    Ok(())
}

/// Says how long the input is, which was read in already: what each task takes for that alone.
pub fn measure_input(rt: &HostRuntime, input: &[u8]) -> Result<()> {
    let size = input.len();
    println!(rt; "{size} bytes")?;
    Ok(())
}

/// Finds the lines of the input where they stand. What each other step takes beyond this is its own.
pub fn split_lines(rt: &HostRuntime, input: &[u8]) -> Result<()> {
    let mut count: u64 = 0;
    let mut bytes: u64 = 0;
    for line in input.split(|byte| *byte == b'\n') {
        count = count.saturating_add(1);
        bytes = bytes.saturating_add(line.len() as u64);
    }
    println!(rt; "{count} lines, {bytes} bytes")?;
    Ok(())
}

/// Reads the input through a reader of lines, which copies it into its buffer and lends each line.
pub fn lend_lines(rt: &HostRuntime, input: &[u8]) -> Result<()> {
    let mut source = ReaderSource::new(input);
    let mut lines = Lines::new(rt.alloc(), &mut source);
    let mut count: u64 = 0;
    let mut bytes: u64 = 0;
    for _ in 0..u64::MAX {
        match lines.next() {
            Ok(Some(_)) => {
                count = count.saturating_add(1);
                bytes = bytes.saturating_add(lines.text().len() as u64);
            }
            _ => break,
        }
    }
    println!(rt; "{count} lines, {bytes} bytes")?;
    Ok(())
}

/// Parses each line as JSON, as a script line is parsed.
pub fn parse_lines(rt: &HostRuntime, input: &[u8]) -> Result<()> {
    let mut values: u64 = 0;
    for line in input.split(|byte| *byte == b'\n') {
        if let Ok(Some(_)) = value_of(rt.alloc(), line) {
            values = values.saturating_add(1);
        }
    }
    println!(rt; "{values} values")?;
    Ok(())
}

/// Tests and decodes the digits of each line, as those of a put are.
pub fn decode_lines(rt: &HostRuntime, input: &[u8]) -> Result<()> {
    let mut bytes: u64 = 0;
    for line in input.split(|byte| *byte == b'\n') {
        if !line.iter().all(|digit| is_lower_digit(*digit)) {
            continue;
        }
        if let Ok(decoded) = hex::decode(rt.alloc(), line) {
            bytes = bytes.saturating_add(decoded.len() as u64);
        }
    }
    println!(rt; "{bytes} bytes")?;
    Ok(())
}
