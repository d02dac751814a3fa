// Both machines of a configuration, stepped as a world: the first line of the input is a configuration, and each further one `dNUMBER`, a reading and a query as in
// `devices`, or a reading and a query as in `tables`. The answer is the printed line of each event, with what that line doesn't say.
ghost use Rattle.std.specs.Prelude.{◌≡◌};
ghost use Rattle.keep_spec.specs.Times.{IsReading};

use crate::{devices, tables};
use keep_casebook::{Answer, Case, OutOfMemory};
use keep_config::Config;
use keep_core::World;
use keep_event::{Answer as Reply, Query};
use std::alloc::Global;
use std::str::from_utf8;

const READING_MAX: u64 = 3_999_999_999_999_999_999;

// A world of a configuration.
#[derive(Drop)]
struct Desk<'a> {
    config: &'a Config,
    world: World<'a>,
    ghost same: { world.config ≡ config.now },
}

pub fn answer(alloc: Global, case: &Case, answer: &mut Answer) {
    let mut lines = case.body().split(|byte| *byte == b'\n');
    let first = lines.next().unwrap_or(b"");
    let Ok(config) = Config::read(alloc, first) else {
        return answer.value(b"no configuration");
    };
    let Ok(world) = World::new(alloc, &config) else {
        return answer.cut();
    };
    let mut desk = Desk {
        config: &config,
        world,
    };
    for line in lines {
        let line = from_utf8(line).unwrap_or("");
        if desk.ask(alloc, line, answer).is_err() {
            answer.cut();
        }
    }
}

fn reading_of(word: &str) -> u64
    ensures { IsReading result }
{
    word.parse::<u64>().unwrap_or(0).min(READING_MAX)
}

impl<'a> Desk<'a> {
    // What is answered to a line.
    fn ask(&mut self, alloc: Global, line: &str, answer: &mut Answer) -> Result<(), OutOfMemory> {
        let (place, asked) = line.split_once(' ').unwrap_or((line, ""));
        match place.strip_prefix("d") {
            Some(number) => {
                let device = number.parse::<u32>().unwrap_or(u32::MAX);
                self.ask_device(alloc, device, asked, answer)
            }
            None => self.ask_table(alloc, place, asked, answer),
        }
    }

    fn ask_device(
        &mut self,
        alloc: Global,
        device: u32,
        asked: &str,
        answer: &mut Answer,
    ) -> Result<(), OutOfMemory> {
        let config = self.config;
        if !self.world.has_room() || device as usize >= config.devices.len() {
            answer.value(b"no room, or no such device");
            return Ok(());
        }
        let mut words = Vec::new(alloc);
        for word in asked.split_whitespace() {
            words.push(word)?;
        }
        let reading = reading_of(words.first().copied().unwrap_or(""));
        let Some(query) = devices::query_of(alloc, &words)? else {
            answer.value(b"no query");
            return Ok(());
        };
        if let Reply::Device(reply) = self.world.step(reading, &Query::Device(device, query))? {
            devices::answer_event(alloc, device, &reply, answer)?;
        }
        Ok(())
    }

    fn ask_table(
        &mut self,
        alloc: Global,
        reading: &str,
        asked: &str,
        answer: &mut Answer,
    ) -> Result<(), OutOfMemory> {
        if !self.world.has_room() {
            answer.value(b"no room");
            return Ok(());
        }
        let Some(query) = tables::query_of(alloc, asked)? else {
            answer.value(b"no query");
            return Ok(());
        };
        if let Reply::Table(reply) = self.world.step(reading_of(reading), &Query::Table(query))? {
            tables::answer_event(alloc, &reply, answer);
        }
        Ok(())
    }
}
