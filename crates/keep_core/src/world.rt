// Both machines of a configuration, over plain lists.
ghost use Rattle.std.specs.Prelude.{◌≡◌, false, IsOk, IsTrue, IfOk, length};
ghost use Rattle.keep_spec.specs.Times.{IsReading};
ghost use Rattle.keep_event.specs.Port.{MayAsk};
ghost use Rattle.keep_event.specs.Table as tables;
ghost use Rattle.keep_event.specs.World as worlds;
ghost use Rattle.keep_core.specs.WorldLines.{IsLine, takes_memory};

use keep_config::Config;
use keep_event::{Answer, Query};
use keep_plain::PlainDevices;
use keep_plain_table::PlainTable;
use keep_spec::NoMemory;
use std::alloc::Global;
use std::marker::Model;

/// The devices of a configuration and its table of collections as the machines have them, over plain lists: no store, no index, and no call that fails but for want of memory. It is seen as the configuration, the states of the devices by their numbers, and the table.
/// It is there to compare clusters over stores with. With them it shares the types of keep_event, what looks up a configuration, and what tests a save's or an update's request; no code of a device, and none of a table.
#[derive(Drop)]
pub struct World<'a> {
    config: &'a Config,
    devices: PlainDevices,
    table: PlainTable,
}

impl<'a> Model for World<'a> {
    ghost use Rattle.std.specs.Prelude.{◌≡◌, length};
    ghost use Rattle.keep_event.specs.World as worlds;

    ghost Value = { worlds.World };

    ghost view = { λ w. record { config = w.config.now; devices = w.devices; table = w.table } };

    ghost invariant = { λ w. length w.devices ≡ length w.config.now.devices };
}

impl<'a> World<'a> {
    /// The world before anything was asked: each device of the configuration holds nothing, and the table is empty. NoMemory is the only error.
    pub fn new(alloc: Global, config: &'a Config) -> Result<World<'a>, NoMemory>
        ensures { IfOk result (λ w. w ≡ worlds.new_world config.now) }
    {
        Ok(World {
            config,
            devices: PlainDevices::new(alloc, config.devices.as_slice())?,
            table: PlainTable::new(alloc),
        })
    }

    /// Asks a device or the table at a reading of the clock, in nanoseconds since 1970, and returns its answer, which is never StoreFault.
    /// What may be asked is what a port may be asked: the device is one of the configuration, the time from which a SetTrash puts a collection into the trash is a reading, and the limit of a Scan isn't 0. NoMemory is the only error, and leaves the world as it was; only a device's write, fetch, accept and page, and the table's save, update, read and scan may want memory.
    pub fn step(&mut self, reading: u64, query: &Query) -> Result<Answer, NoMemory>
        requires room { IsTrue (tables.has_room self.old.table) }
        requires reading { IsReading reading }
        requires asked { MayAsk (length self.old.config.devices) query.now }
        ensures line { IsLine (worlds.line reading query.now self.old) self.old self.new result }
        ensures memory { takes_memory query.now ≡ false → IsOk result }
        ensures config { self.new.config ≡ self.old.config }
    {
        match query {
            Query::Device(device, query) => {
                let answer = self.devices.step(self.config, *device, reading, query)?;
                Ok(Answer::Device(answer))
            }
            Query::Table(query) => {
                let answer = self.table.step(self.config, reading, query)?;
                Ok(Answer::Table(answer))
            }
        }
    }

    /// Whether each counter of the table is below 10^15 − 1, as a step requires.
    pub fn has_room(&self) -> bool
        ensures { result ≡ tables.has_room self.now.table }
    {
        self.table.has_room()
    }
}
