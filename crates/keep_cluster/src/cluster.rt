// The devices and the table of a configuration, as one port.
ghost use Rattle.std.specs.Prelude.{◌≡◌, ◌<◌, ◌+◌, length};
ghost use Rattle.keep_event.specs.Port.{most_events};
ghost use Rattle.keep_event.specs.World as world;

use crate::asking::ask_device;
use keep_collections::{Table, answer, rules_of};
use keep_config::Config;
use keep_event::{Answer, DeviceRules, Port, PortError, Query, Reply};
use keep_spec::NoMemory;
use keep_store::Store;
use keep_volume::Volume;
use std::alloc::Global;
use std::marker::Model;

// 2^40
const MOST_EVENTS: u64 = 1_099_511_627_776;

/// Returns the rules of a device of the configuration, by its number.
pub fn device_rules(config: &Config, device: u32) -> DeviceRules
    requires { device < length config.now.devices }
    ensures { result ≡ world.device_rules config.now device }
{
    let device = config.device(device);
    DeviceRules {
        capacity: device.capacity,
        read_only: device.read_only,
        ttl: config.ttl,
        skew: config.skew,
        trash_life: config.trash_life,
    }
}

/// The devices of a configuration and its table of collections, as a port. Ticks count the events from 0, and the reading is the one that was set last.
/// It keeps no events, never fails, and returns Spent exactly where 2^40 events were made.
#[derive(Drop)]
pub struct Cluster<'a, S: Store> {
    config: &'a Config,
    volumes: Vec<Volume<S>>,
    table: Table,
    reading: u64,
    made: u64,
    spent: u64,
    alloc: Global,
}

impl<'a, S: Store> Model for Cluster<'a, S> {
    ghost use Rattle.keep_cluster.specs.Cluster.{View, IsSound};

    ghost Value = { View };

    ghost view = { λ c. record { config = c.config.now; devices = c.volumes.items; table = c.table; reading = c.reading; made = c.made; spent = c.spent } };

    ghost invariant = { λ c. IsSound (record { config = c.config.now; devices = c.volumes.items; table = c.table; reading = c.reading; made = c.made; spent = c.spent }) };
}

impl<'a, S: Store> Cluster<'a, S> {
    ghost use Rattle.keep_spec.specs.Times.{IsReading};
    ghost use Rattle.keep_event.specs.Requests as requests;
    ghost use Rattle.keep_event.specs.Table as tables;
    ghost use Rattle.keep_cluster.specs.Cluster.{HasDevices, View};

    /// A cluster of these devices, one for each of the configuration, in their order and with its rules. The table is empty, no events were made, and the reading is 0. Takes no memory.
    pub fn new(alloc: Global, config: &'a Config, volumes: Vec<Volume<S>>) -> Cluster<'a, S>
        requires { HasDevices config.now volumes.items }
        ensures { result ≡ record { config = config.now; devices = volumes.items; table = record { rules = requests.rules_of config.now; state = tables.empty }; reading = 0; made = 0; spent = 0 } }
    {
        Cluster {
            config,
            volumes,
            table: Table::new(alloc, rules_of(config)),
            reading: 0,
            made: 0,
            spent: 0,
            alloc,
        }
    }

    /// Sets the reading of the events to come, in nanoseconds since 1970. Nothing else changes.
    pub fn set_reading(&mut self, reading: u64)
        requires { IsReading reading }
        ensures { self.new ≡ record self.old { reading = reading } }
    {
        self.reading = reading;
    }

    /// Returns how many events were made.
    pub fn events(&self) -> u64
        ensures { result ≡ self.now.made }
    {
        self.made
    }

    /// Returns the devices, in the order of the configuration. The table is let go.
    pub fn into_volumes(self) -> Vec<Volume<S>>
        ensures devices { result.items ≡ self.entry.devices }
        ensures rules { HasDevices self.entry.config result.items }
    {
        let Cluster {
            config: _,
            volumes,
            table: _,
            reading: _,
            made: _,
            spent: _,
            alloc: _,
        } = self;
        volumes
    }
}

impl<'a, S: Store> Port for Cluster<'a, S> {
    ghost use Rattle.std.specs.Prelude.{None, Some};
    ghost use Rattle.keep_cluster.specs.Cluster.{world_of, stamp_of, faults_at};

    ghost told = { λ c. None };

    ghost world = { λ c. world_of c };

    ghost stamp = { λ c. Some (stamp_of c) };

    ghost faults = { λ c. 0 };

    ghost spent = { λ c. c.spent };

    ghost store_faults = { λ c. faults_at c.devices };

    ghost devices = { λ c. length c.config.devices };

    fn ask(&mut self, _actor: u32, query: &Query) -> Result<Reply, PortError> {
        if self.made == MOST_EVENTS {
            self.spent = self.spent.saturating_add(1);
            return Err(PortError::Spent { drawn: MOST_EVENTS });
        }
        match query {
            Query::Device(device, query) => {
                match ask_device(&mut self.volumes, *device, self.reading, query) {
                    Ok(answer) => Ok(reply(&mut self.made, self.reading, Answer::Device(answer))),
                    Err(NoMemory) => Err(PortError::NoMemory),
                }
            }
            Query::Table(query) => match answer(
                self.alloc,
                &mut self.table,
                self.config,
                self.reading,
                query,
            ) {
                Ok(answer) => Ok(reply(&mut self.made, self.reading, Answer::Table(answer))),
                Err(NoMemory) => Err(PortError::NoMemory),
            },
        }
    }
}

// The reply of the next event, which draws its number.
fn reply(made: &mut u64, reading: u64, answer: Answer) -> Reply
    requires { made.old < most_events }
    ensures reply { result ≡ record { tick = made.old; reading = reading; answer = answer } }
    ensures drawn { made.new ≡ made.old + 1 }
{
    let tick = *made;
    *made += 1;
    Reply {
        tick,
        reading,
        answer,
    }
}
