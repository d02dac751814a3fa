// The devices of a configuration, each over a plain list.
ghost use Rattle.std.specs.Prelude.{◌≡◌, ◌<◌, false, IsOk, IfOk, length, map, slice_index_or};
ghost use Rattle.keep_spec.specs.Times.{IsReading};
ghost use Rattle.keep_event.specs.Device as machine;
ghost use Rattle.keep_event.specs.World as worlds;
ghost use Rattle.keep_plain.specs.Lines.{IsLineOf, takes_memory};

use crate::PlainDevice;
use keep_config::Config;
use keep_event::{DeviceAnswer, DeviceQuery, DeviceRules};
use keep_spec::{Device, NoMemory};
use std::alloc::Global;
use std::marker::Model;

/// The devices of a configuration by their numbers, each over a plain list. They are seen as the states of all.
#[derive(Drop, Debug)]
pub struct PlainDevices {
    devices: Vec<PlainDevice>,
}

impl Model for PlainDevices {
    ghost use Rattle.std.specs.Prelude.{List};
    ghost use Rattle.keep_event.specs.Device.{State};

    ghost Value = { List State };

    ghost view = { λ d. d.devices.items };
}

impl PlainDevices {
    /// A device that holds nothing for each of these. `NoMemory` is the only error.
    pub fn new(alloc: Global, devices: &[Device]) -> Result<PlainDevices, NoMemory>
        ensures { IfOk result (λ d. d ≡ map (λ x. machine.initial) devices.now) }
    {
        let mut empty = Vec::with_capacity(alloc, devices.len())?;
        for _ in devices {
            if empty.push(PlainDevice::new(alloc)).is_err() {
                return Err(NoMemory);
            }
        }
        Ok(PlainDevices { devices: empty })
    }

    /// Asks the device of a number, by the rules that the configuration has for it, at a reading in nanoseconds since 1970. The others stay. `NoMemory` is the only error, and leaves all as they were.
    pub fn step(
        &mut self,
        config: &Config,
        device: u32,
        reading: u64,
        query: &DeviceQuery,
    ) -> Result<DeviceAnswer, NoMemory>
        requires there { device < length self.old }
        requires configured { device < length config.now.devices }
        requires reading { IsReading reading }
        ensures line { IsLineOf device (machine.step (worlds.device_rules config.now device) reading query.now (slice_index_or self.old device machine.initial)) self.old self.new result }
        ensures memory { takes_memory query.now ≡ false → IsOk result }
    {
        let rules = device_rules(config, device);
        let asked = &mut self.devices[device as usize];
        asked.step(rules, reading, query)
    }
}

// What the configuration says of a device, by its number.
fn device_rules(config: &Config, device: u32) -> DeviceRules
    requires { device < length config.now.devices }
    ensures { result ≡ worlds.device_rules config.now device }
{
    let device = config.device(device);
    DeviceRules {
        capacity: device.capacity,
        read_only: device.read_only,
        ttl: config.ttl,
        skew: config.skew,
        trash_life: config.trash_life,
    }
}
