// Devices over stores in memory. Settings: `fails DEVICE CALLS` lists the calls of a device's store that fail, and `held DEVICE ..` is what it holds.
ghost use Rattle.std.specs.Prelude.{◌≡◌, ◌<◌, length, IfOk};
ghost use Rattle.keep_event.specs.World as world;
ghost use Rattle.keep_cluster.specs.Cluster.{HasDevices};

use keep_casebook::{Case, OutOfMemory, numbers_of, put_held};
use keep_cluster::device_rules;
use keep_config::Config;
use keep_store::MemoryStore;
use keep_volume::Volume;
use std::alloc::Global;

/// The devices of a configuration, in its order.
pub fn volumes_of(
    alloc: Global,
    case: &Case,
    config: &Config,
) -> Result<Vec<Volume<MemoryStore>>, OutOfMemory>
    ensures { IfOk result (λ v. HasDevices config.now v.items) }
{
    let count = config.devices.len();
    let mut volumes = Vec::new(alloc);
    for number in 0..count as u32 {
        let volume = volume_of(alloc, case, config, number)?;
        volumes.push(volume)?;
    }
    Ok(volumes)
}

// The device of a number, by what the case says of its store.
fn volume_of(
    alloc: Global,
    case: &Case,
    config: &Config,
    number: u32,
) -> Result<Volume<MemoryStore>, OutOfMemory>
    requires { number < length config.now.devices }
    ensures { IfOk result (λ v. v.rules ≡ world.device_rules config.now number) }
{
    let mut fails = "";
    for setting in case.settings() {
        let (device, rest) = setting.value.split_once(' ').unwrap_or(("", ""));
        if setting.key == "fails" && device.parse::<u32>() == Ok(number) {
            fails = rest;
        }
    }
    let mut store = MemoryStore::new(alloc, numbers_of(alloc, fails)?);
    for setting in case.settings() {
        let (device, rest) = setting.value.split_once(' ').unwrap_or(("", ""));
        if setting.key == "held" && device.parse::<u32>() == Ok(number) {
            put_held(alloc, &mut store, rest)?;
        }
    }
    match Volume::open(alloc, store, device_rules(config, number)) {
        Ok(volume) => Ok(volume),
        Err(_) => Err(OutOfMemory),
    }
}
