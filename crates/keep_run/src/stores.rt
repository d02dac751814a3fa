// The devices of a run, opened over the first of its stores, and the stores given back.
ghost use Rattle.std.specs.Prelude.{◌≡◌, ◌<◌, ◌≤◌, ◌+◌, ◌-◌, ◌∷◌, List, IfOk, IfErr, OnOk, OnErr, length, map, drop, vec_len};
ghost use Rattle.std.specs.Vec.{vec_capacity};
ghost use Rattle.keep_cluster.specs.Cluster.{HasDevices};
ghost use Rattle.keep_event.specs.World.{device_rules};
ghost use Rattle.keep_run.specs.Stores.{AllPairs, IsSame, IsOver, IsRefused, AreRefused, AreOpened, AreGiven, IsNextOpened, IsNextRefused, told_by, told_of};

use keep_cluster::device_rules;
use keep_config::Config;
use keep_spec::Status;
use keep_store::Store;
use keep_volume::{OpenError, Volume};
use std::alloc::Global;

// A store over which no device was opened, and why.
#[derive(Drop)]
struct Refused<S> {
    store: S,
    status: Status,
}

// Opens the device of a number over its store. It must be empty.
fn open_device<S: Store>(
    alloc: Global,
    config: &Config,
    device: u32,
    store: S,
) -> Result<Volume<S>, Refused<S>>
    requires { device < length config.now.devices }
    ensures over { IfOk result (λ v. IsOver (told_of S.held S.noted S.faults store) v) }
    ensures rules { IfOk result (λ v. v.rules ≡ device_rules config.now device) }
    ensures same { IfErr result (λ r. IsSame (told_of S.held S.noted S.faults store) (told_of S.held S.noted S.faults r.store)) }
    ensures refused { IfErr result (λ r. IsRefused device r.status (told_of S.held S.noted S.faults store) (told_of S.held S.noted S.faults r.store)) }
{
    let volume = match Volume::open(alloc, store, device_rules(config, device)) {
        Ok(volume) => volume,
        Err(OpenError::StoreFault { store }) => {
            return Err(Refused {
                store,
                status: Status::StoreFault { device },
            });
        }
        Err(OpenError::NoMemory { store }) => {
            return Err(Refused {
                store,
                status: Status::NoMemory,
            });
        }
    };
    if volume.is_empty() {
        Ok(volume)
    } else {
        Err(Refused {
            store: volume.into_store(),
            status: Status::NotEmpty { device },
        })
    }
}

// Opens the device of a number over the first of the stores that are left. A store over which it can't be opened stays there.
fn open_first<S: Store>(
    alloc: Global,
    config: &Config,
    device: u32,
    stores: &mut Vec<S>,
    volumes: &mut Vec<Volume<S>>,
) -> Result<(), Status>
    requires device { device < length config.now.devices }
    requires some { 0 < vec_len stores.old }
    requires room { vec_len volumes.old < vec_capacity volumes.old }
    ensures opened { OnOk result (IsNextOpened (told_of S.held S.noted S.faults) (device_rules config.now device) stores.old.items stores.new.items volumes.old.items volumes.new.items) }
    ensures refused { IfErr result (λ status. IsNextRefused (told_of S.held S.noted S.faults) device status stores.old.items stores.new.items) }
    ensures volumes_stay { OnErr result (volumes.new.items ≡ volumes.old.items) }
    ensures store_room { vec_capacity stores.old ≤ vec_capacity stores.new }
    ensures volume_room { vec_capacity volumes.old ≤ vec_capacity volumes.new }
{
    let store = stores.remove(0);
    match open_device(alloc, config, device, store) {
        Ok(volume) => match volumes.push(volume) {
            Ok(()) => Ok(()),
            Err(_) => unreachable!(),
        },
        Err(Refused { store, status }) => match stores.insert(0, store) {
            Ok(()) => Err(status),
            Err(_) => unreachable!(),
        },
    }
}

/// Gives the stores of devices back, in the order of their devices, before those that are left. There must be room for them.
pub(crate) fn give_back<S: Store>(mut volumes: Vec<Volume<S>>, stores: &mut Vec<S>)
    requires { vec_len volumes + vec_len stores.old ≤ vec_capacity stores.old }
    ensures { AreGiven (told_of S.held S.noted S.faults) volumes.items stores.old.items stores.new.items }
{
    while let Some(volume) = volumes.pop() {
        match stores.insert(0, volume.into_store()) {
            Ok(()) => {}
            Err(_) => unreachable!(),
        }
    }
    volumes.destroy_empty();
}

/// Opens the devices of the configuration in order, each over one of the first stores, which are taken out. The first that isn't empty, or whose store
/// fails, is refused; all stores stand in their order then.
pub(crate) fn open_all<S: Store>(
    alloc: Global,
    config: &Config,
    stores: &mut Vec<S>,
) -> Result<Vec<Volume<S>>, Status>
    requires { length config.now.devices ≤ vec_len stores.old }
    ensures opened { IfOk result (λ v. AreOpened (told_of S.held S.noted S.faults) (length config.now.devices) stores.old.items stores.new.items v.items) }
    ensures devices { IfOk result (λ v. HasDevices config.now v.items) }
    ensures room { IfOk result (λ v. vec_len v + vec_len stores.new ≤ vec_capacity stores.new) }
    ensures same { OnErr result (AllPairs IsSame (told_by S.held S.noted S.faults stores.old.items) (told_by S.held S.noted S.faults stores.new.items)) }
    ensures refused { IfErr result (λ status. AreRefused (length config.now.devices) status (told_by S.held S.noted S.faults stores.old.items) (told_by S.held S.noted S.faults stores.new.items)) }
    ensures others { OnErr result (drop (length config.now.devices) stores.new.items ≡ drop (length config.now.devices) stores.old.items) }
{
    let count = config.devices.len();
    let mut volumes = match Vec::with_capacity(alloc, count) {
        Ok(volumes) => volumes,
        Err(_) => return Err(Status::NoMemory),
    };
    for device in 0..count as u32 {
        match open_first(alloc, config, device, stores, &mut volumes) {
            Ok(()) => {}
            Err(status) => {
                give_back(volumes, stores);
                return Err(status);
            }
        }
    }
    Ok(volumes)
}
