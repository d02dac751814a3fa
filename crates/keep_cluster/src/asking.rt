// Asks one of many devices.
ghost use Rattle.std.specs.Prelude.{◌≡◌, ◌<◌, length};
ghost use Rattle.keep_spec.specs.Times.{IsReading};
ghost use Rattle.keep_cluster.specs.Asked.{IsAskedOf};

use keep_event::{DeviceAnswer, DeviceQuery};
use keep_spec::NoMemory;
use keep_store::Store;
use keep_volume::Volume;

/// Asks the device of a number.
pub(crate) fn ask_device<S: Store>(
    volumes: &mut Vec<Volume<S>>,
    device: u32,
    reading: u64,
    query: &DeviceQuery,
) -> Result<DeviceAnswer, NoMemory>
    requires device { device < length volumes.old.items }
    requires reading { IsReading reading }
    ensures { IsAskedOf device reading query.now volumes.old.items volumes.new.items result }
{
    volumes[device as usize].step(reading, query)
}
