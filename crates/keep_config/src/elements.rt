// Parses the members of a configuration's lists.
ghost use Rattle.std.specs.Prelude.{◌≡◌, IfOk};
ghost use Rattle.serde_json.specs.View.{view};
ghost use Rattle.keep_spec.specs.Config.{uuid_at, index_at, addresses_of, device_of, server_of, mount_of};

use crate::json;
use crate::json::Member;
use keep_spec::{Bytes, Device, Items, Mount, NoMemory, Server, Uuid};
use serde_json::Value;
use std::alloc::Global;

impl Member for Device {
    ghost parsed = { device_of };

    fn parse(_alloc: Global, value: &Value) -> Result<Option<Device>, NoMemory> {
        let Some(capacity) = json::number_at(value, "capacity") else {
            return Ok(None);
        };
        let Some(read_only) = json::truth_or(value, "read_only", false) else {
            return Ok(None);
        };
        Ok(Some(Device {
            capacity,
            read_only,
        }))
    }
}

impl Member for Server {
    ghost parsed = { server_of };

    fn parse(alloc: Global, value: &Value) -> Result<Option<Server>, NoMemory> {
        let Some(uuid) = uuid_at(value) else {
            return Ok(None);
        };
        let Some(addresses) = addresses_of(alloc, value)? else {
            return Ok(None);
        };
        Ok(Some(Server { uuid, addresses }))
    }
}

impl Member for Mount {
    ghost parsed = { mount_of };

    fn parse(_alloc: Global, value: &Value) -> Result<Option<Mount>, NoMemory> {
        let Some(uuid) = uuid_at(value) else {
            return Ok(None);
        };
        let Some(server) = index_at(value, "server") else {
            return Ok(None);
        };
        let Some(device) = index_at(value, "device") else {
            return Ok(None);
        };
        Ok(Some(Mount {
            uuid,
            server,
            device,
        }))
    }
}

fn uuid_at(value: &Value) -> Option<Uuid>
    ensures { result ≡ uuid_at (view value.now) }
{
    let text = json::text_at(value, "uuid")?;
    match Uuid::read(text.as_bytes()) {
        Ok(uuid) => Some(uuid),
        Err(_) => None,
    }
}

fn addresses_of(alloc: Global, value: &Value) -> Result<Option<Items<Bytes>>, NoMemory>
    ensures { IfOk result (λ o. o ≡ addresses_of (view value.now)) }
{
    match value.get("addresses") {
        Some(_) => json::list_at(alloc, value, "addresses"),
        None => Ok(Some(Items::of(Vec::new(alloc)))),
    }
}

fn index_at(value: &Value, name: &str) -> Option<u32>
    ensures { result ≡ index_at name.now (view value.now) }
{
    let number = json::number_at(value, name)?;
    if number < 1 << 32 {
        Some(number as u32)
    } else {
        None
    }
}
