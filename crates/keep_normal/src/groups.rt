// Values grouped by key.
ghost use Rattle.std.specs.Prelude.{◌≡◌, OnOk, List};
ghost use Rattle.std.specs.BTreeMap.{IsOrdered, is_at};
ghost use Rattle.std.specs.Map.{remove_entry};
ghost use Rattle.keep_normal.specs.Grouped.{byte_order, values_at, put};

use keep_spec::{Bytes, Items};
use std::alloc::{AllocError, Global};
use std::collections::BTreeMap;

/// A map from keys, in order of their bytes, to the values that were put at each, in the order in which they came.
pub(crate) type Groups<T> = BTreeMap<Bytes, Items<T>>;

// Appends a value to those of its key.
pub(crate) fn put<T: Drop>(
    alloc: Global,
    groups: &mut Groups<T>,
    key: Bytes,
    value: T,
) -> Result<(), AllocError>
    requires { IsOrdered byte_order groups.old }
    ensures ordered { IsOrdered byte_order groups.new }
    ensures entries { OnOk result (groups.new.entries ≡ put groups.old.entries (key, value)) }
{
    let mut values = taken(alloc, groups, &key);
    values.push(value)?;
    groups.insert(key, Items::of(values))?;
    Ok(())
}

// Removes a key and returns its values; none for a key that the map doesn't have.
fn taken<T: Drop>(alloc: Global, groups: &mut Groups<T>, key: &Bytes) -> Vec<T>
    ensures values { result.items ≡ values_at groups.old.entries key.now }
    ensures entries { groups.new.entries ≡ remove_entry (is_at (byte_order key.now)) groups.old.entries }
    ensures ordered { IsOrdered byte_order groups.new }
{
    match groups.remove(key) {
        Some(values) => values.into_vec(),
        None => Vec::new(alloc),
    }
}
