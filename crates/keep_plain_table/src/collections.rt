// The collections of a table as a plain list; each look-up goes through the list.
ghost use Rattle.std.specs.Prelude.{◌≡◌, ◌==◌, ◌<◌, ◌^◌, not, map, filter, count_by};
ghost use Rattle.std.specs.List.{find};
ghost use Rattle.keep_event.specs.Table as machine;

use keep_event::Collection;
use keep_spec::TokenId;

/// A new collection of the owner's.
pub(crate) fn new_collection(number: u64, owner: TokenId) -> Collection
    ensures { result ≡ machine.new_collection number owner }
{
    Collection {
        number,
        owner,
        trash_at: None,
        delete_at: None,
    }
}

/// The collection of this number.
pub(crate) fn collection_of(collections: &[Collection], number: u64) -> Option<Collection>
    ensures { result ≡ find (λ x. x.number == number) collections.now }
{
    for collection in collections {
        if collection.number == number {
            return Some(*collection);
        }
    }
    None
}

/// Whether the token is the owner's or the system's.
pub(crate) fn is_owner(token: TokenId, collection: &Collection) -> bool
    ensures { result ≡ machine.is_owner token collection.now }
{
    token.number == 0 || token.number == collection.owner.number
}

/// Whether a collection is in the trash at a reading, in nanoseconds since 1970.
pub(crate) fn is_in_trash(reading: u64, collection: &Collection) -> bool
    ensures { result ≡ machine.is_in_trash reading collection.now }
{
    match collection.trash_at {
        Some(at) => at <= reading,
        None => false,
    }
}

/// Whether a collection goes at a reading, in nanoseconds since 1970.
pub(crate) fn is_gone(reading: u64, collection: &Collection) -> bool
    ensures { result ≡ machine.is_gone reading collection.now }
{
    match collection.delete_at {
        Some(at) => at < reading,
        None => false,
    }
}

/// How many collections go at a reading.
pub(crate) fn count_gone(collections: &[Collection], reading: u64) -> u64
    ensures { result ≡ count_by (machine.is_gone reading) collections.now }
{
    let mut gone = 0;
    for collection in collections {
        if is_gone(reading, collection) {
            gone += 1;
        }
    }
    gone
}

/// Removes the collections that go at a reading.
pub(crate) fn drop_gone(collections: &mut Vec<Collection>, reading: u64)
    ensures { collections.new.items ≡ filter (λ x. not (machine.is_gone reading x)) collections.old.items }
{
    collections.retain(|collection| !is_gone(reading, collection));
}

/// Sets both times of the collection of this number, in nanoseconds since 1970.
pub(crate) fn set_times(
    collections: &mut Vec<Collection>,
    number: u64,
    trash_at: Option<u64>,
    delete_at: Option<u64>,
)
    ensures { collections.new.items ≡ map (machine.with_times number trash_at delete_at) collections.old.items }
{
    for collection in collections.iter_mut() {
        set_own_times(collection, number, trash_at, delete_at);
    }
}

// Sets both times of a collection, where it has this number.
fn set_own_times(
    collection: &mut Collection,
    number: u64,
    trash_at: Option<u64>,
    delete_at: Option<u64>,
)
    ensures { collection.new ≡ machine.with_times number trash_at delete_at collection.old }
{
    if collection.number == number {
        collection.trash_at = trash_at;
        collection.delete_at = delete_at;
    }
}
