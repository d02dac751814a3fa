// What a device holds, as a plain list of names with what stands under each; each look-up goes through the list.
ghost use Rattle.std.specs.Prelude.{◌≡◌, ◌<◌, OnOk, OnErr, None, is_some, true, option_copied};
ghost use Rattle.std.specs.Vec.{vec_len, vec_capacity};
ghost use Rattle.keep_event.specs.Store.{find as found, put as with_put, without, touch, rename as renamed};
ghost use Rattle.keep_plain.specs.Places.{IsCutAt};

use keep_event::{Name, Stored};
use keep_spec::NoMemory;
use std::cmp::Ordering;

// Where the name stands (Ok), or would go (Err).
fn place_of(held: &[(Name, Stored)], name: &Name) -> Result<usize, usize>
    ensures { IsCutAt name.now held.now result }
{
    let mut place = 0;
    for entry in held {
        match name.cmp(&entry.0) {
            Ordering::Less => return Err(place),
            Ordering::Equal => return Ok(place),
            Ordering::Greater => place += 1,
        }
    }
    Err(place)
}

/// What stands under the name.
pub(crate) fn find<'a>(held: &'a [(Name, Stored)], name: &Name) -> Option<&'a Stored>
    ensures { option_copied result ≡ found name.now held.now }
{
    match place_of(held, name) {
        Ok(i) => Some(&held[i].1),
        Err(_) => None,
    }
}

/// Stores what is given under the name, replacing what it has. After NoMemory, the only error, the list is as it was.
pub(crate) fn put(
    held: &mut Vec<(Name, Stored)>,
    name: &Name,
    stored: Stored,
) -> Result<(), NoMemory>
    ensures ok { OnOk result (held.new.items ≡ with_put name.now stored held.old.items) }
    ensures err { OnErr result (held.new.items ≡ held.old.items) }
{
    if held.reserve(1).is_err() {
        return Err(NoMemory);
    }
    put_in_room(held, name, stored);
    Ok(())
}

// The same where there is room for one more name.
fn put_in_room(held: &mut Vec<(Name, Stored)>, name: &Name, stored: Stored)
    requires { vec_len held.old < vec_capacity held.old }
    ensures { held.new.items ≡ with_put name.now stored held.old.items }
{
    match place_of(held, name) {
        Ok(i) => held[i] = (*name, stored),
        Err(i) => match held.insert(i, (*name, stored)) {
            Ok(()) => {}
            Err(_) => unreachable!(),
        },
    }
}

/// Removes the name and returns what it had. None: it isn't there.
pub(crate) fn remove(held: &mut Vec<(Name, Stored)>, name: &Name) -> Option<Stored>
    ensures value { result ≡ found name.now held.old.items }
    ensures after { held.new.items ≡ without name.now held.old.items }
    ensures unchanged { result ≡ None → held.new.items ≡ held.old.items }
    ensures room { is_some result ≡ true → vec_len held.new < vec_capacity held.new }
{
    match place_of(held, name) {
        Ok(i) => {
            let (_, stored) = held.remove(i);
            Some(stored)
        }
        Err(_) => None,
    }
}

/// Moves what stands under a name to another, replacing what that has, and sets its time (nanoseconds since 1970). It takes no memory.
pub(crate) fn rename(held: &mut Vec<(Name, Stored)>, from: &Name, to: &Name, mtime: u64)
    ensures { held.new.items ≡ renamed from.now to.now mtime held.old.items (found from.now held.old.items) }
{
    if let Some(stored) = remove(held, from) {
        let bytes = stored.bytes;
        put_in_room(held, to, Stored { mtime, bytes });
    }
}

/// Sets the time of what stands under the name, in nanoseconds since 1970; without the name all stays. It takes no memory.
pub(crate) fn set_time(held: &mut Vec<(Name, Stored)>, name: &Name, mtime: u64)
    ensures { held.new.items ≡ touch name.now mtime held.old.items (found name.now held.old.items) }
{
    if let Ok(i) = place_of(held, name) {
        held[i].1.mtime = mtime;
    }
}
