// The places of files in the list, in the order in which they are laid out.
ghost use Rattle.std.specs.Prelude.{◌≡◌, IsTrue, IfOk, OnOk, map, nat_lt, length, None, is_some};
ghost use Rattle.std.specs.List.{list_all};
ghost use Rattle.std.specs.BTreeMap.{IsOrdered, insert_entry, is_at};
ghost use Rattle.std.specs.Map.{remove_entry};
ghost use Rattle.keep_normal.specs.Grouped.{byte_order, put, values_at};
ghost use Rattle.keep_files.specs.Layout.{by_path};
ghost use Rattle.keep_files.specs.Packed.{first_fault};
ghost use Rattle.keep_files.specs.Places.{FindsPlaces, entry_at, places_by_directory};

use crate::fault::PackError;
use crate::file::FileIn;
use crate::path::{directory_of, is_path};
use keep_spec::{Bytes, Items};
use std::alloc::{AllocError, Global};
use std::collections::BTreeMap;

/// A map from paths, in order of their bytes, to the places of their files.
pub(crate) type Places = BTreeMap<Bytes, usize>;

/// A map from directories, in order of their bytes, to the places of their files, in order of their paths.
pub(crate) type Directories = BTreeMap<Bytes, Items<usize>>;

// The places of files by path, or the first fault among them.
pub(crate) fn places_of(alloc: Global, files: &[FileIn]) -> Result<Places, PackError>
    ensures { FindsPlaces result files.now }
{
    let mut places = BTreeMap::new(alloc);
    for (index, file) in files.iter().enumerate() {
        if !is_path(file.path.as_slice()) {
            return Err(PackError::BadName { index });
        }
        if places.contains_key(&file.path) {
            return Err(PackError::Twice { index });
        }
        add_place(alloc, &mut places, file, index)?;
    }
    Ok(places)
}

// Sets the place of a file.
fn add_place(
    alloc: Global,
    places: &mut Places,
    file: &FileIn,
    place: usize,
) -> Result<(), AllocError>
    ensures { OnOk result (places.new.entries ≡ insert_entry byte_order places.old.entries file.now.path place) }
{
    let path = Bytes::of(Vec::from_slice(alloc, file.path.as_slice())?);
    places.insert(path, place)?;
    Ok(())
}

// The places of the files of each directory.
#[tactic(auto, unfolding(keep_normal::specs::Grouped::grouped))]
pub(crate) fn by_directory(alloc: Global, places: Places) -> Result<Directories, AllocError>
    ensures { IfOk result (λ directories. directories.entries ≡ places_by_directory places.entries) }
{
    let mut directories = BTreeMap::new(alloc);
    for (path, place) in places {
        let directory = directory_of(alloc, path.as_slice())?;
        put(alloc, &mut directories, directory, place)?;
    }
    Ok(directories)
}

// Appends a place to those of its directory.
fn put(
    alloc: Global,
    directories: &mut Directories,
    directory: Bytes,
    place: usize,
) -> Result<(), AllocError>
    requires { IsOrdered byte_order directories.old }
    ensures ordered { IsOrdered byte_order directories.new }
    ensures entries { OnOk result (directories.new.entries ≡ put directories.old.entries (directory, place)) }
{
    let mut places = taken(alloc, directories, &directory);
    places.push(place)?;
    directories.insert(directory, Items::of(places))?;
    Ok(())
}

// Removes a directory and returns its places; none for a directory that the map doesn't have.
fn taken(alloc: Global, directories: &mut Directories, directory: &Bytes) -> Vec<usize>
    ensures places { result.items ≡ values_at directories.old.entries directory.now }
    ensures entries { directories.new.entries ≡ remove_entry (is_at (byte_order directory.now)) directories.old.entries }
    ensures ordered { IsOrdered byte_order directories.new }
{
    match directories.remove(directory) {
        Some(places) => places.into_vec(),
        None => Vec::new(alloc),
    }
}
