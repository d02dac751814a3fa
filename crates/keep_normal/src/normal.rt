// The normal form of a manifest.
ghost use Rattle.std.specs.Prelude.{◌≡◌, ◌↔◌, ℕ, List, map, All, Contains, IsTrue, IfOk};
ghost use Rattle.std.specs.List.{list_all};
ghost use Rattle.std.specs.List.Sorted.{IsStrictlySortedBy};
ghost use Rattle.keep_spec.specs.Manifest.{IsGood};
ghost use Rattle.keep_normal.specs.Outcomes.{ReturnsIf, CollectsIf};
ghost use Rattle.keep_normal.specs.Files.{stripped_file, stripped_part, ranges};
ghost use Rattle.keep_normal.specs.FirstUse.{ListsBlocks};
ghost use Rattle.keep_normal.specs.Grouped.{byte_order, grouped};
ghost use Rattle.keep_normal.specs.Normal.{normal, is_small, is_small_stream, line_of, by_directory, directory, files_in, uses};
ghost use Rattle.keep_normal.specs.Sound.{are_sound};

use crate::fault::NormalError;
use crate::groups::{Groups, put};
use crate::listing::files;
use crate::part::{FileParts, Part};
use crate::path::path_parts;
use crate::segments::line_of;
use crate::stripping::stripped;
use keep_spec::{Bytes, Items, Manifest, Stream};
use std::alloc::{AllocError, Global};
use std::collections::BTreeMap;

/// The normal form of a good manifest (Arvados): a line for each directory that has files, in order of the directories' bytes; in each,
/// the files in order of their names' bytes, and the stripped locators of their blocks in the order of first use, each once. Segments of
/// one file that touch are joined. A file of no bytes keeps one segment, and a line without blocks lists the empty block. `TooLarge`
/// exactly where a position or a size of it isn't below 10^19.
pub fn normalize(alloc: Global, manifest: &Manifest) -> Result<Manifest, NormalError>
    requires { IsGood manifest.now }
    ensures normal_form { ReturnsIf result (normal manifest.now) (is_small (normal manifest.now)) }

    // It can be written, has the same files, and its normal form is itself.
    ensures good { IfOk result IsGood }
    ensures files { IfOk result (λ n. ranges n ≡ ranges manifest.now) }
    ensures own_normal_form { IfOk result (λ n. normal n ≡ n) }

    // Its lines: one for each directory that has files, ascending, with this directory's files and the blocks that they use.
    ensures ascending { IfOk result (λ n. IsStrictlySortedBy byte_order (map (λ s. s.name) n.streams)) }
    ensures directories { IfOk result
        (λ n. (d : List ℕ) → Contains (map (λ s. s.name) n.streams) d ↔ Contains (map directory (ranges manifest.now)) d) }
    ensures lines { IfOk result (λ n. All (λ s. s ≡ line_of (s.name, files_in (ranges manifest.now) s.name)) n.streams) }
    ensures blocks { IfOk result
        (λ n. All (λ s. ListsBlocks (uses (files_in (ranges manifest.now) s.name)) s.locators) n.streams) }
{
    let files = files(alloc, manifest)?;
    let directories = by_directory(alloc, &files)?;
    let streams = lines_of(alloc, directories)?;
    Ok(Manifest {
        streams: Items::of(streams),
    })
}

// The files of each directory, with stripped locators.
#[tactic(auto, unfolding(crate::specs::Grouped::grouped))]
fn by_directory(alloc: Global, files: &[FileParts]) -> Result<Groups<FileParts>, AllocError>
    ensures { IfOk result (λ groups. groups.entries ≡ grouped (by_directory (map stripped_file files.now))) }
{
    let mut groups = BTreeMap::new(alloc);
    for file in files {
        let (directory, _) = path_parts(file.path.as_slice());
        let directory = Bytes::of(Vec::from_slice(alloc, directory)?);
        put(alloc, &mut groups, directory, stripped_file(alloc, file)?)?;
    }
    Ok(groups)
}

fn stripped_file(alloc: Global, file: &FileParts) -> Result<FileParts, AllocError>
    ensures { IfOk result (λ f. f ≡ stripped_file file.now) }
{
    let path = Bytes::of(Vec::from_slice(alloc, file.path.as_slice())?);
    let mut parts = Vec::with_capacity(alloc, file.parts.len())?;
    for part in file.parts.as_slice() {
        parts.push(stripped_part(alloc, part)?)?;
    }
    Ok(FileParts {
        path,
        parts: Items::of(parts),
    })
}

fn stripped_part(alloc: Global, part: &Part) -> Result<Part, AllocError>
    ensures { IfOk result (λ p. p ≡ stripped_part part.now) }
{
    Ok(Part {
        locator: Bytes::of(Vec::from_slice(alloc, stripped(part.locator.as_slice()))?),
        offset: part.offset,
        length: part.length,
    })
}

fn lines_of(alloc: Global, directories: Groups<FileParts>) -> Result<Vec<Stream>, NormalError>
    requires { IsTrue (list_all (λ g. list_all (λ f. are_sound f.parts) g.1) directories.entries) }
    ensures { CollectsIf result (map line_of directories.entries)
        (list_all is_small_stream (map line_of directories.entries)) }
{
    let mut streams = Vec::new(alloc);
    for (name, files) in directories {
        streams.push(line_of(alloc, name, files)?)?;
    }
    Ok(streams)
}
