// Packing files.
ghost use Rattle.std.specs.Prelude.{◌≡◌, ◌≤◌, All, List, ℕ, Option, Some, Ok, IfOk, option_map};
ghost use Rattle.md5.specs.Md5.{md5};
ghost use Rattle.keep_spec.specs.Manifest.{manifest_of};
ghost use Rattle.keep_files.specs.Layout.{ascending};
ghost use Rattle.keep_files.specs.Packed.{Packs};
ghost use Rattle.keep_files.specs.Stored.{HaveOwnDigests, stored_in, unpacking};

use crate::fault::PackError;
use crate::file::{FileIn, Packed};
use crate::layout::{LaidOut, lay_out};
use crate::places::{by_directory, places_of};
use keep_manifest::write;
use keep_normal::normalize;
use keep_spec::{Items, Manifest};
use std::alloc::Global;

/// Packs files into blocks of `block_size` bytes, 1 to 67,108,864, and a manifest in normal form (Arvados). The files of each directory
/// are laid end to end in order of their names' bytes and cut into blocks, the last of them shorter; directories come in order of their
/// bytes. `BadName` and `Twice` come exactly at the first such file of the list, at one file `BadName` first. The bytes are copied once.
pub fn pack_files(alloc: Global, files: &[FileIn], block_size: u32) -> Result<Packed, PackError>
    requires least { 1 ≤ block_size }
    requires most { block_size ≤ 67108864 }
    ensures packed { Packs result block_size files.now }

    // From any store that has each block under its digest, and so from the blocks alone where no two of them have one digest, the text is
    // unpacked to the files in order of their paths.
    ensures unpacked { IfOk result (λ p. (stored : List ℕ → Option (List ℕ)) → All (λ b. stored (md5 b) ≡ Some b) p.blocks
        → option_map (λ m. unpacking m stored) (manifest_of p.text) ≡ Some (Ok (ascending files.now))) }
    ensures unpacked_alone { IfOk result (λ p. HaveOwnDigests p.blocks
        → option_map (λ m. unpacking m (stored_in p.blocks)) (manifest_of p.text) ≡ Some (Ok (ascending files.now))) }
{
    let places = places_of(alloc, files)?;
    let directories = by_directory(alloc, places)?;
    let LaidOut { blocks, streams } = lay_out(alloc, files, directories, block_size as usize)?;
    let laid_out = Manifest {
        streams: Items::of(streams),
    };
    let normal = normalize(alloc, &laid_out)?;
    let text = write(alloc, &normal)?;
    Ok(Packed {
        blocks: Items::of(blocks),
        text,
    })
}
