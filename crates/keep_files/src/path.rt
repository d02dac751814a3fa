// Paths of files, and where they are cut.
ghost use Rattle.std.specs.Prelude.{◌≡◌, option_map, IfOk, drop};
ghost use Rattle.keep_spec.specs.Names.{is_component, is_path};
ghost use Rattle.keep_normal.specs.Normal.{cut_last};
ghost use Rattle.keep_files.specs.Layout.{directory_of, name_of};

use keep_spec::Bytes;
use std::alloc::{AllocError, Global};

// One or more components with `/` between.
pub(crate) fn is_path(path: &[u8]) -> bool
    ensures { result ≡ is_path path.now }
{
    path.split(|b| *b == b'/').all(is_component)
}

// Neither empty, nor `.`, nor `..`.
fn is_component(part: &[u8]) -> bool
    ensures { result ≡ is_component part.now }
{
    !matches!(part, [] | [b'.'] | [b'.', b'.'])
}

// The parts before and after the last `/`.
fn cut_last(path: &[u8]) -> Option<(&[u8], &[u8])>
    ensures { option_map (λ p. (p.0.now, p.1.now)) result ≡ cut_last path.now }
{
    for at in (0..path.len()).rev() {
        if path[at] == b'/' {
            return Some((&path[..at], &path[at + 1..]));
        }
    }
    None
}

// The directory that a path lies in: `.`, or `./` and the path up to its last `/`.
pub(crate) fn directory_of(alloc: Global, path: &[u8]) -> Result<Bytes, AllocError>
    ensures { IfOk result (λ directory. directory ≡ directory_of path.now) }
{
    let mut directory = Vec::from_slice(alloc, b".")?;
    if let Some((front, _)) = cut_last(path) {
        directory.push(b'/')?;
        directory.extend_from_slice(front)?;
    }
    Ok(Bytes::of(directory))
}

// The name of a file in its directory: the path after its last `/`.
pub(crate) fn name_of(path: &[u8]) -> &[u8]
    ensures { result.now ≡ name_of path.now }
{
    match cut_last(path) {
        Some((_, name)) => name,
        None => path,
    }
}

// A manifest's path without its leading `./`.
pub(crate) fn below_root(path: &[u8]) -> &[u8]
    ensures { result.now ≡ drop 2 path.now }
{
    &path[path.len().min(2)..]
}
