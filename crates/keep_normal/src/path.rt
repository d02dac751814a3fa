// Paths of files.
ghost use Rattle.std.specs.Prelude.{◌≡◌, Option, option_map};
ghost use Rattle.keep_normal.specs.Normal.{cut_last, path_parts};

// The parts before and after the last `/`.
fn cut_last(path: &[u8]) -> Option<(&[u8], &[u8])>
    ensures { option_map (λ p. (p.0.now, p.1.now)) result ≡ cut_last path.now }
{
    for at in (0..path.len()).rev() {
        if path[at] == b'/' {
            return Some((&path[..at], &path[at + 1..]));
        }
    }
    None
}

// The directory of a path and the name below it; the whole path is the name where it has no `/`.
pub(crate) fn path_parts(path: &[u8]) -> (&[u8], &[u8])
    ensures { (result.0.now, result.1.now) ≡ path_parts path.now }
{
    match cut_last(path) {
        Some(parts) => parts,
        None => (&path[..0], path),
    }
}
