// Tests whether names are distinct.
ghost use Rattle.std.specs.Prelude.{◌≡◌, IfOk, List, ℕ, map};
ghost use Rattle.std.specs.BTreeSet.{IsFromIterResult};
ghost use Rattle.keep_spec.specs.Config.{all_distinct};
ghost use Rattle.keep_config.specs.Texts.{text_cmp};

use keep_spec::{Bytes, Mount, NoMemory, Server};
use std::alloc::{AllocError, Global};
use std::collections::BTreeSet;

/// A value that has a name of its own.
pub(crate) trait Named {
    ghost name: { Self → List ℕ };

    fn name(&self) -> &[u8]
        ensures { result.now ≡ name self.now };
}

impl Named for Bytes {
    ghost name = { λ text. text };

    fn name(&self) -> &[u8] {
        self.as_slice()
    }
}

impl Named for Server {
    ghost name = { λ s. s.uuid };

    fn name(&self) -> &[u8] {
        self.uuid.as_bytes()
    }
}

impl Named for Mount {
    ghost name = { λ m. m.uuid };

    fn name(&self) -> &[u8] {
        self.uuid.as_bytes()
    }
}

fn names_of<N: Named>(alloc: Global, items: &[N]) -> Result<Vec<&[u8]>, NoMemory>
    ensures { IfOk result (λ v. map (λ t. t.now) v.items ≡ map N.name items.now) }
{
    let mut names = Vec::new(alloc);
    for item in items {
        if names.push(item.name()).is_err() {
            return Err(NoMemory);
        }
    }
    Ok(names)
}

fn set_of<'a>(alloc: Global, names: &[&'a [u8]]) -> Result<BTreeSet<&'a [u8]>, AllocError>
    ensures { IfOk result (IsFromIterResult text_cmp names.now) }
{
    names.iter().copied().collect(alloc)
}

/// Whether no two of the items have the same name.
pub(crate) fn all_distinct<N: Named>(alloc: Global, items: &[N]) -> Result<bool, NoMemory>
    ensures { IfOk result (λ b. b ≡ all_distinct (map N.name items.now)) }
{
    let names = names_of(alloc, items)?;
    let set = set_of(alloc, &names)?;
    Ok(set.len() == items.len())
}
