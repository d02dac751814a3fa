// The prefixes by which a round asks for pages.
ghost use Rattle.std.specs.Prelude.{◌≡◌, ◌++◌, ◌∷◌, [], IfOk, OnOk, map};
ghost use Rattle.keep_history.specs.Rounds.{digits, longer, prefixes};

use keep_spec::{Bytes, NoMemory};
use std::alloc::Global;

/// All texts of so many hexadecimal digits, ascending. NoMemory is the only error.
pub(crate) fn prefixes(alloc: Global, digits: u32) -> Result<Vec<Bytes>, NoMemory>
    ensures { IfOk result (λ texts. texts.items ≡ prefixes digits) }
{
    let mut texts = Vec::with_capacity(alloc, 1)?;
    if texts.push(Bytes::copy_of(alloc, b"")?).is_err() {
        return Err(NoMemory);
    }
    for _digit in 0..digits {
        texts = longer(alloc, texts.as_slice())?;
    }
    Ok(texts)
}

// The texts with one digit more.
fn longer(alloc: Global, texts: &[Bytes]) -> Result<Vec<Bytes>, NoMemory>
    ensures { IfOk result (λ more. more.items ≡ longer texts.now) }
{
    let mut more = Vec::new(alloc);
    for text in texts {
        add_longer(alloc, text, &mut more)?;
    }
    Ok(more)
}

// Appends the text with each digit.
fn add_longer(alloc: Global, text: &Bytes, more: &mut Vec<Bytes>) -> Result<(), NoMemory>
    ensures { OnOk result (more.new.items ≡ more.old.items ++ map (λ x. text.now ++ x ∷ []) digits) }
{
    for digit in b"0123456789abcdef" {
        let mut longer = Vec::from_slice(alloc, text.as_slice())?;
        if longer.push(*digit).is_err() {
            return Err(NoMemory);
        }
        if more.push(Bytes::of(longer)).is_err() {
            return Err(NoMemory);
        }
    }
    Ok(())
}
