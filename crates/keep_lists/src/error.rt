// Why a text is refused.
use keep_spec::NoMemory;

/// A text that is no index, or memory was refused.
#[derive(Clone, Copy, Debug, PartialEq, Eq)]
pub enum IndexError {
    /// The first whole line that isn't in the form, isn't above the line before it, or follows the empty line: its offset in
    /// bytes.
    BadIndex { at: usize },
    /// No line is bad, and the text doesn't end with the empty line.
    CutIndex,
    /// Memory was refused.
    NoMemory,
}

impl From<NoMemory> for IndexError {
    ghost use Rattle.std.specs.Prelude.{◌≡◌};
    ghost use Rattle.keep_lists.specs.declared.error.IndexError.TheVariants as variant;

    ghost from_gives = { λ _ e. e ≡ variant.NoMemory };

    fn from(_error: NoMemory) -> IndexError {
        IndexError::NoMemory
    }
}

/// A text that isn't the lists of a device, or memory was refused.
#[derive(Clone, Copy, Debug, PartialEq, Eq)]
pub enum ListsError {
    /// The number of the first bad item, from 1, trash items first; 0 where the text isn't one object of exactly the two lists.
    BadList { item: u64 },
    /// Memory was refused.
    NoMemory,
}

impl From<NoMemory> for ListsError {
    ghost use Rattle.std.specs.Prelude.{◌≡◌};
    ghost use Rattle.keep_lists.specs.declared.error.ListsError.TheVariants as variant;

    ghost from_gives = { λ _ e. e ≡ variant.NoMemory };

    fn from(_error: NoMemory) -> ListsError {
        ListsError::NoMemory
    }
}
