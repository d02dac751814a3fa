// How many items a worker deals with.
ghost use Rattle.std.specs.Prelude.{◌≡◌, ◌+◌, ◌<◌};
ghost use Rattle.keep_history.specs.Workers.{items_max};

/// A worker ends at the latest after so many items: 2^20.
pub const ITEMS_MAX: u64 = 1_048_576;

/// One more than a number of items at which no worker has ended.
pub(crate) fn one_more(items: u64) -> u64
    ensures { items < items_max → result ≡ items + 1 }
{
    items.saturating_add(1)
}
