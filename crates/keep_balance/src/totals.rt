// The numbers of items in lists.
ghost use Rattle.std.specs.Prelude.{◌≡◌, IfOk, length, sum_by};

use keep_event::Lists;
use keep_spec::NoMemory;

/// The number of trash items in all lists. NoMemory where it is above 2^64 - 1: no memory holds so many.
pub(crate) fn trash_items(lists: &[Lists]) -> Result<u64, NoMemory>
    ensures { IfOk result (λ n. n ≡ sum_by (λ l. length l.trash) lists.now) }
{
    let mut items: u64 = 0;
    for list in lists {
        let Some(sum) = items.checked_add(list.trash.len() as u64) else {
            return Err(NoMemory);
        };
        items = sum;
    }
    Ok(items)
}

/// The number of pull items in all lists, likewise.
pub(crate) fn pull_items(lists: &[Lists]) -> Result<u64, NoMemory>
    ensures { IfOk result (λ n. n ≡ sum_by (λ l. length l.pull) lists.now) }
{
    let mut items: u64 = 0;
    for list in lists {
        let Some(sum) = items.checked_add(list.pull.len() as u64) else {
            return Err(NoMemory);
        };
        items = sum;
    }
    Ok(items)
}
