// How an answer ends a round.
ghost use Rattle.std.specs.Prelude.{◌≡◌};
ghost use Rattle.keep_history.specs.Balance.{disordered};
ghost use Rattle.keep_balance.specs.Standing.{refused_by};

use keep_event::{Answer, DeviceAnswer};
use keep_history::Outcome;

/// The end of a round where a device keeps another, or its store failed.
pub(crate) fn refusal(device: u32, answer: &Answer) -> Option<Outcome>
    ensures { result ≡ refused_by device answer.now }
{
    match answer {
        Answer::Device(DeviceAnswer::Stale { held }) => Some(Outcome::Stale {
            device,
            held: *held,
        }),
        Answer::Device(DeviceAnswer::StoreFault) => Some(Outcome::StoreFault),
        _ => None,
    }
}

/// The end of a round where a page or rows came with a tick that isn't above the greatest of its clears.
pub(crate) fn disordered(earlier: u64, later: u64) -> Option<Outcome>
    ensures { result ≡ disordered earlier later }
{
    if earlier < later {
        None
    } else {
        Some(Outcome::Disordered { earlier, later })
    }
}
