// The walk over devices.
ghost use Rattle.std.specs.Prelude.{◌≡◌, ◌<◌, ℕ, ◌∷◌, ◌++◌, [], List, All, true, false, IfSome, None};
ghost use Rattle.keep_event.specs.declared.event.Answer.{Answer as TheAnswer};
ghost use Rattle.keep_event.specs.declared.device.DeviceQuery.{DeviceQuery as TheDeviceQuery};
ghost use Rattle.keep_tasks.specs.Walks.{IsAt, IsOver, AreBelow, at_device};

use crate::seen::Seen;
use keep_event::{Answer, DeviceQuery, Query};

/// A query that devices are asked in turn.
#[derive(Drop, Debug)]
pub(crate) struct Walk {
    /// To the device whose turn it is.
    pub(crate) query: Query,
    /// The devices whose turn comes after it.
    pub(crate) left: Vec<u32>,
    /// What the devices before it answered.
    pub(crate) seen: Seen,
}

// Asks another device the same.
fn set_device(query: &mut Query, next: u32)
    ensures { query.new ≡ at_device next query.old }
{
    match query {
        Query::Device(device, _) => *device = next,
        Query::Table(_) => {}
    }
}

impl Walk {
    /// Before the first of the devices is asked. None: there are no devices.
    pub(crate) fn begin(mut devices: Vec<u32>, query: DeviceQuery) -> Option<Walk>
        ensures at { IfSome result (λ w. IsAt w query [] devices.items) }
        ensures below { IfSome result (λ w. (n : ℕ) → All (λ d. d < n) devices.items → AreBelow n w) }
        ensures none { result ≡ None → devices.items ≡ [] }
    {
        if devices.is_empty() {
            return None;
        }
        let first = devices.remove(0);
        Some(Walk {
            query: Query::Device(first, query),
            left: devices,
            seen: Seen::none(),
        })
    }

    /// Takes the answer of the device whose turn it was, and goes to the next. False: it was the last.
    pub(crate) fn advance(&mut self, answer: &Answer) -> bool
        ensures moved { result ≡ true → (query : TheDeviceQuery) → (seen : List TheAnswer) → (devices : List ℕ) → IsAt self.old query seen devices → IsAt self.new query (seen ++ answer.now ∷ []) self.old.left.items }
        ensures over { result ≡ false → (query : TheDeviceQuery) → (seen : List TheAnswer) → (devices : List ℕ) → IsAt self.old query seen devices → (self.old.left.items ≡ []) × IsOver self.new query (seen ++ answer.now ∷ []) }
        ensures below { (n : ℕ) → AreBelow n self.old → AreBelow n self.new }
    {
        self.seen.add(answer);
        if self.left.is_empty() {
            return false;
        }
        let device = self.left.remove(0);
        set_device(&mut self.query, device);
        true
    }
}
