// What answers queries: devices and a table, asked one query at a time.
ghost use Rattle.std.specs.Prelude.{◌≡◌, ℕ, ◌+◌, List, Option, Some, None, option_map, IfOk, IfSome};
ghost use Rattle.keep_event.specs.Answers.{IsAnswerOf};
ghost use Rattle.keep_event.specs.Port.{MayAsk, told_after, IsWorldAfter, Stamp, IsStamped, HasFailed, HasSpent, HasStoreFault, NoneFalls, FaultPlan, FollowsPlan};
ghost use Rattle.keep_event.specs.World.{World};
ghost use Rattle.keep_event.specs.declared.event.Event.{Event as TheEvent};

use crate::{Answer, Query};

/// An answer, with the number of its event and the reading of the clock at it (nanoseconds since 1970).
#[derive(Drop, Debug)]
pub struct Reply {
    /// The number of the event among all events, from 0.
    pub tick: u64,
    /// In nanoseconds since 1970.
    pub reading: u64,
    pub answer: Answer,
}

/// Why there is no reply. No event was made then, and devices and table are as before.
#[derive(Clone, Copy, Debug, PartialEq, Eq)]
pub enum PortError {
    /// What the port calls besides devices and table, such as a clock, has failed; the port counts it.
    Failed,
    /// All numbers of events were drawn, 2^40 of them; the port counts it.
    Spent { drawn: u64 },
    /// Memory was refused. Every contract permits it.
    NoMemory,
}

/// Devices and a table, which are asked one query at a time.
pub trait Port {
    /// The events so far; None where the type doesn't tell.
    ghost told: { Self → Option (List TheEvent) };

    /// The state of all devices and of the table, where it is known.
    ghost world: { Self → Option World };

    /// The tick and the reading of the next event, where they are known.
    ghost stamp: { Self → Option Stamp };

    /// How often it has failed. It stops at the greatest u64.
    ghost faults: { Self → ℕ };

    /// How often it has refused because all numbers were drawn. It stops at the greatest u64.
    ghost spent: { Self → ℕ };

    /// How often the store of a device has failed, by the device's number.
    ghost store_faults: { Self → ℕ → ℕ };

    /// The number of devices of its configuration.
    ghost devices: { Self → ℕ };

    /// Which calls are to fail, where that is planned.
    ghost fault_plan: { Self → Option FaultPlan } = { λ p. None };

    /// Asks a device or the table for an actor, and returns its answer: one event. The query is lent, and copied where the port keeps its events.
    /// The device is one of the configuration, the time from which a SetTrash puts a collection into the trash is a reading, and the limit of a Scan isn't 0.
    fn ask(&mut self, actor: u32, query: &Query) -> Result<Reply, PortError>
        requires { MayAsk (devices self.old) query.now }
        ensures told { told self.new ≡ told_after actor query.now (told self.old) result }
        ensures listed { IfOk result (λ r. IsAnswerOf query.now r.answer) }
        ensures world { IfSome (world self.old) (λ w. IsWorldAfter w (world self.new) query.now result) }
        ensures stamped { IfSome (stamp self.old) (λ s. IsStamped s (stamp self.new) result) }
        ensures failed { HasFailed (faults self.old) (faults self.new) result }
        ensures spent { HasSpent (spent self.old) (spent self.new) result }
        ensures store_failed { HasStoreFault (store_faults self.old) (store_faults self.new) query.now result }
        ensures store_faults_stay { NoneFalls (store_faults self.old) (store_faults self.new) }
        ensures planned { FollowsPlan (fault_plan self.old) (fault_plan self.new) result }
        ensures devices_stay { devices self.new ≡ devices self.old };
}
