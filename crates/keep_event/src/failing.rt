// A port some of whose calls fail.
ghost use Rattle.std.specs.Prelude.{◌≡◌, ◌≤◌, ◌+◌, Some, IfSome, if◌then◌else◌};
ghost use Rattle.keep_spec.specs.Causes.{counted, is_failing};
ghost use Rattle.keep_event.specs.Port.{new_plan};

use crate::{Port, PortError, Query, Reply};

/// A port over another, with a list of the calls that are to fail.
#[derive(Drop)]
pub struct FailingPort<P: Port> {
    port: P,
    failing: Vec<u64>,
    calls: u64,
    faults: u64,
}

impl<P: Port> FailingPort<P> {
    /// A port over `port` whose n-th call returns Failed, and asks nothing, exactly where n is in the list; calls are counted from 1. Its count of faults is that of `port` and of these calls together.
    pub fn new(port: P, failing: Vec<u64>) -> FailingPort<P>
        ensures told { ⟦<FailingPort<P> as Port>⟧.told result ≡ P.told port }
        ensures world { ⟦<FailingPort<P> as Port>⟧.world result ≡ P.world port }
        ensures stamp { ⟦<FailingPort<P> as Port>⟧.stamp result ≡ P.stamp port }
        ensures faults { ⟦<FailingPort<P> as Port>⟧.faults result ≡ P.faults port }
        ensures spent { ⟦<FailingPort<P> as Port>⟧.spent result ≡ P.spent port }
        ensures store_faults { ⟦<FailingPort<P> as Port>⟧.store_faults result ≡ P.store_faults port }
        ensures devices { ⟦<FailingPort<P> as Port>⟧.devices result ≡ P.devices port }
        ensures plan { ⟦<FailingPort<P> as Port>⟧.fault_plan result ≡ Some (new_plan failing.items (P.faults port)) }
    {
        FailingPort {
            port,
            failing,
            calls: 0,
            faults: 0,
        }
    }

    /// Returns the port below. Its count of faults is that of its own calls, which the plan told beside the failures that were planned.
    pub fn into_port(self) -> P
        ensures told { P.told result ≡ ⟦<FailingPort<P> as Port>⟧.told self }
        ensures world { P.world result ≡ ⟦<FailingPort<P> as Port>⟧.world self }
        ensures stamp { P.stamp result ≡ ⟦<FailingPort<P> as Port>⟧.stamp self }
        ensures faults { IfSome (⟦<FailingPort<P> as Port>⟧.fault_plan self) (λ p. P.faults result ≡ p.below) }
        ensures spent { P.spent result ≡ ⟦<FailingPort<P> as Port>⟧.spent self }
        ensures store_faults { P.store_faults result ≡ ⟦<FailingPort<P> as Port>⟧.store_faults self }
        ensures devices { P.devices result ≡ ⟦<FailingPort<P> as Port>⟧.devices self }
    {
        let FailingPort {
            port,
            failing: _,
            calls: _,
            faults: _,
        } = self;
        port
    }

    // Counts a call, and says whether it is to fail.
    fn is_failing(&mut self) -> bool
        ensures listed { result ≡ is_failing self.old.failing.items self.old.calls }
        ensures never_falls { self.old.faults ≤ self.new.faults }
        ensures counts { self.new ≡ record self.old { calls = counted self.old.calls; faults = if result then counted self.old.faults else self.old.faults } }
    {
        self.calls = self.calls.saturating_add(1);
        if self.failing.contains(&self.calls) {
            self.faults = self.faults.saturating_add(1);
            return true;
        }
        false
    }
}

impl<P: Port> Port for FailingPort<P> {
    ghost told = { λ p. P.told p.port };

    ghost world = { λ p. P.world p.port };

    ghost stamp = { λ p. P.stamp p.port };

    ghost faults = { λ p. P.faults p.port + p.faults };

    ghost spent = { λ p. P.spent p.port };

    ghost store_faults = { λ p. P.store_faults p.port };

    ghost devices = { λ p. P.devices p.port };

    ghost fault_plan = { λ p. Some (record { failing = p.failing.items; calls = p.calls; below = P.faults p.port }) };

    fn ask(&mut self, actor: u32, query: &Query) -> Result<Reply, PortError> {
        if self.is_failing() {
            return Err(PortError::Failed);
        }
        self.port.ask(actor, query)
    }
}
