// A port and a clock that watch how a session calls them.
ghost use Rattle.std.specs.Prelude.{◌≡◌, ◌+◌, None};

use keep_clock::{Clock, ListClock};
use keep_event::{Port, PortError, Query, Reply};
use keep_spec::Failed;

// How many events a port makes.
const MOST_EVENTS: u64 = 1_099_511_627_776;

/// A port over another that counts the queries for another actor than one. It refuses the query of one number, counted from 1, as if all numbers of events were drawn; 0 for none.
#[derive(Drop)]
pub struct WatchedPort<P: Port> {
    pub port: P,
    pub actor: u32,
    pub spends: u64,
    pub calls: u64,
    pub spent: u64,
    pub others: u64,
}

impl<P: Port> Port for WatchedPort<P> {
    ghost told = { λ p. P.told p.port };

    ghost world = { λ p. P.world p.port };

    ghost stamp = { λ p. None };

    ghost faults = { λ p. P.faults p.port };

    ghost spent = { λ p. P.spent p.port + p.spent };

    ghost store_faults = { λ p. P.store_faults p.port };

    ghost devices = { λ p. P.devices p.port };

    fn ask(&mut self, actor: u32, query: &Query) -> Result<Reply, PortError> {
        if actor != self.actor {
            self.others = self.others.saturating_add(1);
        }
        self.calls = self.calls.saturating_add(1);
        if self.calls == self.spends {
            self.spent = self.spent.saturating_add(1);
            return Err(PortError::Spent { drawn: MOST_EVENTS });
        }
        self.port.ask(actor, query)
    }
}

/// A clock over another that counts its calls, and those whose tick isn't the number of the call, from 0.
#[derive(Drop)]
pub struct WatchedClock {
    pub clock: ListClock,
    pub calls: u64,
    pub astray: u64,
}

impl Clock for WatchedClock {
    type Fault = Failed;

    ghost faults = { λ c. ⟦<ListClock as Clock>⟧.faults c.clock };

    ghost reading = { λ c. ⟦<ListClock as Clock>⟧.reading c.clock };

    fn now(&mut self, tick: u64) -> Result<u64, Failed> {
        if tick != self.calls {
            self.astray = self.astray.saturating_add(1);
        }
        self.calls = self.calls.saturating_add(1);
        self.clock.now(tick)
    }
}
