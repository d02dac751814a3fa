// Clocks: over a list in memory, and what any other is to show.
ghost use Rattle.std.specs.Prelude.{◌≡◌, ℕ, ◌+◌, All, Option, Some, IfOk, length, slice_index};
ghost use Rattle.keep_spec.specs.Causes.{HasCause};
ghost use Rattle.keep_spec.specs.Times.{IsReading};
ghost use Rattle.keep_clock.specs.Readings.{Readings, IsRead};

use keep_spec::Failed;

/// A type without values: the fault of a clock that never fails.
#[derive(Drop)]
pub enum Never {}

/// Returns the time, in nanoseconds since 1970 (UTC), below `READING_END`.
pub trait Clock {
    /// What a failed call returns.
    type Fault: Drop;

    /// How often a call has failed. It never falls, and stays at the end of a `u64`.
    ghost faults: { Self → ℕ };

    /// What `now` returns at a tick after that many more calls that answer, if the clock tells it.
    ghost reading: { Self → Option Readings };

    /// The reading at a tick, which is the caller's count of what happened before. A failed call raises `faults` and leaves the later readings as they were; the clock may be called again.
    fn now(&mut self, tick: u64) -> Result<u64, Self::Fault>
        ensures bound { IfOk result IsReading }
        ensures cause { HasCause (faults self.old) (faults self.new) result }
        ensures reading { IsRead (reading self.old) (reading self.new) tick result };
}

/// A clock in memory that returns the readings of a list in order, whatever the tick. Some of its calls fail, by their numbers, and each call does once the list has ended.
#[derive(Drop)]
pub struct ListClock {
    readings: Vec<u64>,
    at: usize,
    failing: Vec<u64>,
    made: u64,
    faults: u64,
    ghost bounded: { All IsReading readings.items },
}

impl ListClock {
    ghost use Rattle.keep_clock.specs.ListClocks.{clock_calls, clock_failing, clock_left};

    /// A clock of these readings. The calls of the numbers in `failing` fail, counted from 1, in any order.
    pub fn new(readings: Vec<u64>, failing: Vec<u64>) -> ListClock
        requires { All IsReading readings.items }
        ensures faults { ⟦<ListClock as Clock>⟧.faults result ≡ 0 }
        ensures reading { ⟦<ListClock as Clock>⟧.reading result ≡ Some (λ tick k. slice_index readings.items k) }
        ensures left { clock_left result ≡ length readings.items }
        ensures calls { clock_calls result ≡ 0 }
        ensures failing { clock_failing result ≡ failing.items }
    {
        ListClock {
            readings,
            at: 0,
            failing,
            made: 0,
            faults: 0,
        }
    }
}

impl Clock for ListClock {
    ghost use Rattle.std.specs.Prelude.{◌||◌, ◌==◌, ◌-◌, is_err, if◌then◌else◌};
    ghost use Rattle.keep_spec.specs.Causes.{counted, is_failing};
    ghost use Rattle.keep_clock.specs.ListClocks.{clock_left, clock_faults, clock_calls, clock_failing};

    type Fault = Failed;

    ghost faults = { λ c. clock_faults c };

    ghost reading = { λ c. Some (λ tick k. slice_index c.readings.items (k + c.at)) };

    /// Fails exactly where its number is in the list or no reading is left; each failure is counted, and takes no reading.
    fn now(&mut self, _tick: u64) -> Result<u64, Failed>
        ensures bound { IfOk result IsReading }
        ensures cause { HasCause (clock_faults self.old) (clock_faults self.new) result }
        ensures reading { IsRead (⟦<ListClock as Clock>⟧.reading self.old) (⟦<ListClock as Clock>⟧.reading self.new) _tick result }
        ensures fails_as_listed { is_err result ≡ (is_failing (clock_failing self.old) (clock_calls self.old) || clock_left self.old == 0) }
        ensures faults_counted { clock_faults self.new ≡ (if is_err result then counted (clock_faults self.old) else clock_faults self.old) }
        ensures calls_counted { clock_calls self.new ≡ counted (clock_calls self.old) }
        ensures list_stays { clock_failing self.new ≡ clock_failing self.old }
        ensures left_counted { clock_left self.new ≡ (if is_err result then clock_left self.old else clock_left self.old - 1) }
    {
        self.made = self.made.saturating_add(1);
        if self.failing.contains(&self.made) || self.at >= self.readings.len() {
            self.faults = self.faults.saturating_add(1);
            return Err(Failed);
        }
        let reading = self.readings[self.at];
        self.at += 1;
        Ok(reading)
    }
}
