// What a round gathers: each device is cleared, then each device's pages are taken.
ghost use Rattle.std.specs.Prelude.{◌≡◌};

use crate::answers::{disordered, refusal};
use crate::task::{BalanceTask, Place, clear_query};
use keep_event::{Answer, DeviceAnswer, Entry, Query, TableAnswer};
use keep_gather::Gather;
use keep_history::Outcome;
use keep_spec::NoMemory;

impl BalanceTask {
    ghost use Rattle.std.specs.Prelude.{◌≡◌, IfOk, OnErr};
    ghost use Rattle.keep_balance.specs.Gathering.{IsClearAfter, IsFirstPage, IsPageFrom, TakesBegun, TakesCleared, TakesPage, TakesPaged};
    ghost use Rattle.keep_history.specs.Balance.{disordered as disorder};

    // Takes the number of the round. The first device is cleared next.
    pub(crate) fn take_begun(&mut self, answer: &Answer)
        ensures taken { TakesBegun answer.now self.old self.new }
    {
        let Answer::Table(TableAnswer::Round { round, started }) = answer else {
            return;
        };
        self.gather = Gather::new(self.alloc, *round, *started);
        self.cleared_at = 0;
        if self.config.devices.len() == 0 {
            self.place = Place::Scan;
            self.query = self.scan_query();
        } else {
            self.place = Place::Clear { device: 0 };
            self.query = clear_query(*round, 0);
        }
    }

    // Takes a device's answer to its clear.
    pub(crate) fn take_cleared(
        &mut self,
        device: u32,
        answer: &Answer,
        tick: u64,
    ) -> Result<Option<Outcome>, NoMemory>
        ensures taken { IfOk result (λ end. TakesCleared device tick answer.now self.old self.new end) }
        ensures unchanged { OnErr result (self.new ≡ self.old) }
    {
        match answer {
            Answer::Device(DeviceAnswer::Cleared) => {
                let (place, query) = self.clear_after(device)?;
                self.cleared_at = self.cleared_at.max(tick);
                self.place = place;
                self.query = query;
                Ok(None)
            }
            _ => Ok(refusal(device, answer)),
        }
    }

    // The clear of the device after this one, or without one the first page.
    fn clear_after(&self, device: u32) -> Result<(Place, Query), NoMemory>
        ensures { IfOk result (λ asked. IsClearAfter self.now device asked.0 asked.1) }
    {
        match self.following(device) {
            Some(device) => Ok((
                Place::Clear { device },
                clear_query(self.gather.round(), device),
            )),
            None => self.pages_from(0, 0),
        }
    }

    // The page of a device by the number of its prefix, or the first that comes after it, or without one the first rows.
    fn pages_from(&self, device: u32, next: usize) -> Result<(Place, Query), NoMemory>
        ensures { IfOk result (λ asked. IsPageFrom self.now device next asked.0 asked.1) }
    {
        if let Some(asked) = self.page(device, next)? {
            return Ok(asked);
        }
        match self.following(device) {
            Some(device) => self.first_page(device),
            None => Ok((Place::Scan, self.scan_query())),
        }
    }

    // The first page of a device, or without one the first rows.
    fn first_page(&self, device: u32) -> Result<(Place, Query), NoMemory>
        ensures { IfOk result (λ asked. IsFirstPage self.now device asked.0 asked.1) }
    {
        match self.page(device, 0)? {
            Some(asked) => Ok(asked),
            None => Ok((Place::Scan, self.scan_query())),
        }
    }

    // Takes a device's answer where a page was asked.
    pub(crate) fn take_paged(
        &mut self,
        device: u32,
        next: usize,
        answer: &Answer,
        tick: u64,
    ) -> Result<Option<Outcome>, NoMemory>
        ensures taken { IfOk result (λ end. TakesPaged device next tick answer.now self.old self.new end) }
        ensures unchanged { OnErr result (self.new ≡ self.old) }
    {
        match answer {
            Answer::Device(DeviceAnswer::Page { entries }) => {
                self.take_page(device, next, entries.as_slice(), tick)
            }
            _ => Ok(refusal(device, answer)),
        }
    }

    // Takes a page, unless it came too early.
    fn take_page(
        &mut self,
        device: u32,
        next: usize,
        entries: &[Entry],
        tick: u64,
    ) -> Result<Option<Outcome>, NoMemory>
        ensures taken { IfOk result (λ end. TakesPage device next entries.now (disorder self.old.cleared_at tick) self.old self.new end) }
        ensures unchanged { OnErr result (self.new ≡ self.old) }
    {
        if let Some(end) = disordered(self.cleared_at, tick) {
            return Ok(Some(end));
        }
        let copy = Vec::from_slice(self.alloc, entries)?;
        let (place, query) = self.pages_from(device, next)?;
        self.gather.take_page(device, copy)?;
        self.place = place;
        self.query = query;
        Ok(None)
    }
}
