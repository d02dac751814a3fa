// The plan of a round: it is made with the last rows, and each device is handed its lists.
ghost use Rattle.keep_event.specs.declared.event.Answer.TheVariants as A;
ghost use Rattle.keep_event.specs.declared.table.TableAnswer.TheVariants as T;

use crate::answers::disordered;
use crate::copies::copy_rows;
use crate::task::{BalanceTask, Place};
use crate::totals::{pull_items, trash_items};
use keep_event::{DeviceAnswer, DeviceQuery, Query, ScanRow, TableAnswer};
use keep_gather::Gather;
use keep_history::Outcome;
use keep_plan::Plan;
use keep_spec::NoMemory;

impl BalanceTask {
    ghost use Rattle.std.specs.Prelude.{◌≡◌, ◌<◌, ◌≤◌, ◌+◌, ℕ, List, ◌∷◌, IfOk, IfSome, None, OnErr, OnOk, false, length};
    ghost use Rattle.keep_event.specs.Plan.{Scan, has_ended};
    ghost use Rattle.keep_gather.specs.Shown.{with_scans};
    ghost use Rattle.keep_history.specs.Balance.{Balancing};
    ghost use Rattle.keep_history.specs.declared.task.Outcome.TheVariants as O;
    ghost use Rattle.keep_balance.specs.Standing.{given, HandsOn, HasPlan, IsAfter, IsAt, IsHanding, IsPlanned, IsRead, Shows};
    ghost use Rattle.keep_balance.specs.declared.task.Place.TheVariants as P;

    // The end of a round whose devices have all answered their lists.
    fn balanced(&self) -> Outcome
        ensures { result ≡ O.Balanced self.now.gather.round self.now.trash self.now.pull self.now.lost self.now.stale }
    {
        Outcome::Balanced {
            round: self.gather.round(),
            trash: self.trash,
            pull: self.pull,
            lost: self.lost,
            stale: self.stale,
        }
    }

    // Asks the device to take the first of the lists that are left. Where none are left, the round has ended.
    fn hand_to(&mut self, device: u32) -> Option<Outcome>
        ensures handed { HandsOn device self.old self.new result }
        ensures config { self.new.config ≡ self.old.config }
    {
        let Some(lists) = self.left.pop() else {
            return Some(self.balanced());
        };
        self.place = Place::Accept { device };
        self.query = Query::Device(
            device,
            DeviceQuery::Accept {
                round: self.gather.round(),
                lists,
            },
        );
        None
    }

    // Makes the plan, and lets the pages and rows go. After NoMemory nothing has changed.
    fn make_plan(&mut self) -> Result<(), NoMemory>
        ensures planned { OnOk result (HasPlan self.old self.new) }
        ensures unchanged { OnErr result (self.new ≡ self.old) }
    {
        let plan = Plan::of(self.alloc, &self.gather, &self.config)?;
        let trash = trash_items(&plan.lists)?;
        let pull = pull_items(&plan.lists)?;
        self.trash = trash;
        self.pull = pull;
        self.lost = plan.lost.len() as u64;
        self.stale = 0;
        self.left = plan.lists;
        self.left.reverse();
        self.gather = Gather::new(self.alloc, self.gather.round(), self.gather.started());
        Ok(())
    }

    // Makes the plan, and asks the first device to take its lists. After NoMemory nothing has changed.
    fn plan(&mut self) -> Result<Option<Outcome>, NoMemory>
        ensures planned { IfOk result (λ end. IsPlanned self.old self.new end) }
        ensures config { IfOk result (λ _. self.new.config ≡ self.old.config) }
        ensures unchanged { OnErr result (self.new ≡ self.old) }
    {
        self.make_plan()?;
        Ok(self.hand_to(0))
    }

    // The device after this one, where there is one.
    pub(crate) fn following(&self, device: u32) -> Option<u32>
        ensures some { IfSome result (λ d. (d ≡ device + 1) × (d < length self.now.config.devices)) }
        ensures none { result ≡ None → length self.now.config.devices ≤ device + 1 }
    {
        let devices = self.config.devices.len();
        let next = device.checked_add(1)?;
        if (next as usize) < devices {
            Some(next)
        } else {
            None
        }
    }

    // Asks the device after this one to take its lists. Without one, the round has ended.
    fn hand_on(&mut self, device: u32) -> Option<Outcome>
        ensures handed { (s : Balancing) → IsHanding self.old (device + 1) s → IsAt self.old s self.new result }
        ensures config { self.new.config ≡ self.old.config }
    {
        match self.following(device) {
            Some(next) => self.hand_to(next),
            None => Some(self.balanced()),
        }
    }

    /// Takes what the device answered to its lists. One that refuses them is counted.
    pub(crate) fn take_accepted(&mut self, device: u32, answer: &DeviceAnswer) -> Option<Outcome>
        ensures taken { (tick : ℕ) → (s : Balancing) → Shows self.old s → self.old.place ≡ P.Accept device → IsAfter self.old (given tick (A.Device answer.now)) s self.new result }
        ensures config { self.new.config ≡ self.old.config }
    {
        match answer {
            DeviceAnswer::Accepted { trash: _, pull: _ } => self.hand_on(device),
            DeviceAnswer::Stale { held: _ } => {
                self.stale = self.stale.saturating_add(1);
                self.hand_on(device)
            }
            _ => None,
        }
    }

    // Makes the plan of all that was gathered. After NoMemory the latest rows are let go, so that they can be taken again.
    fn plan_or_untake(&mut self) -> Result<Option<Outcome>, NoMemory>
        ensures planned { IfOk result (λ end. IsPlanned self.old self.new end) }
        ensures config { IfOk result (λ _. self.new.config ≡ self.old.config) }
        ensures untaken { OnErr result ((s : Scan) → (earlier : List Scan) → self.old.gather.scans ≡ s ∷ earlier → self.new ≡ record self.old { gather = with_scans earlier self.old.gather }) }
    {
        match self.plan() {
            Ok(end) => Ok(end),
            Err(NoMemory) => {
                self.gather.untake_scan();
                Err(NoMemory)
            }
        }
    }

    // Keeps rows, and asks for the next ones or, after the last, makes the plan. After NoMemory nothing has changed.
    fn keep_rows(&mut self, rows: Vec<ScanRow>, last: bool) -> Result<Option<Outcome>, NoMemory>
        requires { has_ended self.old.gather.scans ≡ false }
        ensures read { IfOk result (λ end. IsRead last rows.items self.old self.new end) }
        ensures config { IfOk result (λ _. self.new.config ≡ self.old.config) }
        ensures unchanged { OnErr result (self.new ≡ self.old) }
    {
        let _scanned = self.gather.take_scan(rows, last)?;
        if last {
            self.plan_or_untake()
        } else {
            self.query = self.scan_query();
            Ok(None)
        }
    }

    // Takes rows that came with this tick, which must be above those of the clears. After NoMemory nothing has changed.
    fn take_rows(
        &mut self,
        rows: &[ScanRow],
        last: bool,
        tick: u64,
    ) -> Result<Option<Outcome>, NoMemory>
        ensures taken { IfOk result (λ end. (s : Balancing) → Shows self.old s → self.old.place ≡ P.Scan → IsAfter self.old (given tick (A.Table (T.Rows rows.now last))) s self.new end) }
        ensures config { IfOk result (λ _. self.new.config ≡ self.old.config) }
        ensures unchanged { OnErr result (self.new ≡ self.old) }
    {
        if let Some(end) = disordered(self.cleared_at, tick) {
            return Ok(Some(end));
        }
        if self.gather.scanned() {
            return Ok(None);
        }
        let rows = copy_rows(self.alloc, rows)?;
        self.keep_rows(rows, last)
    }

    /// Takes what the table answered to a scan. After NoMemory nothing has changed.
    pub(crate) fn take_scanned(
        &mut self,
        answer: &TableAnswer,
        tick: u64,
    ) -> Result<Option<Outcome>, NoMemory>
        ensures taken { IfOk result (λ end. (s : Balancing) → Shows self.old s → self.old.place ≡ P.Scan → IsAfter self.old (given tick (A.Table answer.now)) s self.new end) }
        ensures config { IfOk result (λ _. self.new.config ≡ self.old.config) }
        ensures unchanged { OnErr result (self.new ≡ self.old) }
    {
        match answer {
            TableAnswer::Rows { rows, last } => self.take_rows(rows.as_slice(), *last, tick),
            _ => Ok(None),
        }
    }
}
