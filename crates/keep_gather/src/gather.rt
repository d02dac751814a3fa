// The pages and scans of one round.
ghost use Rattle.std.specs.Prelude.{◌≡◌};
ghost use Rattle.keep_event.specs.Plan.{last_revision};

use crate::{GivenPage, GivenScan};
use keep_event::{Entry, ScanRow};
use keep_spec::{Items, NoMemory};
use std::alloc::Global;
use std::marker::Model;

/// How far the scans of a round have come: whether another is to be asked for the rows above a revision.
#[derive(Clone, Copy, Debug, PartialEq, Eq)]
pub enum Scanned {
    /// The next scan is to be asked above this revision.
    More { after: u64 },
    /// The scans have come to the end.
    Complete,
}

/// What a round was given, seen as its number, the reading at which it began in nanoseconds since 1970, its pages and its
/// scans, each with the latest first. Nothing is merged, so the round can be told again from it.
#[derive(Drop, Debug)]
pub struct Gather {
    round: u64,
    started: u64,
    pages: Vec<GivenPage>,
    scans: Vec<GivenScan>,
}

impl Model for Gather {
    ghost use Rattle.keep_event.specs.Plan.{Gathered};

    ghost Value = { Gathered };

    ghost use Rattle.keep_gather.specs.Shown.{shown};

    ghost view = { λ g. shown g.round g.started g.pages.items g.scans.items };
}

impl Gather {
    ghost use Rattle.std.specs.Prelude.{◌≡◌, ◌∷◌, IfOk, List, OnErr, OnOk, false, map, reverse};
    ghost use Rattle.keep_event.specs.Plan.{Scan, nothing_gathered, with_page, with_scan, has_ended, reached};
    ghost use Rattle.keep_gather.specs.Shown.{page_of, scan_of, with_scans};
    ghost use Rattle.keep_gather.specs.Scanned.{scanned_by};

    /// A round of which nothing is gathered yet. `started` is the reading at which it began, in nanoseconds since 1970. Takes no memory.
    pub fn new(alloc: Global, round: u64, started: u64) -> Gather
        ensures { result ≡ nothing_gathered round started }
    {
        Gather {
            round,
            started,
            pages: Vec::new(alloc),
            scans: Vec::new(alloc),
        }
    }

    /// Takes a page that a device gave. Pages are kept as they were given; the plan lets a later entry of one device and digest count. After NoMemory the
    /// entries are let go, and the gather is as before.
    pub fn take_page(&mut self, device: u32, entries: Vec<Entry>) -> Result<(), NoMemory>
        ensures ok { OnOk result (self.new ≡ with_page (record { device = device; entries = entries.items }) self.old) }
        ensures err { OnErr result (self.new ≡ self.old) }
    {
        let page = GivenPage {
            device,
            entries: Items::of(entries),
        };
        match self.pages.push(page) {
            Ok(()) => Ok(()),
            Err(_) => Err(NoMemory),
        }
    }

    /// Takes the rows that the next scan gave, asked above the revision that the answer before named, or above 0.
    /// Returns `More` with the last revision given, or with the one after which it was asked where no row was given, and `Complete` for the last scan, after which none
    /// is taken. After NoMemory the rows are let go, and the gather is as before.
    pub fn take_scan(&mut self, rows: Vec<ScanRow>, last: bool) -> Result<Scanned, NoMemory>
        requires { has_ended self.old.scans ≡ false }
        ensures ok { OnOk result (self.new ≡ with_scan (record { after = reached self.old.scans; rows = rows.items; last = last }) self.old) }
        ensures answer { IfOk result (λ s. s ≡ scanned_by self.new.scans) }
        ensures err { OnErr result (self.new ≡ self.old) }
    {
        let scan = GivenScan {
            after: self.reached(),
            rows: Items::of(rows),
            last,
        };
        match self.scans.push(scan) {
            Ok(()) => Ok(self.state()),
            Err(_) => Err(NoMemory),
        }
    }

    /// Lets the rows of the latest scan go, so that it can be taken again.
    pub fn untake_scan(&mut self)
        ensures { (s : Scan) → (earlier : List Scan) → self.old.scans ≡ s ∷ earlier → self.new ≡ with_scans earlier self.old }
    {
        let _ = self.scans.pop();
    }

    /// Whether the scans have come to the end. Then no other is taken.
    pub fn scanned(&self) -> bool
        ensures { result ≡ has_ended self.now.scans }
    {
        match self.scans.last() {
            None => false,
            Some(scan) => scan.last,
        }
    }

    /// The revision above which the next scan is asked.
    pub fn reached(&self) -> u64
        ensures { result ≡ reached self.now.scans }
    {
        match self.scans.last() {
            None => 0,
            Some(scan) => last_revision(scan.after, scan.rows.as_slice()),
        }
    }

    fn state(&self) -> Scanned
        ensures { result ≡ scanned_by self.now.scans }
    {
        if self.scanned() {
            Scanned::Complete
        } else {
            Scanned::More {
                after: self.reached(),
            }
        }
    }

    /// The round's number.
    pub fn round(&self) -> u64
        ensures { result ≡ self.now.round }
    {
        self.round
    }

    /// The reading at which the round began, in nanoseconds since 1970.
    pub fn started(&self) -> u64
        ensures { result ≡ self.now.started }
    {
        self.started
    }

    /// The pages in the order in which they were given.
    pub fn pages(&self) -> &[GivenPage]
        ensures { map page_of (reverse result.now) ≡ self.now.pages }
    {
        &self.pages
    }

    /// The scans in the order in which they were given.
    pub fn scans(&self) -> &[GivenScan]
        ensures { map scan_of (reverse result.now) ≡ self.now.scans }
    {
        &self.scans
    }
}

fn last_revision(after: u64, rows: &[ScanRow]) -> u64
    ensures { result ≡ last_revision after rows.now }
{
    match rows.last() {
        None => after,
        Some(row) => row.revision,
    }
}
