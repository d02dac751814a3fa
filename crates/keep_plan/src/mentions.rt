// The places at which digests stand in what was gathered.
ghost use Rattle.std.specs.Prelude.{◌≡◌, ◌++◌, IfOk, OnOk, flat_map};
ghost use Rattle.std.specs.Ordering.{nat_cmp};
ghost use Rattle.std.specs.Cmp.Lexicographic.{slice_cmp};
ghost use Rattle.std.specs.List.Sorted.{IsSortedByKey, IsStableByKey};
ghost use Rattle.keep_gather.specs.Shown.{page_of, scan_of};
ghost use Rattle.keep_event.specs.Plan.{gathered_rows};
ghost use Rattle.keep_plan.specs.Mentions.{mentions_of, on_page, in_row};

use keep_event::ScanRow;
use keep_gather::{Gather, GivenPage, GivenScan};
use keep_spec::{Digest, NoMemory};
use std::alloc::Global;

/// Where a digest stands: in an entry of a page, or in a row of the table.
#[derive(Clone, Copy, Debug, PartialEq, Eq)]
pub enum Place {
    /// The size is in bytes, the time in nanoseconds since 1970.
    Held { device: u32, size: u64, mtime: u64 },
    /// So many copies are wanted.
    Wanted { want: u8 },
}

/// A digest at one place.
#[derive(Clone, Copy, Debug, PartialEq, Eq)]
pub struct Mention {
    pub digest: Digest,
    pub place: Place,
}

/// All mentions, in the order in which pages and rows were given.
pub fn mentions(alloc: Global, gather: &Gather) -> Result<Vec<Mention>, NoMemory>
    ensures { IfOk result (λ v. v.items ≡ mentions_of gather.now) }
{
    let mut mentions = Vec::new(alloc);
    push_pages(&mut mentions, gather.pages())?;
    push_scans(&mut mentions, gather.scans())?;
    Ok(mentions)
}

fn push_pages(mentions: &mut Vec<Mention>, pages: &[GivenPage]) -> Result<(), NoMemory>
    ensures { OnOk result (mentions.new.items ≡ mentions.old.items ++ flat_map (λ p. on_page (page_of p)) pages.now) }
{
    for page in pages {
        push_page(mentions, page)?;
    }
    Ok(())
}

fn push_page(mentions: &mut Vec<Mention>, page: &GivenPage) -> Result<(), NoMemory>
    ensures { OnOk result (mentions.new.items ≡ mentions.old.items ++ on_page (page_of page.now)) }
{
    let device = page.device;
    for entry in page.entries.as_slice() {
        let mention = Mention {
            digest: entry.digest,
            place: Place::Held {
                device,
                size: entry.size,
                mtime: entry.mtime,
            },
        };
        if mentions.push(mention).is_err() {
            return Err(NoMemory);
        }
    }
    Ok(())
}

fn push_scans(mentions: &mut Vec<Mention>, scans: &[GivenScan]) -> Result<(), NoMemory>
    ensures { OnOk result (mentions.new.items ≡ mentions.old.items ++ flat_map (λ s. flat_map in_row (scan_of s).rows) scans.now) }
{
    for scan in scans {
        push_rows(mentions, scan.rows.as_slice())?;
    }
    Ok(())
}

fn push_rows(mentions: &mut Vec<Mention>, rows: &[ScanRow]) -> Result<(), NoMemory>
    ensures { OnOk result (mentions.new.items ≡ mentions.old.items ++ flat_map in_row rows.now) }
{
    for row in rows {
        push_row(mentions, row)?;
    }
    Ok(())
}

fn push_row(mentions: &mut Vec<Mention>, row: &ScanRow) -> Result<(), NoMemory>
    ensures { OnOk result (mentions.new.items ≡ mentions.old.items ++ in_row row.now) }
{
    let want = row.want;
    for digest in row.digests.as_slice() {
        let mention = Mention {
            digest: *digest,
            place: Place::Wanted { want },
        };
        if mentions.push(mention).is_err() {
            return Err(NoMemory);
        }
    }
    Ok(())
}

/// Brings the mentions of each digest together, digests ascending. Those of one digest stay in their order.
pub fn sort_mentions(mentions: &mut Vec<Mention>) -> Result<(), NoMemory>
    ensures sorted { OnOk result (IsSortedByKey (λ m. m.digest) (slice_cmp nat_cmp) mentions.new.items) }
    ensures stable { IsStableByKey (λ m. m.digest) (slice_cmp nat_cmp) mentions.old.items mentions.new.items }
{
    match mentions.sort_by_key(|mention| mention.digest) {
        Ok(()) => Ok(()),
        Err(_) => Err(NoMemory),
    }
}
