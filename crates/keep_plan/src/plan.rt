// The plan of a round.
ghost use Rattle.std.specs.Prelude.{◌≡◌, [], IfOk, length, map};
ghost use Rattle.keep_spec.specs.Members.{numbers_from};
ghost use Rattle.keep_event.specs.Plan.{planned_lists, lost};
ghost use Rattle.keep_plan.specs.Laws.{TrashIsOfOthers, TrashLeavesEnough, PullFillsGaps};

use crate::drafts::Draft;
use crate::groups::plan_mentions;
use crate::mentions::{mentions, sort_mentions};
use keep_config::Config;
use keep_event::Lists;
use keep_gather::Gather;
use keep_spec::{Digest, NoMemory};
use std::alloc::Global;

/// What a round decides.
#[derive(Drop, Debug)]
pub struct Plan {
    /// The trash list and the pull list of each device, in order of their numbers. Items ascend by digest.
    pub lists: Vec<Lists>,
    /// The digests of which copies are wanted and that no configured device gave, ascending.
    pub lost: Vec<Digest>,
}

impl Plan {
    /// The plan of what a round gathered: the project's own rule, after Arvados' keep-balance. Whether the scans are complete isn't tested: before they are, the
    /// plan trashes what later rows want, so no list of it may be sent. Of one device and digest the
    /// entry that was given last counts; a page of a device that isn't configured makes no holder. NoMemory is the only error.
    pub fn of(alloc: Global, gather: &Gather, config: &Config) -> Result<Plan, NoMemory>
        ensures lists { IfOk result (λ p. p.lists.items ≡ planned_lists config.now gather.now) }
        ensures trash { IfOk result (λ p. TrashIsOfOthers config.now gather.now p.lists.items) }
        ensures kept { IfOk result (λ p. TrashLeavesEnough config.now gather.now p.lists.items) }
        ensures pull { IfOk result (λ p. PullFillsGaps config.now gather.now p.lists.items) }
        ensures lost { IfOk result (λ p. p.lost.items ≡ lost config.now gather.now) }
    {
        let threshold = config.threshold(gather.started());
        let mut mentions = mentions(alloc, gather)?;
        sort_mentions(&mut mentions)?;
        let mut drafts = no_items(alloc, config.devices.len())?;
        let mut lost = Vec::new(alloc);
        plan_mentions(alloc, config, threshold, &mentions, &mut drafts, &mut lost)?;
        let lists = lists_of(alloc, drafts)?;
        Ok(Plan { lists, lost })
    }
}

/// Empty lists for so many devices.
fn no_items(alloc: Global, count: usize) -> Result<Vec<Draft>, NoMemory>
    ensures { IfOk result (λ v. v.items ≡ map (λ d. record { trash = []; pull = [] }) (numbers_from 0 count)) }
{
    let mut drafts = Vec::with_capacity(alloc, count)?;
    for _device in 0..count {
        if drafts.push(Draft::new(alloc)).is_err() {
            return Err(NoMemory);
        }
    }
    Ok(drafts)
}

fn lists_of(alloc: Global, drafts: Vec<Draft>) -> Result<Vec<Lists>, NoMemory>
    ensures { IfOk result (λ v. v.items ≡ drafts.items) }
{
    let mut lists = Vec::with_capacity(alloc, drafts.len())?;
    for draft in drafts {
        if lists.push(draft.into_lists()).is_err() {
            return Err(NoMemory);
        }
    }
    Ok(lists)
}
