// The items that a decision gives to the devices.
ghost use Rattle.std.specs.Prelude.{◌≡◌, OnOk};
ghost use Rattle.keep_plan.specs.Decided.{with_decided};
ghost use Rattle.keep_plan.specs.Drafted.{each_from};

use crate::decide::{entry, is_writable};
use crate::decision::Decision;
use crate::drafts::Draft;
use keep_config::Config;
use keep_event::Entry;
use keep_spec::NoMemory;
use std::alloc::Global;

/// Gives each device the items that a decision has for it, after those that it has.
pub fn give_all(
    alloc: Global,
    config: &Config,
    threshold: u64,
    decision: &Decision,
    entries: &[Option<Entry>],
    drafts: &mut [Draft],
) -> Result<(), NoMemory>
    ensures { OnOk result (drafts.new ≡ each_from 0 (with_decided decision.now config.now threshold entries.now) drafts.old) }
{
    for place in 0..drafts.len() {
        let Ok(device) = u32::try_from(place) else {
            return Err(NoMemory);
        };
        give(
            alloc,
            config,
            threshold,
            decision,
            entries,
            device,
            &mut drafts[place],
        )?;
    }
    Ok(())
}

fn give(
    alloc: Global,
    config: &Config,
    threshold: u64,
    decision: &Decision,
    entries: &[Option<Entry>],
    device: u32,
    draft: &mut Draft,
) -> Result<(), NoMemory>
    ensures { OnOk result (draft.new ≡ with_decided decision.now config.now threshold entries.now device draft.old) }
{
    let entry = entry(entries, device);
    let trash = decision.trash_item(device, &entry, is_writable(config, device), threshold);
    let pull = decision.pull_item(alloc, device, &entry)?;
    draft.take(trash, pull)
}
