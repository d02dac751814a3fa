// The plan of mentions, digest by digest.
ghost use Rattle.std.specs.Prelude.{◌≡◌, ◌++◌, ◌∷◌, [], OnOk, bytes_eq, length, map, if◌then◌else◌};
ghost use Rattle.std.specs.Ordering.{nat_cmp};
ghost use Rattle.std.specs.Cmp.Lexicographic.{slice_cmp};
ghost use Rattle.std.specs.List.{prefix_len};
ghost use Rattle.std.specs.List.Sorted.{IsSortedByKey};
ghost use Rattle.keep_spec.specs.Members.{numbers_from};
ghost use Rattle.keep_event.specs.Plan.{is_lost};
ghost use Rattle.keep_plan.specs.Drafted.{each_from, with_digest};
ghost use Rattle.keep_plan.specs.Mentions.{holding_by};
ghost use Rattle.keep_plan.specs.Planned.{digests_in, holding_in, lists_by, lost_by};

use crate::decide::decide;
use crate::drafts::Draft;
use crate::give::give_all;
use crate::mentions::Mention;
use keep_config::Config;
use keep_event::Entry;
use keep_spec::{Digest, NoMemory};
use std::alloc::Global;

/// Fills the lists of all devices, which are empty, by sorted mentions, and writes down the lost digests.
pub fn plan_mentions(
    alloc: Global,
    config: &Config,
    threshold: u64,
    mentions: &[Mention],
    drafts: &mut [Draft],
    lost: &mut Vec<Digest>,
) -> Result<(), NoMemory>
    requires sorted { IsSortedByKey (λ m. m.digest) (slice_cmp nat_cmp) mentions.now }
    requires no_items { drafts.old ≡ map (λ d. record { trash = []; pull = [] }) (numbers_from 0 (length config.now.devices)) }
    requires none_lost { lost.old.items ≡ [] }
    ensures lists { OnOk result (drafts.new ≡ map (lists_by (holding_in config.now mentions.now) threshold (digests_in mentions.now)) (numbers_from 0 (length config.now.devices))) }
    ensures lost { OnOk result (lost.new.items ≡ lost_by (holding_in config.now mentions.now) (digests_in mentions.now)) }
{
    let mut entries: Vec<Option<Entry>> = vec![in alloc; None; config.devices.len()]?;
    plan_runs(
        alloc,
        config,
        threshold,
        mentions,
        entries.as_mut_slice(),
        drafts,
        lost,
    )
}

/// The same, with a place for the entry of each device.
fn plan_runs(
    alloc: Global,
    config: &Config,
    threshold: u64,
    mentions: &[Mention],
    entries: &mut [Option<Entry>],
    drafts: &mut [Draft],
    lost: &mut Vec<Digest>,
) -> Result<(), NoMemory>
    requires sorted { IsSortedByKey (λ m. m.digest) (slice_cmp nat_cmp) mentions.now }
    requires entries { length entries.old ≡ length config.now.devices }
    requires no_items { drafts.old ≡ map (λ d. record { trash = []; pull = [] }) (numbers_from 0 (length config.now.devices)) }
    requires none_lost { lost.old.items ≡ [] }
    ensures lists { OnOk result (drafts.new ≡ map (lists_by (holding_in config.now mentions.now) threshold (digests_in mentions.now)) (numbers_from 0 (length config.now.devices))) }
    ensures lost { OnOk result (lost.new.items ≡ lost_by (holding_in config.now mentions.now) (digests_in mentions.now)) }
{
    let mut rest = mentions;
    while let Some(first) = rest.first() {
        let digest = first.digest;
        let (run, later) = rest.split_at(count_of(digest, rest));
        plan_digest(alloc, config, threshold, digest, run, entries, drafts, lost)?;
        rest = later;
    }
    Ok(())
}

/// How many mentions at the front are of a digest.
fn count_of(digest: Digest, mentions: &[Mention]) -> usize
    ensures { result ≡ prefix_len (λ m. bytes_eq digest m.digest) mentions.now }
{
    for (count, mention) in mentions.iter().enumerate() {
        if digest != mention.digest {
            return count;
        }
    }
    mentions.len()
}

/// Plans one digest by all its mentions. `entries` has a place for each device; what it holds doesn't count.
fn plan_digest(
    alloc: Global,
    config: &Config,
    threshold: u64,
    digest: Digest,
    mentions: &[Mention],
    entries: &mut [Option<Entry>],
    drafts: &mut [Draft],
    lost: &mut Vec<Digest>,
) -> Result<(), NoMemory>
    requires entries { length entries.old ≡ length config.now.devices }
    requires drafts { length drafts.old ≡ length config.now.devices }
    ensures lists { OnOk result (drafts.new ≡ each_from 0 (with_digest threshold (holding_by config.now digest mentions.now)) drafts.old) }
    ensures lost { OnOk result (lost.new.items ≡ lost.old.items ++ (if is_lost (holding_by config.now digest mentions.now) then digest ∷ [] else [])) }
{
    let decision = decide(alloc, config, digest, mentions, entries)?;
    if decision.is_lost() && lost.push(digest).is_err() {
        return Err(NoMemory);
    }
    give_all(alloc, config, threshold, &decision, entries, drafts)
}
