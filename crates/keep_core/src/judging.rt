// Whether each protected block is held.
ghost use Rattle.std.specs.Prelude.{◌≡◌, ℕ, List, Err, Option, not, reverse, filter, slice_get, IfOk};
ghost use Rattle.std.specs.BTreeSet.{contains};
ghost use Rattle.std.specs.Ordering.{nat_cmp};
ghost use Rattle.std.specs.Cmp.Lexicographic.{slice_cmp};
ghost use Rattle.keep_safety.specs.Allowed.{IsAllowed};
ghost use Rattle.keep_core.specs.Judged.{IsJudged, is_first, lacks};
ghost use Rattle.keep_safety.specs.Signatures.{IsUnforged};
ghost use Rattle.keep_safety.specs.Times.{IsSteady};
ghost use Rattle.keep_core.specs.Unheld.{is_held, protected_digests};

use crate::holding::held_by;
use crate::protection::protected;
use keep_config::Config;
use keep_event::Event;
use keep_spec::{Digest, NoMemory};
use std::alloc::Global;
use std::collections::BTreeSet;

/// Why a history isn't known to be safe.
#[derive(Clone, Copy, Debug, PartialEq, Eq)]
pub enum Unsafe {
    /// No device of the configuration holds this digest, the least of those that are protected and held nowhere.
    Unheld { digest: Digest },
    /// Memory was refused. This may come at any time, and says nothing of the history.
    NoMemory,
}

/// Whether after the events each digest that a held collection or a live signature names is held by a device of the configuration.
/// Returns Unheld with the least digest that isn't. On a history that may happen, with steady clocks and no forged signature, it never does.
pub fn safe_at(alloc: Global, config: &Config, events: &[Event]) -> Result<(), Unsafe>
    ensures exact { IsJudged config.now (reverse events.now) result }
    ensures never_unheld { IsAllowed config.now (reverse events.now) → IsSteady config.now (reverse events.now) → IsUnforged config.now (reverse events.now) → (digest : List ℕ) → result ≡ Err (Unsafe.Unheld digest) → ⊥ }
{
    match unheld(alloc, config, events) {
        Ok(digests) => first_unheld(&digests),
        Err(NoMemory) => Err(Unsafe::NoMemory),
    }
}

fn first_unheld(digests: &[Digest]) -> Result<(), Unsafe>
    ensures { is_first (slice_get digests.now 0) result }
{
    match digests.first() {
        None => Ok(()),
        Some(digest) => Err(Unsafe::Unheld { digest: *digest }),
    }
}

// The protected digests that no device holds, ascending.
fn unheld(alloc: Global, config: &Config, events: &[Event]) -> Result<Vec<Digest>, NoMemory>
    ensures { IfOk result (λ v. v.items ≡ filter (λ h. not (is_held config.now (reverse events.now) h)) (protected_digests config.now (reverse events.now))) }
{
    let mut unheld = protected(alloc, config, events)?;
    for device in 0..config.devices.len() as u32 {
        let held = held_by(alloc, events, device)?;
        unheld = without(alloc, unheld, &held)?;
    }
    Ok(unheld)
}

fn without(
    alloc: Global,
    digests: Vec<Digest>,
    held: &BTreeSet<Digest>,
) -> Result<Vec<Digest>, NoMemory>
    ensures { IfOk result (λ v. v.items ≡ filter (λ h. not (contains (slice_cmp nat_cmp) held.now h)) digests.items) }
{
    let mut left = Vec::new(alloc);
    for digest in digests {
        if !held.contains(&digest) && left.push(digest).is_err() {
            return Err(NoMemory);
        }
    }
    Ok(left)
}
