// What the definition of the plan means, beside the call.
ghost use Rattle.keep_plan.specs.Laws.{TrashItemsAreOfOthers, KeptHoldersAreEnough, PullItemsFillGaps};

/// A trash item names a device that gave the digest and isn't kept, with the time that it gave, which is below the round's
/// threshold.
pub fn trash_items_are_of_others()
    ensures { TrashItemsAreOfOthers }
{}

/// Where a trash item names a digest, at least as many devices are kept as the gathered rows want; these are distinct, and each
/// gave the digest.
pub fn kept_holders_are_enough()
    ensures { KeptHoldersAreEnough }
{}

/// A pull item names all configured devices that gave the digest, at least one, and goes to a target that lacks the block.
pub fn pull_items_fill_gaps()
    ensures { PullItemsFillGaps }
{}
