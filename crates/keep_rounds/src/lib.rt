//! Balance tasks that run at the same time as one another and as other tasks: that what happens is allowed, and so is safe; that each asks in order, and ends.
#![tactic(auto)]

ghost use Rattle.keep_rounds.specs.Finish.{TasksEnd};
ghost use Rattle.keep_rounds.specs.Interleaved.{RunsAreAllowed};
ghost use Rattle.keep_rounds.specs.Late.{DisorderIsLate};
ghost use Rattle.keep_rounds.specs.Order.{RoundsAreInOrder};
ghost use Rattle.keep_rounds.specs.Safe.{RunsAreSafe};
ghost use Rattle.keep_spec.specs.Config.{Configuration};

/// Whatever balance tasks and other tasks run at the same time, step by step in any order: what has happened is allowed, each balance task has of its
/// round all that happened of it, no two have one round, and none meets ticks out of order.
pub fn runs_are_allowed()
    ensures { (c : Configuration) → RunsAreAllowed c }
{}

/// So each trash step leaves enough, and while clocks agree up to the skew and no forged signature is accepted, what they leave is safe.
pub fn runs_are_safe()
    ensures { (c : Configuration) → RunsAreSafe c }
{}

/// Whatever a balance task is answered: it asks in order, and where it sends lists, its round is whole, and they are its plan's.
pub fn rounds_are_in_order()
    ensures { (c : Configuration) → RoundsAreInOrder c }
{}

/// A balance task that is asked with nothing in between comes to its end, wherever stores fail.
pub fn tasks_end()
    ensures { (c : Configuration) → TasksEnd c }
{}

/// A balance task ends because of two ticks out of order exactly where a page or rows came with a tick that isn't above the greatest of its clears.
pub fn disorder_is_late()
    ensures { (c : Configuration) → DisorderIsLate c }
{}
