// The theorem on whole histories.
ghost use Rattle.keep_spec.specs.Config.{Configuration};
ghost use Rattle.keep_safety.specs.History.{HistoriesAreSafe};

/// Whatever may happen: each trash step leaves at least as many copies of its block as the collections of its round wanted. While clocks agree up to the
/// skew and no forged signature is accepted: after each event each block that a held collection or an unexpired signature names can be read on some device.
pub fn signatures_keep_blocks()
    ensures { (c : Configuration) → HistoriesAreSafe c }
{}
