// The fault of what stands outside: a source, a sink, a store.

/// A call to the outside failed. What was called counts it among its faults. A store, and a sink or source in memory, is unchanged.
#[derive(Clone, Copy, Debug, PartialEq, Eq)]
pub struct Failed;
