// What ended a version of a collection.

/// The update that superseded a version.
#[derive(Clone, Copy, Debug, PartialEq, Eq)]
pub struct Superseded {
    /// The reading of the update, in nanoseconds since 1970.
    pub at: u64,
    /// The update asked to keep the version as long as its collection.
    pub preserved: bool,
}
