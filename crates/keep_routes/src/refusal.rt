// Why a request isn't done.

/// Why a request asks nothing. They are tested in the order path, method, system token (where one is wanted), body.
#[derive(Clone, Copy, Debug, PartialEq, Eq)]
pub enum Refusal {
    /// The path names nothing.
    NoSuch,
    /// The path has no such method.
    BadMethod,
    /// The request wants the system token.
    Forbidden,
    /// A block is to be stored under a part that isn't a digest.
    BadLocator,
    /// The body isn't in the form.
    BadBody,
    /// The body isn't the lists of the device.
    BadList,
}
