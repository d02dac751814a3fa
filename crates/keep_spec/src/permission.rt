// The permission hint of a locator (Arvados).

/// A parsed permission hint.
#[derive(Clone, Copy, Debug, PartialEq, Eq)]
pub struct Permission {
    /// 40 hexadecimal digits in lower case.
    pub signature: [u8; 40],
    /// Seconds since 1970.
    pub expiry: u32,
}
