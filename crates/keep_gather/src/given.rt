// One page and one scan, as they were given.
use keep_event::{Entry, ScanRow};
use keep_spec::Items;

/// A page that a device gave, by the device's number.
#[derive(Drop, Debug)]
pub struct GivenPage {
    pub device: u32,
    pub entries: Items<Entry>,
}

/// The rows that a scan of the table gave, above the revision `after`. `last` says that none was left.
#[derive(Drop, Debug)]
pub struct GivenScan {
    pub after: u64,
    pub rows: Items<ScanRow>,
    pub last: bool,
}
