// The balance task.
ghost use Rattle.std.specs.Prelude.{◌≡◌};
ghost use Rattle.keep_event.specs.declared.device.DeviceQuery.TheVariants as DQ;
ghost use Rattle.keep_event.specs.declared.event.Query.TheVariants as Q;

use keep_config::Config;
use keep_event::{DeviceQuery, Lists, Query, TableQuery};
use keep_gather::Gather;
use keep_spec::{Bytes, NoMemory};
use std::alloc::Global;

/// What a round asks next.
#[derive(Clone, Copy, Debug)]
pub(crate) enum Place {
    /// The number of the round.
    Begin,
    /// That the device begins the round.
    Clear { device: u32 },
    /// A page of the device. `next` is the number of the prefix after it.
    Page { device: u32, next: usize },
    /// Rows of the table.
    Scan,
    /// That the device takes its lists.
    Accept { device: u32 },
}

/// A balance round: it draws the round's number, clears each device, takes each device's pages, scans the table to its end, and sends each device its lists.
/// Until the plan is made it keeps what was gathered, from then on the lists that no device was sent yet.
#[derive(Drop)]
pub struct BalanceTask {
    pub(crate) alloc: Global,
    pub(crate) config: Config,
    /// All prefixes by which pages are asked for, ascending.
    pub(crate) prefixes: Vec<Bytes>,
    pub(crate) place: Place,
    pub(crate) query: Query,
    pub(crate) gather: Gather,
    /// The greatest tick of the round's clears.
    pub(crate) cleared_at: u64,
    /// The lists of the devices after this one, the last device's first.
    pub(crate) left: Vec<Lists>,
    pub(crate) trash: u64,
    pub(crate) pull: u64,
    pub(crate) lost: u64,
    /// How many devices refused their lists.
    pub(crate) stale: u64,
    pub(crate) ended: bool,
}

pub(crate) fn clear_query(round: u64, device: u32) -> Query
    ensures { result ≡ Q.Device device (DQ.Clear round) }
{
    Query::Device(device, DeviceQuery::Clear { round })
}

impl BalanceTask {
    ghost use Rattle.std.specs.Prelude.{◌+◌, IfOk, option_map, slice_get};
    ghost use Rattle.keep_event.specs.Plan.{reached};
    ghost use Rattle.keep_event.specs.declared.table.TableQuery.TheVariants as TQ;
    ghost use Rattle.keep_balance.specs.declared.task.Place.TheVariants as P;

    // The page of a device by the number of its prefix, if there is one.
    pub(crate) fn page(
        &self,
        device: u32,
        prefix: usize,
    ) -> Result<Option<(Place, Query)>, NoMemory>
        ensures { IfOk result (λ o. o ≡ option_map (λ text. (P.Page device (prefix + 1), Q.Device device (DQ.Page self.now.gather.round text))) (slice_get self.now.prefixes.items prefix)) }
    {
        let Some(text) = self.prefixes.as_slice().get(prefix) else {
            return Ok(None);
        };
        let place = Place::Page {
            device,
            next: prefix + 1,
        };
        let query = DeviceQuery::Page {
            round: self.gather.round(),
            prefix: text.duplicate(self.alloc)?,
        };
        Ok(Some((place, Query::Device(device, query))))
    }

    pub(crate) fn scan_query(&self) -> Query
        ensures { result ≡ Q.Table (TQ.Scan self.now.gather.round (reached self.now.gather.scans) self.now.config.scan_limit) }
    {
        Query::Table(TableQuery::Scan {
            round: self.gather.round(),
            after: self.gather.reached(),
            limit: self.config.scan_limit,
        })
    }
}
