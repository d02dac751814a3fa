// Queries, their answers, and the record of both.
use crate::{DeviceAnswer, DeviceQuery, TableAnswer, TableQuery};
use keep_spec::Items;

/// A query to one place.
#[derive(Drop, Debug)]
pub enum Query {
    /// To a device, by its number in the configuration.
    Device(u32, DeviceQuery),
    /// To the table of collections.
    Table(TableQuery),
}

/// The answer of the place that was asked.
#[derive(Drop, Debug)]
pub enum Answer {
    /// Of a device.
    Device(DeviceAnswer),
    /// Of the table of collections.
    Table(TableAnswer),
}

/// A query and its answer.
#[derive(Drop, Debug)]
pub struct Event {
    /// The number of the event among all events, from 0.
    pub tick: u64,
    /// What the clock said, in nanoseconds since 1970.
    pub reading: u64,
    /// Who asked.
    pub actor: u32,
    pub query: Query,
    pub answer: Answer,
}

/// Where events happen.
#[derive(Clone, Copy, Debug, PartialEq, Eq)]
pub enum Place {
    /// At a device, by its number in the configuration.
    Device(u32),
    /// At the table of collections.
    Table,
}

/// The events of one place in the order of their ticks.
#[derive(Drop, Debug)]
pub struct Journal {
    pub place: Place,
    pub events: Items<Event>,
}
