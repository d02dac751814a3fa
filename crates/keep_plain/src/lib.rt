//! Devices over plain lists: the device machine line by line, as it is read, with no index and no store, to compare devices over stores with.
#![tactic(auto)]

mod device;
mod devices;
mod held;
mod walks;

pub use device::PlainDevice;
pub use devices::PlainDevices;
