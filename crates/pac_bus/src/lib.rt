// Buses: what registers are read from and written to. The trait, three buses that stand for hardware (one
// gives zeros, one keeps bytes, one fails at will), a boxed bus of any kind, and the lines of events.
#![tactic(auto)]

mod access;
mod any_bus;
mod bus;
mod device_row;
mod event_lines;
mod fail_bus;
mod journal;
mod laws;
mod mem_bus;
mod store;
mod written;
mod zero_bus;

pub use access::{BusAccess, BusFailed, Preset};
pub use any_bus::AnyBus;
pub use bus::Bus;
pub use device_row::{DevField, DevFields, DevRow, DevRows};
pub use event_lines::events_text;
pub use fail_bus::FailBus;
pub use laws::{acts_law, memory_law};
pub use mem_bus::MemBus;
pub use zero_bus::ZeroBus;
