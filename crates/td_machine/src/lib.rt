//! The machine that the program stands in: its files, its clock and its sockets, as a trait that generic code is lent; and the
//! drive on which a database file stands, as another. Of both there is the machine itself, and one in memory, of which all is
//! known.
#![tactic(auto)]

mod around;
mod cache;
mod clock;
mod drive;
mod host;
mod host_drive;
mod laws;
mod machine;
mod memory;
mod memory_drive;

pub use around::Surroundings;
pub use clock::{FixedClock, MachineClock};
pub use drive::{Drive, OpenFileError, OpenedFile};
pub use host::HostMachine;
pub use host_drive::HostDrive;
pub use laws::clients_are_served_in_order;
pub use machine::{ListenError, Machine, ReadError};
pub use memory::{MemoryFile, MemoryIncoming, MemoryMachine};
pub use memory_drive::MemoryDrive;
