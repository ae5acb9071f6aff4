// The object dictionary: values in its bytes, the flat table of its rows, its defaults.

#![tactic(auto)]

pub mod places; // where the values stand
pub mod objects; // the objects that the node itself reads and writes
pub mod records; // the records of the PDOs
pub mod choices; // modes of operation and transmission types
pub mod name; // the device name
mod values; // a value read and written at a place
mod table; // the rows, and the look-up by index and subindex
mod defaults; // the values after power-up

pub use defaults::{write_communication_defaults, write_defaults};
use rules_dictionary::{Access, Role};
pub use table::{find, seek};
pub use values::{read, read1, read2, read4, write, write1, write2, write4};

// A row of the table as a look-up finds it: its line, and where its value stands.
#[derive(Clone, Copy)]
pub struct Spot {
    line: u32,
    pub place: u16,
}

// A row taken apart: where its value stands and what it may be. `size` stays a number: it is compared with sizes of downloads and files, and added
// to places; `IsSize` says that it is 1, 2 or 4.
#[derive(Clone, Copy)]
pub struct Entry {
    pub place: u16,
    pub size: u8,
    pub access: Access,
    pub least: u32,
    pub greatest: u32,
    pub role: Role,
}

// What a look-up finds.
#[derive(Clone, Copy)]
pub enum Found {
    Row(Spot),
    DeviceName,
}

// Why it finds nothing.
#[derive(Clone, Copy, PartialEq, Eq)]
pub enum Missing {
    NoObject,
    NoSubindex,
}
