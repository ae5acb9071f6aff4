// Why a request is refused, by the abort codes of SDO.
ghost use Rattle.std.specs.Prelude.{◌≡◌};
ghost use Rattle.sdo.specs.Verdicts.{abort_of_missing, code_of};

use dictionary::Missing;

#[derive(Clone, Copy, PartialEq, Eq)]
pub enum Abort {
    // The toggle is not that of the segment that is due.
    WrongToggle = 0x0503_0000,
    // The command is unknown, or no transfer of its direction runs.
    UnknownCommand = 0x0504_0001,
    // The entry is not writable.
    NoWriting = 0x0601_0002,
    // The index is not in the table.
    NoObject = 0x0602_0000,
    // The object may not be mapped so.
    NotMappable = 0x0604_0041,
    // The mapping is too long.
    OverLength = 0x0604_0042,
    // The minimum would be above the maximum.
    LimitsSwapped = 0x0604_0043,
    // The value is longer than the entry.
    TooLong = 0x0607_0012,
    // The value is shorter than the entry.
    TooShort = 0x0607_0013,
    // The object has no such subindex.
    NoSubindex = 0x0609_0011,
    // The value is bad for another reason.
    BadValue = 0x0609_0030,
    // The value is above the entry's range.
    AboveRange = 0x0609_0031,
    // The value is below the entry's range.
    BelowRange = 0x0609_0032,
    // The entry may not be written now.
    WrongTime = 0x0800_0022,
}

impl Abort {
    // Its code, as an abort sends it.
    pub fn code(self) -> u32
        ensures { result ≡ code_of self }
    {
        self as u32
    }
}

// What a look-up misses, as its abort tells it.
impl From<Missing> for Abort {
    ghost from_gives = { λ missing a. a ≡ abort_of_missing missing };

    fn from(missing: Missing) -> Abort {
        match missing {
            Missing::NoObject => Abort::NoObject,
            Missing::NoSubindex => Abort::NoSubindex,
        }
    }
}
