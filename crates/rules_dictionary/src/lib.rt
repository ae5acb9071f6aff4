// Document 01, 'The node' and 'The dictionary', and what of 'SDO' and 'PDO traffic' follows from the dictionary alone: definitions and
// their laws, in specs/ and proofs/. Here stand the types that they are about.

#![tactic(auto)]

ghost use Rattle.std.specs.Prelude.{◌≡◌};
ghost use Rattle.rules_dictionary.specs.Legal.{mode_number};

// The modes of operation, each by its number ..
#[derive(Clone, Copy, Debug, PartialEq, Eq)]
pub enum Mode {
    NoMode = 0,
    ProfilePosition = 1,
    ProfileVelocity = 3,
}

// .. in 6060h and 6061h, also where a number may be none of a mode.
// `Mode` has no TryFrom beside `number`: the definition `mode_of` gives every other number `NoMode`, so no caller would have an error to tell.
pub const NO_MODE: u8 = Mode::NoMode as u8;

pub const PROFILE_POSITION: u8 = Mode::ProfilePosition as u8;

pub const PROFILE_VELOCITY: u8 = Mode::ProfileVelocity as u8;

impl Mode {
    // Its number.
    pub fn number(self) -> u8
        ensures { result ≡ mode_number self }
    {
        self as u8
    }
}

// Who writes a row's value: nobody, the node, or an SDO or PDO too.
#[derive(Clone, Copy, Debug, PartialEq, Eq)]
pub enum Access {
    Constant,
    NodeWritten,
    Writable,
}

// What further rule a row's value obeys; of a PDO's rows also which PDO, 0 to 7.
#[derive(Clone, Copy)]
pub enum Role {
    Plain,
    ModeOfOperation,
    MinimumLimit,
    MaximumLimit,
    PdoIdentifier(u8),
    PdoType(u8),
    MappingCount(u8),
    MappingEntry(u8),
}

// A mapped object: its place and size in the dictionary. A spare slot is all zero, and no `Option`: the definitions `no_move` and `plan_for` are
// about it.
#[derive(Clone, Copy)]
pub struct Move {
    pub place: u16,
    pub size: u8,
}

// The transfer plan of a PDO: its moves in order, then spare slots. Count and array stay fields: the definitions `plan_for` and `same_plan` are
// about them, and the memory is fixed.
#[derive(Clone, Copy)]
pub struct Plan {
    pub count: u8,
    pub moves: [Move; 8],
}

// The data of a PDO: its length, its bytes in order, then zeros. As a held frame, length 0 is none, and no `Option`; length and array stay
// fields: the definitions `pdo_data`, `is_held` and `same_data` are about them.
#[derive(Clone, Copy, Debug, PartialEq, Eq)]
pub struct PdoData {
    pub length: u8,
    pub bytes: [u8; 8],
}
