// What the node keeps between calls, and what a call answers: the rules of document 01 are stated over these types, and the node's
// functions take them and hand them back by value.
//
// The axis's part stands apart from the node's, so that a second axis can stand beside the first.

#![tactic(auto)]

ghost use Rattle.std.specs.Prelude.{◌≡◌};
ghost use Rattle.state.specs.NmtStates.{is_pre_operational, is_operational, is_stopped};
ghost use Rattle.state.specs.Occasions.{is_synced, is_ticked};

use drive::Drive;
use rules_dictionary::{PdoData, Plan};

// The NMT states, by their numbers in the state's bytes.
#[derive(Clone, Copy, Debug, PartialEq, Eq)]
pub enum NmtState {
    PreOperational = 0,
    Operational = 1,
    Stopped = 2,
}

impl NmtState {
    pub fn is_pre_operational(self) -> bool
        ensures { result ≡ is_pre_operational self }
    {
        matches!(self, NmtState::PreOperational)
    }

    pub fn is_operational(self) -> bool
        ensures { result ≡ is_operational self }
    {
        matches!(self, NmtState::Operational)
    }

    pub fn is_stopped(self) -> bool
        ensures { result ≡ is_stopped self }
    {
        matches!(self, NmtState::Stopped)
    }
}

// What is kept of one transmit PDO: the SYNCs since it was last sent, and whether the next SYNC sends it.
#[derive(Clone, Copy)]
pub struct Pace {
    pub count: u8,
    pub due: bool,
}

// One axis. PDO 0 to 3 receive and 4 to 7 transmit; `held` is by receive PDO, `ready` and `paces` are by transmit PDO.
// They stay four arrays: the definitions `with_held`, `ready_of` and `plans_of` speak of each as a list.
#[derive(Clone, Copy)]
pub struct Axis {
    pub drive: Drive,
    pub plans: [Plan; 8],
    pub ready: [PdoData; 4],
    pub held: [PdoData; 4],
    pub paces: [Pace; 4],
}

// What a call is to its own end: a SYNC that is served, a tick of 1 ms, or any other.
#[derive(Clone, Copy, Debug, PartialEq, Eq)]
pub enum Occasion {
    Plain,
    Synced,
    Ticked,
}

impl Occasion {
    pub fn is_synced(self) -> bool
        ensures { result ≡ is_synced self }
    {
        matches!(self, Occasion::Synced)
    }

    pub fn is_ticked(self) -> bool
        ensures { result ≡ is_ticked self }
    {
        matches!(self, Occasion::Ticked)
    }
}

// The first and the last node-ID.
pub const FIRST_NODE: u32 = 1;

pub const LAST_NODE: u32 = 127;

// What is the node's: its node-ID, NMT state, the voltage flag, and the ticks since the last heartbeat.
#[derive(Clone, Copy)]
pub struct Node {
    pub id: u8,
    pub nmt: NmtState,
    pub voltage: bool,
    pub heartbeat: u16,
}

// What a download by segments has brought so far: its object, by the three bytes of index and subindex as the request has them; the toggle of the
// segment that is due; how many bytes came, and the first four of them, zero where none came yet. No object has more than four, so that the count
// stops at five. Its fields stay as they are: the definitions `object_in`, `bytes_in` and `added` are about them.
#[derive(Clone, Copy)]
pub struct Receipt {
    pub low: u8,
    pub high: u8,
    pub subindex: u8,
    pub toggle: bool,
    pub count: u8,
    pub first: u8,
    pub second: u8,
    pub third: u8,
    pub fourth: u8,
}

// The transfer in progress: an upload of the device name, by the segment that is due, from 0; or a download. `NoTransfer` stays a variant: the
// definitions `segment_asked`, `segment_sent` and `transfer_sound` are about this type.
#[derive(Clone, Copy)]
pub enum Transfer {
    NoTransfer,
    Uploading(u8),
    Downloading(Receipt),
}

// The state that a call takes and hands back: what is the node's, the transfer of its SDO server too, and what is the axis's.
#[derive(Clone, Copy)]
pub struct State {
    pub node: Node,
    pub transfer: Transfer,
    pub axis: Axis,
}

// The refusals of a call, lowest first, by their numbers for C; 8 is the bench program's own. `Accepted` stays among them: the definition
// `refusal_number` gives C its 0, and `Outcome` and the theorems compare with it.
#[derive(Clone, Copy, Debug, PartialEq, Eq)]
pub enum Refusal {
    Accepted = 0,
    DictionaryLength = 1,
    OutputLength = 2,
    NodeId = 3,
    NotSound = 4,
    BadFrame = 5,
    BadEvent = 6,
    OutOfPlace = 7,
    WrongState = 9,
    FileTooShort = 10,
    TooManyEntries = 11,
    FileMisfit = 12,
    ControlWordEntry = 13,
    EntryAborted = 14,
}

// What a call answers, beside the lent bytes. No `Result`, and not generic: the state comes back from a refused call too, and the definitions and
// theorems name its three fields.
#[derive(Clone, Copy)]
pub struct Answer {
    pub refusal: Refusal,
    pub frames: u8,
    pub state: State,
}
