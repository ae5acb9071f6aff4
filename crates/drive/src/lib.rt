// Document 01, 'Drive states' and 'Set-points', and ticket 2: the drive and its rules, defined in specs/.
// states: the commands of 6040h and the states. set_points: the store, its marks, the edge of bit 4. window: the ticks inside 6067h.
// status: 6041h.
// words: what the integers of the rules are in words of 32 bits.

#![tactic(auto)]

pub mod set_points;
pub mod states;
pub mod status;
pub mod window;
pub mod words;

use rules_dictionary::Mode;

// The drive states, each with its part of the status word, in the order in which document 01 lists these.
#[derive(Clone, Copy, Debug, PartialEq, Eq)]
pub enum DriveState {
    NotReady = 0x00,
    SwitchOnDisabled = 0x40,
    ReadyToSwitchOn = 0x21,
    SwitchedOn = 0x23,
    OperationEnabled = 0x27,
    QuickStopActive = 0x07,
    FaultReactionActive = 0x0F,
    Fault = 0x08,
}

// What a control word asks of the drive. `None` stays a variant: the definitions `command`, `next` and `resets` are about this type.
#[derive(Clone, Copy, Debug, PartialEq, Eq)]
pub enum Command {
    None,
    FaultReset,
    DisableVoltage,
    QuickStop,
    Shutdown,
    SwitchOn,
    Enable,
}

// What is taken at one rising edge of bit 4. The target is a word of 32 bits, as 607Ah holds it.
#[derive(Clone, Copy)]
pub struct SetPoint {
    pub target: u32,
    pub velocity: u32,
    pub acceleration: u32,
    pub deceleration: u32,
}

// The set-point store: nothing, the target at rest, one set-point, or two.
#[derive(Clone, Copy)]
pub enum Store {
    Empty,
    Rested(u32),
    Moving(SetPoint),
    Queued(SetPoint, SetPoint),
}

// The drive: its state and mode, the set-point store, the taken and the limit mark, whether a fault's cause is present, and the ticks that the
// position has been inside the window of the active target, or of the target at rest.
#[derive(Clone, Copy)]
pub struct Drive {
    pub state: DriveState,
    pub mode: Mode,
    pub stay: u16,
    pub store: Store,
    pub taken: bool,
    pub limit: bool,
    pub cause: bool,
}

// The drive after a control word, and whether that word reset a fault.
#[derive(Clone, Copy)]
pub struct Controlled {
    pub drive: Drive,
    pub reset: bool,
}
