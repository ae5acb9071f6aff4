// Document 01, 'SDO', 'PDO traffic' and 'NMT, emergency, time': definitions and their laws, in specs/ and proofs/. Here stand the types that
// they are about. A service's meaning is an effect: the state's own parts after it, what it writes, what it sends. What follows from an
// effect (6041h, 6061h, plans, ready frames, transmit PDOs) is worked out once, in the crate `rules`.

#![tactic(auto)]

use state::Pace;

// What a request of the SDO client asks. `Unknown` stays a variant: the definitions `command_of` and `asked` are about this type.
#[derive(Clone, Copy)]
pub enum SdoCommand {
    Download,
    DownloadBySegments,
    DownloadSegment,
    Upload,
    UploadSegment,
    ClientAbort,
    Unknown,
}

// What is decided of one transmit PDO at a call's end: whether it is sent, and what is kept of it.
#[derive(Clone, Copy)]
pub struct Paced {
    pub send: bool,
    pub kept: Pace,
}

// What happens in the amplifier. A fault has its code and register, feedback the position and the velocity.
#[derive(Clone, Copy)]
pub enum Event {
    Started,
    QuickStopDone,
    Fault(u16, u8),
    ReactionDone,
    Feedback(u32, u32),
    SetPointReached,
    Tick,
    CauseGone,
    Voltage(bool),
}
