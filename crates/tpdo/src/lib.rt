// Document 01, 'PDO traffic': the transmit PDOs at the end of a call.
// Each function takes the parts of the state that it looks at, and no more: a whole state would be copied at every call.

#![tactic(auto)]

mod pacing; // when one is sent
mod sending; // all of them, one after another

pub use sending::transmit_all;
use state::Pace;

// Nothing counted, and not due.
pub const IDLE: Pace = Pace {
    count: 0,
    due: false,
};

// What is kept of the transmit PDOs at a call's end, and how many frames stand in the output then.
// The paces are an array of their own, as in the rules: `SentBy` and `turn` are about the paces, and `changed` ends with the call.
#[derive(Clone, Copy)]
pub struct Sent {
    pub paces: [Pace; 4],
    pub frames: u8,
}
