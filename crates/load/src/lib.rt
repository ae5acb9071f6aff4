// Ticket 6, 'Load the customer's configuration': the entries of a file as downloads, all of them or none.

#![tactic(auto)]

mod trying; // entries tried on the dictionary, in order
mod acting; // what follows once all of them are taken
mod configuration; // the refusals, and all entries or none

pub use configuration::load;
use output::Done;
use sdo::Abort;
use state::Refusal;

// What a load comes to: the refusal, with the refusal of an entry which one it is, from 1, and its abort code, and else zeros; and what is left to do
// at the call's end. The entry and the code stand beside the refusal, and not in it: the C interface's load status has all three (`load_status`).
#[derive(Clone, Copy)]
pub struct Loading {
    pub refusal: Refusal,
    pub entry: u16,
    pub code: u32,
    pub done: Done,
}

// What is noted of the entries that were tried: how many, whether the last one was taken, and whether 1017h, 6060h or a PDO's mapping was written.
// Not a `Result` as a whole: an abort tells how many were tried as well.
#[derive(Clone, Copy)]
struct Tally {
    tried: u16,
    last: Result<(), Abort>,
    heartbeat: bool,
    mode: bool,
    mapping: bool,
}
