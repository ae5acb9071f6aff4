// An answer as the number that C gets.
ghost use Rattle.std.specs.Prelude.{◌≡◌, ◌+◌, ◌*◌, ◌≤◌};
ghost use Rattle.rules.specs.Calls.{refusal_number};
ghost use Rattle.rules_services.specs.Load.{nothing_named};
ghost use Rattle.cendurak.specs.Boundary.{status, load_status};

use calls::{Given, LoadGiven};
use state::Refusal;

// The number of a refusal; 0 is none.
fn refusal_number(why: Refusal) -> u32
    ensures { (result ≡ refusal_number why) × (result ≤ 14) }
{
    why as u32
}

// The refusal times 256 plus the number of frames.
fn number_of(refusal: u32, frames: u8) -> u32
    requires { refusal ≤ 14 }
    ensures { result ≡ 256 * refusal + frames }
{
    256 * refusal + u32::from(frames)
}

// The number that C gets of a refused call.
pub fn refused(why: Refusal) -> u32
    ensures { result ≡ status why 0 }
{
    number_of(refusal_number(why), 0)
}

// The number that C gets of a call that was made.
pub fn told(given: Given) -> u32
    ensures { result ≡ status given.refusal given.frames }
{
    number_of(refusal_number(given.refusal), given.frames)
}

// Where the parts of a load's number stand: above the abort code the entry, above it the refusal.
const ENTRY: u64 = 0x1_0000_0000;

const LOAD_REFUSAL: u64 = 0x1_0000_0000_0000;

// The number that C gets of a load. Stays beside `told`, as `load_refused` beside `refused`: `Boundary.status` and `Boundary.load_status` give C two
// forms of number, of 32 and of 64 bits, so that one trait for both would name each form once more.
pub fn load_told(given: LoadGiven) -> u64
    ensures { result ≡ load_status given.refusal (record { entry = given.entry; code = given.code }) }
{
    let refusal = u64::from(refusal_number(given.refusal));
    LOAD_REFUSAL * refusal + ENTRY * u64::from(given.entry) + u64::from(given.code)
}

// The number that C gets of a load that its file has no part in refusing.
pub fn load_refused(why: Refusal) -> u64
    ensures { result ≡ load_status why nothing_named }
{
    load_told(LoadGiven {
        refusal: why,
        entry: 0,
        code: 0,
    })
}
