// The node for C: four calls on numbers and lent bytes. The state is lent as bytes of one length (crate form); each call returns the refusal
// times 256 plus the number of frames, a load the refusal, the entry that failed and its abort code. None asks anything of its caller; crate
// cendurak_c exports them, and include/cendurak.h declares them.

#![tactic(auto)]

mod answering; // the answer as a number

ghost use Rattle.std.specs.Prelude.{◌≡◌};
ghost use Rattle.rules.specs.Calls.{power_up_call, frame_call, event_call};
ghost use Rattle.cendurak.specs.Boundary.{left, lent_answer, load_left, lent_load};

use answering::{load_refused, load_told, refused, told};
use calls::{event_in, frame_in, load_in, loadable, opened, power_up_in, powering};
use form::layout::STATE_LENGTH;
use state::Refusal;

// Power-up as node n. The state's bytes may hold anything: they are written, and not read.
pub fn cendurak_power_up(state: &mut [u8], dict: &mut [u8], out: &mut [u8], n: u32) -> u32
    ensures { left result state.new dict.new out.new
        ≡ lent_answer (power_up_call n) state.old dict.old out.old }
{
    if let Err(why) = powering(n, dict, out) {
        return refused(why);
    }
    if state.len() != STATE_LENGTH {
        return refused(Refusal::NotSound);
    }
    told(power_up_in(state, dict, out, n))
}

// One frame of the bus.
pub fn cendurak_frame(
    state: &mut [u8],
    dict: &mut [u8],
    out: &mut [u8],
    identifier: u32,
    bytes: &[u8],
) -> u32
    ensures { left result state.new dict.new out.new
        ≡ lent_answer (frame_call identifier bytes.now) state.old dict.old out.old }
{
    if let Err(why) = opened(state, dict, out) {
        return refused(why);
    }
    told(frame_in(state, dict, out, identifier, bytes))
}

// One event of the amplifier. Stays beside the frame's call, which differs in the call it makes: a closure for that would be no shorter.
// Power-up tests the state's length alone, and the load answers another number.
pub fn cendurak_event(
    state: &mut [u8],
    dict: &mut [u8],
    out: &mut [u8],
    number: u32,
    arguments: &[u8],
) -> u32
    ensures { left result state.new dict.new out.new
        ≡ lent_answer (event_call number arguments.now) state.old dict.old out.old }
{
    if let Err(why) = opened(state, dict, out) {
        return refused(why);
    }
    told(event_in(state, dict, out, number, arguments))
}

// The load of a file, which sends nothing: no output is lent.
pub fn cendurak_load(state: &mut [u8], dict: &mut [u8], file: &[u8]) -> u64
    ensures { load_left result state.new dict.new
        ≡ lent_load file.now state.old dict.old }
{
    if let Err(why) = loadable(state, dict) {
        return load_refused(why);
    }
    load_told(load_in(state, dict, file))
}
