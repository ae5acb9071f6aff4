// The node for C: the exported calls, which include/cendurak.h declares. Each is the call of that name in crate cendurak, whose clause it states
// again: a library exports nothing.

#![tactic(auto)]

ghost use Rattle.std.specs.Prelude.{◌≡◌};
ghost use Rattle.rules.specs.Calls.{power_up_call, frame_call, event_call};
ghost use Rattle.cendurak.specs.Boundary.{left, lent_answer, load_left, lent_load};

// Power-up as node n. The state's bytes may hold anything: they are written, and not read.
#[unsafe(no_mangle)]
pub extern "C" fn cendurak_power_up(
    state: &mut [u8],
    dict: &mut [u8],
    out: &mut [u8],
    n: u32,
) -> u32
    ensures { left result state.new dict.new out.new
        ≡ lent_answer (power_up_call n) state.old dict.old out.old }
{
    cendurak::cendurak_power_up(state, dict, out, n)
}

// One frame of the bus.
#[unsafe(no_mangle)]
pub extern "C" fn cendurak_frame(
    state: &mut [u8],
    dict: &mut [u8],
    out: &mut [u8],
    identifier: u32,
    bytes: &[u8],
) -> u32
    ensures { left result state.new dict.new out.new
        ≡ lent_answer (frame_call identifier bytes.now) state.old dict.old out.old }
{
    cendurak::cendurak_frame(state, dict, out, identifier, bytes)
}

// One event of the amplifier.
#[unsafe(no_mangle)]
pub extern "C" fn cendurak_event(
    state: &mut [u8],
    dict: &mut [u8],
    out: &mut [u8],
    number: u32,
    arguments: &[u8],
) -> u32
    ensures { left result state.new dict.new out.new
        ≡ lent_answer (event_call number arguments.now) state.old dict.old out.old }
{
    cendurak::cendurak_event(state, dict, out, number, arguments)
}

// The load of a file, which sends nothing: no output is lent.
#[unsafe(no_mangle)]
pub extern "C" fn cendurak_load(state: &mut [u8], dict: &mut [u8], file: &[u8]) -> u64
    ensures { load_left result state.new dict.new
        ≡ lent_load file.now state.old dict.old }
{
    cendurak::cendurak_load(state, dict, file)
}
