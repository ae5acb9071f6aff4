// The label feeder for C: the exported calls, which include/feeder.h declares. Each is the call of that name in feeder::for_c, whose clauses it
// states again: a library exports nothing.
#![tactic(auto)]

ghost use Rattle.std.specs.Prelude.{◌≡◌};
ghost use Rattle.feeder.specs.Feeder.{refusal_number, started, step, told};

use feeder::for_c;

// Whether the list can be fed.
#[unsafe(no_mangle)]
pub extern "C" fn feeder_start(lengths: &[i32]) -> u32
    ensures { result ≡ refusal_number (started lengths.now) }
{
    for_c::feeder_start(lengths)
}

// A step from that position.
#[unsafe(no_mangle)]
pub extern "C" fn feeder_step(lengths: &[i32], position: u32, status: u32) -> u64
    ensures { result ≡ told (step lengths.now (record { position = position }) status) }
{
    for_c::feeder_step(lengths, position, status)
}
