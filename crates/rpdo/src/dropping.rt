// What is left of a frame that is not applied: an emergency, and nothing else to do.
ghost use Rattle.rules.specs.Outcome.{frame_size};
ghost use Rattle.output.specs.Leaves.{Lent, LeavesIn, ever};
ghost use Rattle.rpdo.specs.Traffic.{says};

use emergency::emergency;
use form::read_node;
use output::{Done, nothing_done};

// An emergency and no more.
pub fn refused(code: u16, state: &[u8], d: &[u8], output: &mut [u8]) -> Done
    requires { Lent frame_size state.now d.now output.old }
    ensures { LeavesIn (says code) ever state.now d.now output.old
        result state.now d.now output.new }
{
    let frames = emergency(code, read_node(state), d, output);
    Done {
        frames,
        ..nothing_done(true)
    }
}
