// The end of a call, on the bytes of the state that its service left.
ghost use Rattle.std.specs.Prelude.{◌≡◌, false};
ghost use Rattle.rules_dictionary.specs.Plans.{ready_of};
ghost use Rattle.form.specs.Form.{state_of};
ghost use Rattle.form.specs.Holding.{Holds, with_ready};
ghost use Rattle.mapping.specs.Afresh.{which_change};
ghost use Rattle.calls.specs.Ending.{MayEnd, MayFinish, MayRenew, MayReady, Renews, Stepped, counted_in};

use crate::counting::is_left;
use crate::settling::settle;
use form::{put_paces, put_plans, read_drive, read_node, read_paces};
use mapping::{all_plans, renew_all};
use output::Done;
use tpdo::{IDLE, transmit_all};

// A mapping was written, which is never so in Operational: 6041h and 6061h made, plans and ready frames worked anew.
pub fn anew(state: &mut [u8], d: &mut [u8])
    requires { MayRenew state.old d.old }
    ensures { Renews (state_of state.old) d.old state.new d.new }
{
    settle(read_node(state), read_drive(state), true, d);
    put_plans(state, all_plans(d));
    renew_all(state, d);
    put_paces(state, [IDLE; 4]);
}

// The ready frames worked again by the kept plans where something was written that can be mapped. Which of them changed.
fn renewed(written: bool, state: &mut [u8], d: &[u8]) -> [bool; 4]
    requires { Holds state.old (state_of state.old) × MayReady written (state_of state.old) d.now }
    ensures holds { Holds state.new (with_ready (ready_of d.now) (state_of state.old)) }
    ensures value { result ≡ which_change (state_of state.old).axis.ready (ready_of d.now) }
{
    if written {
        return renew_all(state, d);
    }
    [false; 4]
}

// 6041h and 6061h made, the ready frames worked again, and the transmit PDOs sent as they are due.
fn end_call(done: Done, was: bool, state: &mut [u8], d: &mut [u8], output: &mut [u8]) -> u8
    requires { MayEnd state.old done d.old output.old × (done.remapped ≡ false) }
    ensures { Stepped was (state_of state.old) done d.old output.old result
        state.new d.new output.new }
{
    let node = read_node(state);
    let drive = read_drive(state);
    let written = settle(node, drive, done.touched, d);
    let changed = renewed(written, state, d);
    let sent = transmit_all(
        state,
        changed,
        read_paces(state),
        was,
        node.nmt,
        done.occasion,
        d,
        output,
        done.frames,
    );
    put_paces(state, sent.paces);
    sent.frames
}

// What a service left of a call that started Operational, or did not, finished. How many frames stand in the output then.
pub fn finish(done: Done, was: bool, state: &mut [u8], d: &mut [u8], output: &mut [u8]) -> u8
    requires { MayFinish was state.old done d.old output.old }
    ensures { Stepped was (counted_in done.occasion d.old (state_of state.old)) done d.old
        output.old result state.new d.new output.new }
{
    if !is_left(done, state, d) {
        return done.frames as u8;
    }
    if done.remapped {
        anew(state, d);
        return done.frames as u8;
    }
    end_call(done, was, state, d, output)
}
