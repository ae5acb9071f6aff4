// An NMT frame: "Identifier 0, length 2, node 0 or N"; what each command does.
ghost use Rattle.std.specs.Prelude.{◌≡◌, length};
ghost use Rattle.rules_services.specs.Effects.{with_nmt, with_held};
ghost use Rattle.rules_services.specs.PdoTraffic.{none_held};
ghost use Rattle.rules_services.specs.Nmt.{nmt, command_of, commanded};
ghost use Rattle.form.specs.Form.{state_length};
ghost use Rattle.form.specs.Holding.{Puts};
ghost use Rattle.output.specs.Laying.{OnBus, data_of};
ghost use Rattle.output.specs.Leaves.{LeavesIn, never};
ghost use Rattle.nmt.specs.Commanding.{is_for_node, is_for_others, Commandable};

use crate::resets::{disable_voltage, reset_communication, restart};
use form::{put_no_transfer, put_node, put_none_held, read_node};
use output::{Done, nothing_done};
use rules_dictionary::PdoData;
use state::{NmtState, Node};

const COMMAND_LENGTH: u8 = 2;

const EVERY_NODE: u8 = 0;

// The node in that NMT state.
fn enter(state: &mut [u8], nmt: NmtState)
    requires { length state.old ≡ state_length }
    ensures { Puts (with_nmt nmt) state.old state.new }
{
    let node = read_node(state);
    put_node(state, Node { nmt, ..node });
}

// The node in that NMT state, where receive PDOs do not work: no held frames.
fn leave(state: &mut [u8], nmt: NmtState)
    requires { length state.old ≡ state_length }
    ensures { Puts (λ s. with_nmt nmt (with_held none_held s)) state.old state.new }
{
    enter(state, nmt);
    put_none_held(state);
}

// A command for this node: "01h Operational, 02h Stopped, 80h Pre-operational, 81h as power-up, 82h ..". One that is unknown changes nothing.
// Stays one `match` on the byte: an enum of the commands would be made by this `match` and taken apart by a second one.
fn command(c: u8, state: &mut [u8], d: &mut [u8], output: &mut [u8]) -> Done
    requires { Commandable state.old d.old output.old }
    ensures { LeavesIn (λ s d. commanded (command_of c) s) never state.old d.entry.now output.old
        result state.new d.exit.now output.new }
{
    match c {
        0x01 => {
            enter(state, NmtState::Operational);
            nothing_done(false)
        }
        0x02 => {
            disable_voltage(state);
            leave(state, NmtState::Stopped);
            put_no_transfer(state);
            nothing_done(false)
        }
        0x80 => {
            if read_node(state).nmt.is_pre_operational() {
                return nothing_done(false);
            }
            leave(state, NmtState::PreOperational);
            nothing_done(false)
        }
        0x81 => restart(state, d, output),
        0x82 => reset_communication(state, d, output),
        _ => nothing_done(false),
    }
}

// Whether the frame is a command for this node.
fn is_for_node(content: PdoData, id: u8) -> bool
    ensures { result ≡ is_for_node content id }
{
    let node = content.bytes[1];
    (content.length == COMMAND_LENGTH) & ((node == EVERY_NODE) | (node == id))
}

// An NMT frame; one of another length or for another node changes nothing.
pub fn nmt_frame(content: PdoData, state: &mut [u8], d: &mut [u8], output: &mut [u8]) -> Done
    requires { Commandable state.old d.old output.old × OnBus content }
    ensures { LeavesIn (λ s d. nmt (data_of content) s) (is_for_others content)
        state.old d.entry.now output.old result state.new d.exit.now output.new }
{
    let node = read_node(state);
    if is_for_node(content, node.id) {
        return command(content.bytes[0], state, d, output);
    }
    nothing_done(true)
}
