// A frame of the bus, by its identifier: NMT, SYNC, the SDO server's request, or what a receive PDO listens to.
ghost use Rattle.std.specs.Prelude.{◌≡◌};
ghost use Rattle.rules_services.specs.Nmt.{nmt_identifier};
ghost use Rattle.rules.specs.Calls.{framed};
ghost use Rattle.output.specs.Laying.{OnBus, data_of};
ghost use Rattle.output.specs.Leaves.{LeavesIn};
ghost use Rattle.calls.specs.Frames.{Starts, requested, serviced, requested_rests, serviced_rests, framed_rests};

use form::read_node;
use nmt::nmt_frame;
use output::{Done, nothing_done};
use rpdo::{receive, sync};
use rules_dictionary::PdoData;
use sdo::serve;

const NMT: u16 = 0x000;

const SYNC: u16 = 0x080;

// 600h, to which the node-ID is added.
const REQUEST_BASE: u16 = 0x600;

const REQUEST_LENGTH: u8 = 8;

// A frame on the SDO server's identifier: "Served in Pre-operational and Operational, .. length 8".
fn request(content: PdoData, state: &mut [u8], d: &mut [u8], output: &mut [u8]) -> Done
    requires { Starts state.old d.old output.old × OnBus content }
    ensures { LeavesIn (requested (data_of content)) (requested_rests (data_of content))
        state.old d.old output.old result state.new d.new output.new }
{
    if read_node(state).nmt.is_stopped() {
        return nothing_done(true);
    }
    if content.length != REQUEST_LENGTH {
        return nothing_done(true);
    }
    serve(content.bytes, state, d, output)
}

// A frame that is no NMT command.
fn service(
    identifier: u16,
    content: PdoData,
    state: &mut [u8],
    d: &mut [u8],
    output: &mut [u8],
) -> Done
    requires { Starts state.old d.old output.old × (OnBus content × (identifier ≡ nmt_identifier → ⊥)) }
    ensures { LeavesIn (serviced identifier (data_of content)) (serviced_rests identifier (data_of content))
        state.old d.old output.old result state.new d.new output.new }
{
    if identifier == SYNC {
        return sync(state, d, output, content.length);
    }
    let node = read_node(state);
    if identifier == REQUEST_BASE + (node.id as u16) {
        return request(content, state, d, output);
    }
    receive(state, d, output, identifier, content)
}

// A frame of the bus, well formed: its service.
pub fn serve_frame(
    identifier: u16,
    content: PdoData,
    state: &mut [u8],
    d: &mut [u8],
    output: &mut [u8],
) -> Done
    requires { Starts state.old d.old output.old × OnBus content }
    ensures { LeavesIn (framed identifier (data_of content)) (framed_rests identifier content)
        state.old d.old output.old result state.new d.new output.new }
{
    if identifier == NMT {
        return nmt_frame(content, state, d, output);
    }
    service(identifier, content, state, d, output)
}
