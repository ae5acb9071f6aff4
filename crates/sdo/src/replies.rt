// Frames of the server on 580h+N, and the transfer that runs once one is sent. "Index and subindex are echoed, unused bytes zero."
ghost use Rattle.std.specs.Prelude.{◌≡◌, ◌≤◌, length};
ghost use Rattle.state.specs.declared.Transfer.TheVariants.{NoTransfer};
ghost use Rattle.rules_services.specs.Sdo.{aborted};
ghost use Rattle.rules.specs.Outcome.{frame_size, sent_into};
ghost use Rattle.sdo.specs.Verdicts.{code_of};
ghost use Rattle.sdo.specs.Requests.{reply_bytes, saying, said};
ghost use Rattle.sdo.specs.Serving.{Says, Ready, Speaks};

use crate::aborts::Abort;
use form::{put_transfer, read_node};
use output::{Done, nothing_done, send};
use rules_dictionary::PdoData;
use state::Transfer;

// 580h, to which the node-ID is added.
const REPLY_BASE: u16 = 0x580;

// 60h, the command of the reply to a download, expedited or by segments, and 80h, of an abort.
pub const DOWNLOADED: u8 = 0x60;

const ABORTED: u8 = 0x80;

// The bytes of a reply: the command, the object's index and subindex, and a value.
pub fn reply_to(object: [u8; 3], command: u8, v: u32) -> [u8; 8]
    ensures { result ≡ reply_bytes command object v }
{
    let [index_low, index_high, subindex] = object;
    let [v0, v1, v2, v3] = v.to_le_bytes();
    [command, index_low, index_high, subindex, v0, v1, v2, v3]
}

// Eight bytes on 580h+N at the start of the bytes, which are the output from their frame on.
pub fn say(content: [u8; 8], id: u8, output: &mut [u8])
    requires { frame_size ≤ length output.old }
    ensures { output.new ≡ sent_into output.old (saying content id) }
{
    let data = PdoData {
        length: 8,
        bytes: content,
    };
    send(output, REPLY_BASE + (id as u16), data);
}

// Nothing but eight bytes: nothing is written, and nothing is left to do.
fn say_alone(content: [u8; 8], id: u8, output: &mut [u8]) -> Done
    requires { frame_size ≤ length output.old }
    ensures { Says content id output.old result output.new }
{
    say(content, id, output);
    let mut done = nothing_done(true);
    done.frames = 1;
    done
}

// Eight bytes, and that transfer runs.
pub fn answer(content: [u8; 8], transfer: Transfer, state: &mut [u8], output: &mut [u8]) -> Done
    requires { Ready state.old output.old }
    ensures { Speaks (said content transfer) state.old output.old result state.new output.new }
{
    let node = read_node(state);
    put_transfer(state, transfer);
    say_alone(content, node.id, output)
}

// An abort that names the object: "any abort .. ends a running transfer".
pub fn abort(why: Abort, object: [u8; 3], state: &mut [u8], output: &mut [u8]) -> Done
    requires { Ready state.old output.old }
    ensures { Speaks (said (reply_bytes aborted object (code_of why)) NoTransfer)
        state.old output.old result state.new output.new }
{
    answer(
        reply_to(object, ABORTED, why.code()),
        Transfer::NoTransfer,
        state,
        output,
    )
}
