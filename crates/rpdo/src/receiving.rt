// A received frame: "too short, dropped with emergency 8210h; too long, 8220h and the leading bytes are used; then any value SDO would
// refuse drops the whole frame with 8200h, after 8220h if both".
ghost use Rattle.std.specs.Prelude.{◌≡◌, ◌≤◌, length, take};
ghost use Rattle.rules_dictionary.specs.Numbers.{padded};
ghost use Rattle.rules_dictionary.specs.Plans.{mapped};
ghost use Rattle.rules_dictionary.specs.Table.{receive_pdos};
ghost use Rattle.rules_services.specs.PdoTraffic.{mapped_length, received, received_by};
ghost use Rattle.rules.specs.Calls.{output_length};
ghost use Rattle.rules.specs.Outcome.{frame_size};
ghost use Rattle.output.specs.Laying.{IsData, data_of};
ghost use Rattle.output.specs.Leaves.{LeavesIn};
ghost use Rattle.rpdo.specs.Kept.{Kept, Serves};
ghost use Rattle.rpdo.specs.Traffic.{judged, judged_rests, received_rests, received_by_rests};

use crate::applying::apply;
use crate::dropping::refused;
use crate::listening::hears;
use dictionary::choices::LAST_SYNCHRONOUS;
use dictionary::{places, records};
use emergency::emergency;
use form::{put_held, read_node};
use mapping::{are_legal, length_of};
use output::{Done, FRAME_LENGTH, nothing_done};
use rules_dictionary::PdoData;

// The codes stay numbers, not an enum: `emergency` takes every code, for a fault's is whichever the amplifier gives.

// Emergency code: a value that SDO would refuse.
const VALUE_REFUSED: u16 = 0x8200;

// Emergency code: fewer bytes than are mapped.
const TOO_SHORT: u16 = 0x8210;

// Emergency code: more bytes than are mapped.
const TOO_LONG: u16 = 0x8220;

// The leading bytes, and zeros behind them.
fn leading(content: [u8; 8], n: usize) -> [u8; 8]
    requires { n ≤ 8 }
    ensures { (result ≡ padded 0 8 (take n content)) × (length content ≡ 8) }
{
    let mut bytes = content;
    bytes[n..].fill(0);
    bytes
}

// As many bytes as receive PDO p maps: dropped if a value is refused. "Types 254, 255 apply at once; others are held, the latest kept, until
// SYNC." A frame that is dropped or held is quiet.
fn judge(state: &mut [u8], d: &mut [u8], output: &mut [u8], p: usize, content: PdoData) -> Done
    requires { Serves frame_size p state.old d.old output.old
        × (IsData content × (content.length ≡ mapped_length (mapped d.old p))) }
    ensures { LeavesIn (judged p (data_of content)) (judged_rests p (data_of content))
        state.old d.old output.old result state.new d.new output.new }
{
    if !are_legal(state, p, content.bytes) {
        return refused(VALUE_REFUSED, state, d, output);
    }
    if LAST_SYNCHRONOUS < records::transmission_type(d, p) {
        return apply(state, p, d, output, content.bytes);
    }
    put_held(state, p, content);
    nothing_done(true)
}

// A frame that receive PDO p listens to.
fn received(state: &mut [u8], d: &mut [u8], output: &mut [u8], p: usize, content: PdoData) -> Done
    requires { Serves output_length p state.old d.old output.old × IsData content }
    ensures { LeavesIn (received p (data_of content)) (received_rests p (data_of content))
        state.old d.old output.old result state.new d.new output.new }
{
    let needed = length_of(state, p);
    if content.length < needed {
        return refused(TOO_SHORT, state, d, output);
    }
    if needed < content.length {
        let n = emergency(TOO_LONG, read_node(state), d, output);
        let used = PdoData {
            length: needed,
            bytes: leading(content.bytes, needed as usize),
        };
        let mut done = judge(state, d, &mut output[FRAME_LENGTH * n..], p, used);
        done.frames += n;
        return done;
    }
    judge(state, d, output, p, content)
}

// A frame on an identifier: for the first receive PDO that listens to it, if any. "A PDO works only in Operational".
// Of the state only its NMT state is read, until one listens.
pub fn receive(
    state: &mut [u8],
    d: &mut [u8],
    output: &mut [u8],
    identifier: u16,
    content: PdoData,
) -> Done
    requires { Kept state.old d.old output.old × IsData content }
    ensures { LeavesIn (received_by receive_pdos identifier (data_of content)) (received_by_rests receive_pdos identifier (data_of content))
        state.old d.old output.old result state.new d.new output.new }
{
    if !read_node(state).nmt.is_operational() {
        return nothing_done(true);
    }
    for p in 0..places::EACH_WAY {
        if hears(d, p, identifier) {
            return received(state, d, output, p, content);
        }
    }
    nothing_done(true)
}
