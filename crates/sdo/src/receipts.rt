// A download by segments: what they bring, and the download that the last of them is.
ghost use Rattle.std.specs.Prelude.{◌≡◌, cond, suc, eqb, ltb};
ghost use Rattle.rules.specs.Calls.{output_length};
ghost use Rattle.rules_services.specs.Segments.{nothing_yet, too_many, added, gathered, turned, carried, download_begun};
ghost use Rattle.output.specs.Leaves.{Lent, LeavesIn};
ghost use Rattle.sdo.specs.Requests.{brought_in, received_segment, last_rests, segment_sent_in, segment_rests_in};
ghost use Rattle.sdo.specs.Serving.{Ready, Speaks};

use crate::Brought;
use crate::aborts::Abort;
use crate::downloads::download;
use crate::replies::{DOWNLOADED, abort, answer, reply_to};
use crate::request::COMMAND_PLACE;
use crate::segments::{
    NAME_OBJECT, NOWHERE, SEGMENT_SIZE, TOGGLE, UNUSED, flag, is_last, object_in, toggle_of,
};
use form::read_transfer;
use output::Done;
use state::{Receipt, Transfer};

// 20h, the command of the reply to a segment.
const SEGMENT_TAKEN: u8 = 0x20;

// The first of a segment's bytes.
const SEGMENT_PLACE: usize = 1;

// The bytes of an object are four at the most: more are told apart by the count.
const TOO_MANY: u8 = 5;

// Nothing has come yet. Written out: a default of `Receipt` would be the same list of zeros, beside the object's three fields here.
fn nothing_yet(object: [u8; 3]) -> Receipt
    ensures { result ≡ nothing_yet object }
{
    Receipt {
        low: object[0],
        high: object[1],
        subindex: object[2],
        toggle: false,
        count: 0,
        first: 0,
        second: 0,
        third: 0,
        fourth: 0,
    }
}

// A byte where it is that of the count, else what stands there.
fn placed(count: u8, k: u8, b: u8, kept: u8) -> u8
    ensures { result ≡ cond (eqb count k) b kept }
{
    if count == k { b } else { kept }
}

// The count with one byte more. Stays an `if`: `min` would bring a count over five down, which the rules' `added` leaves.
fn one_more(count: u8) -> u8
    ensures { result ≡ cond (ltb count too_many) (suc count) count }
{
    if count < TOO_MANY { count + 1 } else { count }
}

// One byte more: behind those so far, where there is room. The four are fields, not an array: `Receipt` is of the state of document 01's theorems.
fn added(g: Receipt, b: u8) -> Receipt
    ensures { result ≡ added g b }
{
    Receipt {
        count: one_more(g.count),
        first: placed(g.count, 0, b, g.first),
        second: placed(g.count, 1, b, g.second),
        third: placed(g.count, 2, b, g.third),
        fourth: placed(g.count, 3, b, g.fourth),
        ..g
    }
}

// All that a segment carries: 7 minus bits 3-1 bytes.
fn gathered(g: Receipt, request: [u8; 8]) -> Receipt
    ensures { result ≡ gathered g (carried request) }
{
    let count = (SEGMENT_SIZE - request[COMMAND_PLACE] / UNUSED % 8) as usize;
    let mut after = g;
    for b in &request[SEGMENT_PLACE..SEGMENT_PLACE + count] {
        after = added(after, *b);
    }
    after
}

// The next segment has the other toggle.
fn turned(g: Receipt) -> Receipt
    ensures { result ≡ turned g }
{
    Receipt {
        toggle: !g.toggle,
        ..g
    }
}

// What all segments bring.
fn brought_in(g: Receipt) -> Brought
    ensures { result ≡ brought_in g }
{
    Brought {
        count: Some(g.count),
        bytes: [g.first, g.second, g.third, g.fourth],
    }
}

// A download by segments begun: nothing is looked at before the last of them.
pub fn begin(object: [u8; 3], state: &mut [u8], output: &mut [u8]) -> Done
    requires { Ready state.old output.old }
    ensures { Speaks (download_begun object) state.old output.old result state.new output.new }
{
    answer(
        reply_to(object, DOWNLOADED, 0),
        Transfer::Downloading(nothing_yet(object)),
        state,
        output,
    )
}

// A segment of the download that runs.
fn receive(g: Receipt, request: [u8; 8], state: &mut [u8], d: &mut [u8], output: &mut [u8]) -> Done
    requires { Lent output_length state.old d.old output.old }
    ensures { LeavesIn (received_segment g request) (last_rests g request)
        state.old d.old output.old result state.new d.new output.new }
{
    let object = object_in(g);
    if toggle_of(request) != g.toggle {
        return abort(Abort::WrongToggle, object, state, output);
    }
    let reply = reply_to(NOWHERE, SEGMENT_TAKEN + flag(TOGGLE, g.toggle), 0);
    let after = gathered(g, request);
    if is_last(request) {
        return download(reply, object, brought_in(after), state, d, output);
    }
    answer(reply, Transfer::Downloading(turned(after)), state, output)
}

// A segment sent: "a segment with no transfer of its direction running, 05040001h".
pub fn segment_sent(request: [u8; 8], state: &mut [u8], d: &mut [u8], output: &mut [u8]) -> Done
    requires { Lent output_length state.old d.old output.old }
    ensures { LeavesIn (segment_sent_in request) (segment_rests_in request)
        state.old d.old output.old result state.new d.new output.new }
{
    match read_transfer(state) {
        Transfer::NoTransfer => abort(Abort::UnknownCommand, NOWHERE, state, output),
        Transfer::Uploading(_) => abort(Abort::UnknownCommand, NAME_OBJECT, state, output),
        Transfer::Downloading(g) => receive(g, request, state, d, output),
    }
}
