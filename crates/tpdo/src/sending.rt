// The transmit PDOs at the end of a call, one after another.
ghost use Rattle.std.specs.Prelude.{◌≡◌, ◌<◌, ◌≤◌, length};
ghost use Rattle.rules_dictionary.specs.Table.{each_way, dictionary_length};
ghost use Rattle.rules.specs.Outcome.{frame_size, sent_into};
ghost use Rattle.rules.specs.Calls.{output_length};
ghost use Rattle.form.specs.Form.{state_length, state_of, ready_in};
ghost use Rattle.output.specs.Laying.{IsData};
ghost use Rattle.tpdo.specs.Sending.{sent_one, turn, MaySend, SentBy, most_before};

use crate::pacing::pace;
use crate::{IDLE, Sent};
use dictionary::places::EACH_WAY;
use dictionary::records;
use form::read_ready_frame;
use output::{FRAME_LENGTH, send};
use state::{NmtState, Occasion, Pace};

// The ready frame of transmit PDO t at the start of the bytes, which are the output from it on, where it is to be sent. How many frames that is.
fn transmit(goes: bool, t: usize, state: &[u8], d: &[u8], output: &mut [u8]) -> usize
    requires state_len { (length state.now ≡ state_length) × (length d.now ≡ dictionary_length) }
    requires frame_size_in_bounds { (frame_size ≤ length output.old) × ((t < each_way) × IsData (ready_in state.now t)) }
    ensures { (result ≡ length (sent_one goes d.now t (ready_in state.now t)))
        × (output.new ≡ sent_into output.old (sent_one goes d.now t (ready_in state.now t))) }
{
    if !goes {
        return 0;
    }
    let word = records::identifier(d, EACH_WAY + t);
    let content = read_ready_frame(state, t);
    send(output, (word % records::IDENTIFIERS) as u16, content);
    1
}

// In Operational the transmit PDOs are sent as they are due, rising; in the other NMT states none is sent, counted or due.
// `changed` is whether each ready frame is another than at the call's start, `paces` what was kept of them then, `was` whether the call
// started Operational; n frames stand in the output before.
pub fn transmit_all(
    state: &[u8],
    changed: [bool; 4],
    paces: [Pace; 4],
    was: bool,
    nmt: NmtState,
    occasion: Occasion,
    d: &[u8],
    output: &mut [u8],
    n: usize,
) -> Sent
    requires state_len { (length state.now ≡ state_length) × MaySend nmt paces (state_of state.now).axis.ready d.now }
    requires output_length_in_bounds { (output_length ≤ length output.old) × (n ≤ most_before) }
    ensures { SentBy (turn was occasion nmt changed paces d.now) (state_of state.now).axis.ready
        d.now n output.old result output.new }
{
    let mut next = [IDLE; EACH_WAY];
    let mut sent = n;
    if nmt.is_operational() {
        for t in 0..EACH_WAY {
            // Its ready frame changed, or the node entered Operational.
            let new = !was | changed[t];
            let paced = pace(d, t, occasion, new, paces[t]);
            let place = FRAME_LENGTH * sent;
            sent += transmit(paced.send, t, state, d, &mut output[place..]);
            next[t] = paced.kept;
        }
    }
    Sent {
        paces: next,
        frames: sent as u8,
    }
}
