// SYNC: "It applies held frames 1 to 4", "another length gives 8240h only. Stopped it is not served".
ghost use Rattle.state.specs.declared.Occasion.TheVariants.{Synced};
ghost use Rattle.rules_dictionary.specs.Table.{receive_pdos};
ghost use Rattle.rules_services.specs.Effects.{on};
ghost use Rattle.rules_services.specs.PdoTraffic.{release, release_all};
ghost use Rattle.rules.specs.Outcome.{frame_size};
ghost use Rattle.output.specs.Leaves.{LeavesIn, never};
ghost use Rattle.rpdo.specs.Kept.{Kept, Serves};
ghost use Rattle.rpdo.specs.Traffic.{release_rests, sync_of, sync_rests};

use crate::applying::apply;
use crate::dropping::refused;
use dictionary::places;
use form::{put_held, read_held_frame, read_node};
use output::{Done, FRAME_LENGTH, nothing_done};
use rules_dictionary::PdoData;
use state::Occasion;

// The emergency code of a SYNC with data.
const SYNC_LENGTH: u16 = 0x8240;

// The held frame of receive PDO p, if any, applied, and held no more. No data is spelled out: that its bytes are zeros,
// and not those of the frame, is what `release` promises of what it leaves.
fn release(state: &mut [u8], d: &mut [u8], output: &mut [u8], p: usize) -> Done
    requires { Serves frame_size p state.old d.old output.old }
    ensures { LeavesIn (release p) (release_rests p) state.old d.old output.old
        result state.new d.new output.new }
{
    let frame = read_held_frame(state, p);
    if frame.length == 0 {
        return nothing_done(true);
    }
    let none = PdoData {
        length: 0,
        bytes: [0; 8],
    };
    put_held(state, p, none);
    apply(state, p, d, output, frame.bytes)
}

// Every held frame released, in rising order: what is left to release from p on is what was at the start, less what is done.
fn release_all(state: &mut [u8], d: &mut [u8], output: &mut [u8]) -> Done
    requires { Kept state.old d.old output.old }
    ensures { LeavesIn (λ s d₀. on Synced (release_all receive_pdos s d₀)) never
        state.old d.old output.old result state.new d.new output.new }
{
    let mut frames: usize = 0;
    let mut touched = false;
    for p in 0..places::EACH_WAY {
        let done = release(state, d, &mut output[FRAME_LENGTH * frames..], p);
        frames += done.frames;
        touched |= done.touched;
    }
    Done {
        frames,
        touched,
        occasion: Occasion::Synced,
        ..nothing_done(false)
    }
}

// A SYNC of that many data bytes. One that is not served is quiet.
pub fn sync(state: &mut [u8], d: &mut [u8], output: &mut [u8], length: u8) -> Done
    requires { Kept state.old d.old output.old }
    ensures { LeavesIn (sync_of length) (sync_rests length) state.old d.old output.old
        result state.new d.new output.new }
{
    let nmt = read_node(state).nmt;
    if nmt.is_stopped() {
        return nothing_done(true);
    }
    if length != 0 {
        return refused(SYNC_LENGTH, state, d, output);
    }
    if nmt.is_operational() {
        return release_all(state, d, output);
    }
    nothing_done(true)
}
