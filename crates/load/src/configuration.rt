// A load: the refusals of the whole file first, and then all of its entries or none.
ghost use Rattle.std.specs.Prelude.{◌≡◌, [], length};
ghost use Rattle.rules_services.specs.Load.{may_load, load_all};
ghost use Rattle.files.specs.ConciseDcf.{entries_in};
ghost use Rattle.form.specs.Form.{state_length, state_of};
ghost use Rattle.output.specs.Leaves.{Lent};
ghost use Rattle.load.specs.Loading.{LoadsIn, Loadable, Ends, refused_load, aborted_load, taken_load};

use crate::acting::{act_on_mode, restart};
use crate::trying::try_entries;
use crate::{Loading, Tally};
use dictionary::places;
use drive::states::is_at_rest;
use files::{COUNT_SIZE, count_in, is_whole, names};
use form::{read_drive, read_node};
use output::{Done, nothing_done};
use sdo::Abort;
use state::Refusal;

// "count over 512".
const MOST_ENTRIES: u32 = 512;

// 6040h, for which a file has no entry.
const CONTROL_WORD: u16 = 0x6040;

// "Loading is served in Pre-operational, with the drive Not ready or Switch on disabled."
fn may_load(state: &[u8]) -> bool
    requires { length state.now ≡ state_length }
    ensures { result ≡ may_load (state_of state.now) }
{
    read_node(state).nmt.is_pre_operational() & is_at_rest(read_drive(state).state)
}

// Refused for the whole file: nothing is done.
fn refused(refusal: Refusal) -> Loading
    ensures { result ≡ refused_load refusal }
{
    Loading {
        refusal,
        entry: 0,
        code: 0,
        done: nothing_done(true),
    }
}

// Refused for the last entry that was tried: nothing is done.
fn aborted(tally: Tally, why: Abort) -> Loading
    ensures { result ≡ aborted_load tally why }
{
    Loading {
        refusal: Refusal::EntryAborted,
        entry: tally.tried,
        code: why.code(),
        done: nothing_done(true),
    }
}

// All entries are taken. No object that may be written is mapped to transmit, and with no entries nothing is left to do.
fn taken(tally: Tally) -> Loading
    ensures { result ≡ taken_load tally }
{
    Loading {
        refusal: Refusal::Accepted,
        entry: 0,
        code: 0,
        done: Done {
            remapped: tally.mapping,
            ..nothing_done(tally.tried == 0)
        },
    }
}

// The entries of a file that is not refused as a whole. They are tried where the dictionary stands; where one is aborted the bytes that stood there
// are put back, and of the state nothing is touched before all are taken.
fn load_entries(file: &[u8], state: &mut [u8], d: &mut [u8]) -> Loading
    requires { Lent 0 state.old d.old [] × Loadable file.now (state_of state.old) }
    ensures { Ends (load_all (entries_in file.now) (state_of state.old) d.old) (entries_in file.now)
        state.old d.old result state.new d.new }
{
    let mut saved = [0u8; places::DICTIONARY_LENGTH];
    saved.copy_from_slice(d);
    let tally = try_entries(file, d);
    if let Err(why) = tally.last {
        d.copy_from_slice(&saved);
        return aborted(tally, why);
    }
    restart(tally.heartbeat, state);
    act_on_mode(tally.mode, state, d);
    taken(tally)
}

// The load of a file: refused, the first test that fires decides; else its entries in order, all of them or none.
pub fn load(file: &[u8], state: &mut [u8], d: &mut [u8]) -> Loading
    requires { Lent 0 state.old d.old [] }
    ensures { LoadsIn file.now state.old d.old result state.new d.new }
{
    if !may_load(state) {
        return refused(Refusal::WrongState);
    }
    if file.len() < COUNT_SIZE {
        return refused(Refusal::FileTooShort);
    }
    if MOST_ENTRIES < count_in(file) {
        return refused(Refusal::TooManyEntries);
    }
    if !is_whole(file) {
        return refused(Refusal::FileMisfit);
    }
    if names(file, CONTROL_WORD) {
        return refused(Refusal::ControlWordEntry);
    }
    load_entries(file, state, d)
}
