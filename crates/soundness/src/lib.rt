// Whether a state's bytes and a dictionary are sound: document 01, 'Calls and refusals', the paragraph that begins "Sound:". It is tested
// at every call, where the bytes stand and in one pass.

#![tactic(auto)]

mod rows; // constants and ranges, by row
mod identifiers; // the PDO identifiers, each alone and against the others
mod legal; // the dictionary's own clauses
mod axis; // the drive, 6041h, 6061h, the heartbeat count and the ticks inside the window
mod kept; // plans and ready frames beside the mappings
mod waiting; // what waits for SYNC: SYNC counts, due marks and held frames
mod transfers; // the transfer in progress

ghost use Rattle.std.specs.Prelude.{◌≡◌, ◌&&◌, length};
ghost use Rattle.rules_dictionary.specs.Table.{dictionary_length};
ghost use Rattle.rules_dictionary.specs.TheNode.{is_node_id};
ghost use Rattle.rules.specs.Sound.{sound};
ghost use Rattle.form.specs.Form.{state_length, state_of, is_form};
ghost use Rattle.form.specs.Own.{head_own};
ghost use Rattle.soundness.specs.Transfers.{transfer_clear};
ghost use Rattle.soundness.specs.Parts.{pdo_clauses};

use axis::{is_drive_clear, is_stay_sound};
use form::{is_head_own, read_drive, read_node};
use kept::{are_frames_kept, are_plans_kept};
use legal::dictionary_legal;
use state::{FIRST_NODE, LAST_NODE, NmtState};
use transfers::is_transfer_clear;
use waiting::is_waiting_sound;

// "N legal". Of the byte in `Node`, which the rules' `sound` is about; what power-up is given is a number of four bytes, tested there.
fn is_node_id(n: u8) -> bool
    ensures { result ≡ is_node_id n }
{
    let id = n as u32;
    (FIRST_NODE <= id) & (id <= LAST_NODE)
}

// Whether mappings are legal, and plans, ready frames and what waits for SYNC as they should be, in the NMT state m.
fn are_pdos_clear(m: NmtState, state: &[u8], d: &[u8]) -> bool
    requires { (length state.now ≡ state_length) × (length d.now ≡ dictionary_length) }
    ensures { result ≡ pdo_clauses m state.now d.now }
{
    if !are_plans_kept(state, d) {
        return false;
    }
    if !are_frames_kept(state, d) {
        return false;
    }
    is_waiting_sound(m, state, d)
}

// Whether all bytes but the plans' are a state's form, and its transfer is sound.
fn is_head_clear(state: &[u8]) -> bool
    requires { length state.now ≡ state_length }
    ensures { result ≡ (transfer_clear state.now && head_own state.now) }
{
    if !is_transfer_clear(state) {
        return false;
    }
    is_head_own(state)
}

// Whether the bytes are a state's form, and the state sound with the dictionary.
pub fn is_sound(state: &[u8], d: &[u8]) -> bool
    requires { (length state.now ≡ state_length) × (length d.now ≡ dictionary_length) }
    ensures { result ≡ (is_form state.now && sound (state_of state.now) d.now) }
{
    if !is_head_clear(state) {
        return false;
    }
    if !is_stay_sound(state, d) {
        return false;
    }
    let node = read_node(state);
    if !is_node_id(node.id) {
        return false;
    }
    if !dictionary_legal(d, node.id) {
        return false;
    }
    let drive = read_drive(state);
    if !is_drive_clear(node, drive, d) {
        return false;
    }
    are_pdos_clear(node.nmt, state, d)
}
