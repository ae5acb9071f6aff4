// The ready frame of a transmit PDO, worked where it stands in the state's bytes.
ghost use Rattle.std.specs.Prelude.{◌≡◌, not, ◌+◌, ◌^◌, ◌<◌, ◌≤◌, length};
ghost use Rattle.std.proofs.lemmas.List.Edits.{sets};
ghost use Rattle.rules_dictionary.specs.Table.{each_way, dictionary_length};
ghost use Rattle.rules_dictionary.specs.Plans.{plans_of, ready_of};
ghost use Rattle.rules.specs.Outcome.{same_data, most_data};
ghost use Rattle.form.specs.Form.{data_length, data_form, plan_length, plan_at, state_of, plan_in, ready_in};
ghost use Rattle.form.specs.Holding.{Holds, with_ready, readying};
ghost use Rattle.mapping.specs.Moves.{joined_moves, ready_by, MovesFit};
ghost use Rattle.mapping.specs.Received.{moves_of};
ghost use Rattle.mapping.specs.Afresh.{GivesPlans, which_change};

use crate::frames::same_data;
use crate::kept::{DATA_OFFSET, MOVES_OFFSET, STEP};
use crate::received::plan_place;
use crate::words::{place_of, size_of};
use dictionary::places::EACH_WAY;
use dictionary::{read, read4, write, write4};
use form::{layout, read_frame};

// The values that the plan at a place maps into the bytes from a place before it on, one behind another. Where they end.
fn lay_values(state: &mut [u8], d: &[u8], first: u32, plan: u32) -> u32
    requires in_bounds { (first + most_data ≤ plan) × ((plan + plan_length ≤ length state.old) × (plan < 2 ^ 15)) }
    requires moves_fit { (length d.now ≡ dictionary_length) × MovesFit (plan_at plan state.old).moves (plan_at plan state.old).count }
    ensures laid { state.new ≡
        sets state.old first (joined_moves d.now (moves_of (plan_at plan state.old))) }
    ensures end { result ≡ first + length (joined_moves d.now (moves_of (plan_at plan state.old))) }
{
    let count = state[plan as usize] as u32;
    let mut at = first;
    let mut spot = plan + MOVES_OFFSET;
    // Not over the plan's moves as an iterator: that lends the state, which the loop writes.
    for _ in 0..count {
        let word = read4(state, spot as usize);
        let size = size_of(word);
        write(
            state,
            at as usize,
            size,
            read(d, place_of(word) as usize, size),
        );
        at += size as u32;
        spot += STEP;
    }
    at
}

// The frame that the plan at a place gives into the bytes at a place before it: its length, the values that are mapped, then zeros.
fn lay(state: &mut [u8], d: &[u8], frame: u32, plan: u32)
    requires in_bounds { (frame + data_length ≤ plan) × ((plan + plan_length ≤ length state.old) × (plan < 2 ^ 15)) }
    requires moves_fit { (length d.now ≡ dictionary_length) × MovesFit (plan_at plan state.old).moves (plan_at plan state.old).count }
    ensures { state.new ≡ sets state.old frame (data_form (ready_by d.now (plan_at plan state.old))) }
{
    let first = frame + DATA_OFFSET;
    write4(state, first as usize, 0);
    write4(state, (first + STEP) as usize, 0);
    let end = lay_values(state, d, first, plan);
    state[frame as usize] = (end - first) as u8;
}

// The ready frame of transmit PDO t worked again by its plan. Whether it changed.
fn renew(state: &mut [u8], d: &[u8], t: usize) -> bool
    requires holds { Holds state.old (state_of state.old) × ((length d.now ≡ dictionary_length) × (t < each_way)) }
    requires moves_fit { MovesFit (plan_in state.old (each_way + t)).moves (plan_in state.old (each_way + t)).count }
    ensures after { Holds state.new
        (readying t (ready_by d.now (plan_in state.old (each_way + t))) (state_of state.old)) }
    ensures change { result ≡ not (same_data (ready_in state.old t) (ready_by d.now (plan_in state.old (each_way + t)))) }
{
    let plan = plan_place(EACH_WAY + t);
    let frame = (layout::READY + layout::FRAME_LENGTH * t) as u32;
    let before = read_frame(state, frame as usize);
    lay(state, d, frame, plan);
    !same_data(before, read_frame(state, frame as usize))
}

// The ready frames of the transmit PDOs worked again by their plans, where those are fresh. Which of them changed.
pub fn renew_all(state: &mut [u8], d: &[u8]) -> [bool; 4]
    requires { Holds state.old (state_of state.old) × (GivesPlans d.now × ((state_of state.old).axis.plans ≡ plans_of d.now)) }
    ensures holds { Holds state.new (with_ready (ready_of d.now) (state_of state.old)) }
    ensures value { result ≡ which_change (state_of state.old).axis.ready (ready_of d.now) }
{
    let mut changed = [false; 4];
    for t in 0..EACH_WAY {
        changed[t] = renew(state, d, t);
    }
    changed
}
