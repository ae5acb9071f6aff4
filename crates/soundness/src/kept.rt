// Plans and ready frames, which the state's bytes keep, beside the mappings in the dictionary. What stands for the four PDOs of a direction
// is walked from place to place, so that no PDO's place is worked out of its number. The places are counted by hand, each by its own step:
// the bytes behind them are read by `is_plan_kept` and `is_frame_kept`, whose contracts speak of places, so that chunks would serve neither.
ghost use Rattle.std.specs.Prelude.{◌≡◌, true, ◌+◌, ◌*◌, ◌^◌, ◌<◌, ◌≤◌, length};
ghost use Rattle.rules_dictionary.specs.Table.{each_way, dictionary_length};
ghost use Rattle.form.specs.Form.{plan_length, state_length, state_of};
ghost use Rattle.mapping.specs.Words.{way_of, named_for};
ghost use Rattle.mapping.specs.Kept.{record_length};
ghost use Rattle.soundness.specs.Kept.{plans_kept_in, plans_kept_from, ready_kept};

use dictionary::places;
use form::layout;
use mapping::{is_frame_kept, is_plan_kept, receive_slots, transmit_slots};

// Counted in a word of the controller: the PDOs of a direction, and the bytes of a plan, of a mapping record and of a frame.
const EACH_WAY: u32 = places::EACH_WAY as u32;

const PLAN_LENGTH: u32 = layout::PLAN_LENGTH as u32;

const MAPPING_LENGTH: u32 = places::MAPPING_LENGTH as u32;

const FRAME_LENGTH: u32 = layout::FRAME_LENGTH as u32;

// Where the first plan and the first mapping record of each direction stand, and the first ready frame.
const RECEIVE_PLANS: u32 = layout::PLANS as u32;

const TRANSMIT_PLANS: u32 = RECEIVE_PLANS + EACH_WAY * PLAN_LENGTH;

const RECEIVE_MAPPINGS: u32 = places::RECEIVE_MAPPING as u32;

const TRANSMIT_MAPPINGS: u32 = places::TRANSMIT_MAPPING as u32;

const READY: u32 = layout::READY as u32;

// Whether the plans of the four PDOs of a direction are kept; the first one's plan and mapping record stand at those places. The flag for the
// direction stands for `way_of transmit` in the contracts of mapping.
fn are_kept(named: &[u32], state: &[u8], d: &[u8], plans: u32, maps: u32, transmit: bool) -> bool
    requires slots { named.now ≡ named_for (way_of transmit) }
    requires plans_in_bounds { (plans + plan_length * each_way ≤ length state.now) × (plans < 2 ^ 14) }
    requires records_in_bounds { (maps + record_length * each_way ≤ length d.now) × (maps < 2 ^ 14) }
    ensures { result ≡ plans_kept_from each_way (way_of transmit) plans maps state.now d.now }
{
    let mut plan = plans;
    let mut map = maps;
    for _ in 0..EACH_WAY {
        if !is_plan_kept(named, state, d, plan, map, transmit) {
            return false;
        }
        plan += PLAN_LENGTH;
        map += MAPPING_LENGTH;
    }
    true
}

// Whether every PDO's mapping is legal, with a count in range, and its kept plan the one that it gives, in a plan's form.
pub fn are_plans_kept(state: &[u8], d: &[u8]) -> bool
    requires { (length state.now ≡ state_length) × (length d.now ≡ dictionary_length) }
    ensures { result ≡ plans_kept_in state.now d.now }
{
    let received = receive_slots();
    let transmitted = transmit_slots();
    if !are_kept(&received, state, d, RECEIVE_PLANS, RECEIVE_MAPPINGS, false) {
        return false;
    }
    are_kept(
        &transmitted,
        state,
        d,
        TRANSMIT_PLANS,
        TRANSMIT_MAPPINGS,
        true,
    )
}

// Whether every transmit PDO's ready frame is the one that its mapping gives; the plans are known to be the mappings'.
pub fn are_frames_kept(state: &[u8], d: &[u8]) -> bool
    requires { (length state.now ≡ state_length) × ((length d.now ≡ dictionary_length) × (plans_kept_in state.now d.now ≡ true)) }
    ensures { result ≡ ready_kept d.now (state_of state.now).axis.ready }
{
    let mut frame = READY;
    let mut plan = TRANSMIT_PLANS;
    for _ in 0..EACH_WAY {
        if !is_frame_kept(state, d, frame, plan) {
            return false;
        }
        frame += FRAME_LENGTH;
        plan += PLAN_LENGTH;
    }
    true
}
