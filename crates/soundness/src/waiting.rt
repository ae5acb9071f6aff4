// What waits for SYNC, tested where the state's bytes keep it: SYNC counts, due marks and held frames. Mostly nothing waits, which their bytes
// tell all together; then of a transmit PDO two bytes tell it, of a receive PDO nine.
ghost use Rattle.std.specs.Prelude.{◌≡◌, true, false, ◌+◌, ◌*◌, ◌<◌, ◌≤◌, length, take};
ghost use Rattle.rules_dictionary.specs.Table.{each_way, dictionary_length};
ghost use Rattle.rules_dictionary.specs.Plans.{pdo_data};
ghost use Rattle.dictionary.specs.Sizes.{IsPdo};
ghost use Rattle.form.specs.Form.{data_length, data_at, pace_at, plan_in, state_length, state_of};
ghost use Rattle.mapping.specs.Received.{PlanFits, moves_of, sizes};
ghost use Rattle.rules.specs.Outcome.{same_data};
ghost use Rattle.rules_services.specs.PdoTraffic.{works, no_data};
ghost use Rattle.rules.specs.Sound.{count_sound, due_sound, pace_sound, held_sound};
ghost use Rattle.soundness.specs.Kept.{plan_kept, plans_kept_in};
ghost use Rattle.soundness.specs.Waiting.{pace_place, held_frame_place, none_waiting, wait_sound, zero_from};

use dictionary::choices::LAST_SYNCHRONOUS;
use dictionary::places::EACH_WAY;
use dictionary::{read4, records};
use form::{bits_of_words, layout, read_frame};
use mapping::{are_legal, is_open, length_of};
use rules_dictionary::PdoData;
use state::NmtState;

// The PDOs of a direction, counted in a word of the controller.
const ROUNDS: u32 = EACH_WAY as u32;

// The words of all that waits: the held frames, behind them the SYNC counts and due marks.
const WAITING_WORDS: usize = (layout::PLANS - layout::HELD) / layout::WORD_LENGTH;

// The byte of a mark that is set.
const MARKED: u8 = 1;

// "A PDO works only in Operational, valid, with something mapped."
fn works(m: NmtState, d: &[u8], p: usize) -> bool
    requires { (length d.now ≡ dictionary_length) × IsPdo p }
    ensures { result ≡ works m d.now p }
{
    if !m.is_operational() {
        return false;
    }
    is_open(d, p)
}

// "SYNC counts below their type and zero where unused"
fn is_count_sound(m: NmtState, d: &[u8], p: usize, count: u8) -> bool
    requires { (length d.now ≡ dictionary_length) × IsPdo p }
    ensures { result ≡ count_sound m d.now p count }
{
    if count == 0 {
        return true;
    }
    if !works(m, d, p) {
        return false;
    }
    let kind = records::transmission_type(d, p);
    if LAST_SYNCHRONOUS < kind {
        return false;
    }
    count < kind
}

// "due marks .. only in Operational, due for working type 0 TPDOs"
fn is_mark_sound(m: NmtState, d: &[u8], p: usize, due: bool) -> bool
    requires { (length d.now ≡ dictionary_length) × IsPdo p }
    ensures { result ≡ due_sound m d.now p due }
{
    if !due {
        return true;
    }
    if !works(m, d, p) {
        return false;
    }
    records::transmission_type(d, p) == 0
}

// Whether what is kept of transmit PDO t is sound.
fn is_pace_sound(m: NmtState, state: &[u8], d: &[u8], t: usize) -> bool
    requires { (length state.now ≡ state_length) × ((length d.now ≡ dictionary_length) × (t < each_way)) }
    ensures { result ≡ pace_sound m d.now (t + each_way) (pace_at (pace_place t) state.now) }
{
    let at = layout::PACES + layout::PACE_LENGTH * t;
    let count = state[at];
    let mark = state[at + layout::DUE_OFFSET];
    if (count == 0) & (mark == 0) {
        return true;
    }
    let p = t + EACH_WAY;
    is_count_sound(m, d, p, count) & is_mark_sound(m, d, p, mark == MARKED)
}

// Whether no frame is held at a place, nor a byte of one.
fn is_none_held(state: &[u8], at: usize) -> bool
    requires { at + data_length ≤ length state.now }
    ensures { result ≡ same_data (data_at at state.now) no_data }
{
    let first = at + layout::DATA_OFFSET;
    (state[at] == 0)
        & ((read4(state, first) == 0) & (read4(state, first + layout::WORD_LENGTH) == 0))
}

// Whether the bytes of a frame from a place on are zero. Over places, not a slice: a slice from `first` on needs a test that it is at most eight,
// which this promises for any.
fn is_zero_from(content: [u8; 8], first: u8) -> bool
    ensures { (result ≡ zero_from first content) × (length content ≡ 8) }
{
    for k in first as usize..layout::MOST_DATA {
        if content[k] != 0 {
            return false;
        }
    }
    true
}

// Whether a frame has the length that the plan of PDO p maps, and zeros behind.
fn is_full(state: &[u8], p: usize, frame: PdoData) -> bool
    requires { PlanFits state.now p }
    ensures { result ≡ same_data frame (pdo_data (take (sizes (moves_of (plan_in state.now p))) frame.bytes)) }
{
    let mapped = length_of(state, p);
    if frame.length != mapped {
        return false;
    }
    is_zero_from(frame.bytes, mapped)
}

// "held frames only in Operational, .. held for working synchronous RPDOs, with full length and legal values": of one where something is held
fn is_frame_sound(m: NmtState, state: &[u8], d: &[u8], p: usize, frame: PdoData) -> bool
    requires { (length state.now ≡ state_length) × ((length d.now ≡ dictionary_length)
        × ((p < each_way) × ((plan_kept d.now p (plan_in state.now p) ≡ true) × (same_data frame no_data ≡ false)))) }
    ensures { result ≡ held_sound m d.now p frame }
{
    if frame.length == 0 {
        return false;
    }
    if !works(m, d, p) {
        return false;
    }
    if LAST_SYNCHRONOUS < records::transmission_type(d, p) {
        return false;
    }
    if !is_full(state, p, frame) {
        return false;
    }
    are_legal(state, p, frame.bytes)
}

// Whether what is held for receive PDO p is sound; its plan is known to be its mapping's.
fn is_held_sound(m: NmtState, state: &[u8], d: &[u8], p: usize) -> bool
    requires { (length state.now ≡ state_length) × ((length d.now ≡ dictionary_length)
        × ((p < each_way) × (plan_kept d.now p (plan_in state.now p) ≡ true))) }
    ensures { result ≡ held_sound m d.now p (data_at (held_frame_place p) state.now) }
{
    let at = layout::HELD + layout::FRAME_LENGTH * p;
    if is_none_held(state, at) {
        return true;
    }
    let frame = read_frame(state, at);
    is_frame_sound(m, state, d, p, frame)
}

// Whether nothing waits: neither a SYNC count, nor a due mark, nor a held frame.
fn is_none_waiting(state: &[u8]) -> bool
    requires { length state.now ≡ state_length }
    ensures { result ≡ none_waiting state.now }
{
    bits_of_words(state, layout::HELD, WAITING_WORDS) == 0
}

// Whether what waits for SYNC is sound, one PDO of each way after another; the plans are known to be the mappings'.
fn is_each_sound(m: NmtState, state: &[u8], d: &[u8]) -> bool
    requires { (length state.now ≡ state_length) × ((length d.now ≡ dictionary_length) × (plans_kept_in state.now d.now ≡ true)) }
    ensures { result ≡ wait_sound m d.now (state_of state.now).axis.paces (state_of state.now).axis.held }
{
    for t in 0..ROUNDS {
        if !is_pace_sound(m, state, d, t as usize) {
            return false;
        }
        if !is_held_sound(m, state, d, t as usize) {
            return false;
        }
    }
    true
}

// Whether all that waits for SYNC is sound; the plans are known to be the mappings'. Mostly nothing waits, which needs no loop.
pub fn is_waiting_sound(m: NmtState, state: &[u8], d: &[u8]) -> bool
    requires { (length state.now ≡ state_length) × ((length d.now ≡ dictionary_length) × (plans_kept_in state.now d.now ≡ true)) }
    ensures { result ≡ wait_sound m d.now (state_of state.now).axis.paces (state_of state.now).axis.held }
{
    if is_none_waiting(state) {
        return true;
    }
    is_each_sound(m, state, d)
}
