// The four public calls: power-up, one frame, one event, the load of a file. Each takes the state and hands it back by value; dictionary and
// output are lent, of a load the dictionary alone. None asks anything of its caller, and each promise is one equation with the rules' answer
// (`Calls.answer`, `Calls.load_answer`): it determines the refusal, the number of frames or what a load names, the state and every byte of what is
// lent. proofs/Unique.antt says so.
// Each stands upon the same call on a state that stays in its bytes (`power_up_in`, `frame_in`, `event_in`, `load_in`), which `powering`, `opened`
// and `loadable` test first: there each service reads what it needs of the state and puts what it changes, and nothing else is copied.

#![tactic(auto)]

mod opens; // the refusals that need no more than what is lent
mod served; // a frame, by its identifier
mod settling; // 6041h and 6061h
mod counting; // the ticks inside the window
mod finishing; // the call's end

ghost use Rattle.std.specs.Prelude.{◌≡◌, false, ◌≤◌, length, is_err};
ghost use Rattle.state.specs.declared.State.{State};
ghost use Rattle.state.specs.NmtStates.{is_operational};
ghost use Rattle.rules_dictionary.specs.Plans.{pdo_data};
ghost use Rattle.rules.specs.Outcome.{most_data};
ghost use Rattle.rules.specs.Calls.{power_up_call, frame_call, event_call, answer, load_answer};
ghost use Rattle.form.specs.Form.{state_length, state_of};
ghost use Rattle.calls.specs.Opening.{powering};
ghost use Rattle.calls.specs.Answers.{outcome, refused_answer, refused_given, accepted_given, Answers};
ghost use Rattle.calls.specs.Loads.{is_accepted, load_outcome, LoadStarts, LoadAnswers};
ghost use Rattle.calls.specs.Frames.{Starts};

use events::{event_of, is_in_place};
use finishing::finish;
use form::{form_of, read_node, state_of, write_head, write_plans};
use mapping::{all_plans, renew_all};
use nmt::{fresh_drive, fresh_node, start};
pub use opens::{loadable, opened, powering};
use output::{MOST_DATA, OUTPUT_LENGTH};
use rules_dictionary::PdoData;
use served::serve_frame;
use settling::settle;
use state::{Answer, Refusal, State, Transfer};
use tpdo::IDLE;

// The greatest identifier of a frame.
const LAST_IDENTIFIER: u32 = 0x7FF;

// What a call answers beside the lent bytes, its state's among them.
// These three stay a refusal beside numbers, in no `Result` and no generic type: `Answers`, `LoadAnswers`, `load_outcome` and the rules' `Outcome`
// name their fields, and have `Accepted` among the refusals.
#[derive(Clone, Copy)]
pub struct Given {
    pub refusal: Refusal,
    pub frames: u8,
}

// What a load answers beside the lent bytes: with the refusal of an entry which one it is, from 1, and its abort code; else zeros.
#[derive(Clone, Copy)]
pub struct LoadGiven {
    pub refusal: Refusal,
    pub entry: u16,
    pub code: u32,
}

// The same, with the state by value.
#[derive(Clone, Copy)]
pub struct LoadAnswer {
    pub refusal: Refusal,
    pub entry: u16,
    pub code: u32,
    pub state: State,
}

// A refused call: no frames, and every byte stays.
fn refused(why: Refusal) -> Given
    ensures { result ≡ refused_given why }
{
    Given {
        refusal: why,
        frames: 0,
    }
}

// An accepted call, with that many frames.
fn accepted(frames: u8) -> Given
    ensures { result ≡ accepted_given frames }
{
    Given {
        refusal: Refusal::Accepted,
        frames,
    }
}

// Whether the node is Operational.
fn is_operational(state: &[u8]) -> bool
    requires { length state.now ≡ state_length }
    ensures { result ≡ is_operational (state_of state.now).node.nmt }
{
    read_node(state).nmt.is_operational()
}

// The data of a frame.
fn content_of(bytes: &[u8]) -> PdoData
    requires { length bytes.now ≤ most_data }
    ensures { result ≡ pdo_data bytes.now }
{
    let mut content = [0u8; MOST_DATA];
    content[..bytes.len()].copy_from_slice(bytes);
    PdoData {
        length: bytes.len() as u8,
        bytes: content,
    }
}

// Power-up as node n, where nothing refuses it: every byte of the state is written, whatever stood there.
pub fn power_up_in(state: &mut [u8], d: &mut [u8], output: &mut [u8], n: u32) -> Given
    requires { (length state.old ≡ state_length) × (is_err (powering n d.old output.old) ≡ false) }
    ensures { (s : State) → Answers (answer (power_up_call n) s d.old output.old)
        result state.new d.new output.new }
{
    let id = n as u8;
    let done = start(d, output, id);
    let node = fresh_node(id);
    let drive = fresh_drive();
    settle(node, drive, true, d);
    let none = PdoData {
        length: 0,
        bytes: [0; 8],
    };
    write_plans(state, all_plans(d));
    write_head(
        state,
        node,
        Transfer::NoTransfer,
        drive,
        [none; 4],
        [none; 4],
        [IDLE; 4],
    );
    renew_all(state, d);
    accepted(done.frames as u8)
}

// One frame of the bus.
pub fn frame_in(
    state: &mut [u8],
    d: &mut [u8],
    output: &mut [u8],
    identifier: u32,
    bytes: &[u8],
) -> Given
    requires { Starts state.old d.old output.old }
    ensures { Answers
        (answer (frame_call identifier bytes.now) (state_of state.old) d.old output.old)
        result state.new d.new output.new }
{
    if LAST_IDENTIFIER < identifier {
        return refused(Refusal::BadFrame);
    }
    if MOST_DATA < bytes.len() {
        return refused(Refusal::BadFrame);
    }
    let was = is_operational(state);
    let done = serve_frame(identifier as u16, content_of(bytes), state, d, output);
    accepted(finish(done, was, state, d, output))
}

// One event of the amplifier.
pub fn event_in(
    state: &mut [u8],
    d: &mut [u8],
    output: &mut [u8],
    number: u32,
    arguments: &[u8],
) -> Given
    requires { Starts state.old d.old output.old }
    ensures { Answers
        (answer (event_call number arguments.now) (state_of state.old) d.old output.old)
        result state.new d.new output.new }
{
    match event_of(number, arguments) {
        None => refused(Refusal::BadEvent),
        Some(e) => {
            if !is_in_place(e, state) {
                return refused(Refusal::OutOfPlace);
            }
            let was = is_operational(state);
            let done = events::happens(e, state, d, output);
            accepted(finish(done, was, state, d, output))
        }
    }
}

// Whether nothing refuses a call.
fn is_accepted(refusal: Refusal) -> bool
    ensures { result ≡ is_accepted refusal }
{
    matches!(refusal, Refusal::Accepted)
}

// The load of a file. No frame is sent, so that the output which the call's end asks for is none of the caller's.
pub fn load_in(state: &mut [u8], d: &mut [u8], file: &[u8]) -> LoadGiven
    requires { LoadStarts state.old d.old }
    ensures { LoadAnswers (load_answer file.now (state_of state.old) d.old)
        result state.new d.new }
{
    let loading = load::load(file, state, d);
    let given = LoadGiven {
        refusal: loading.refusal,
        entry: loading.entry,
        code: loading.code,
    };
    if !is_accepted(loading.refusal) {
        return given;
    }
    let mut output = [0u8; OUTPUT_LENGTH];
    finish(loading.done, false, state, d, &mut output);
    given
}

// A refused call, by value: no frames, and the state that was given.
// Stays beside `load_refused`, as `with_state` beside `load_with_state`: a trait's two methods in two impls would be longer than the four functions.
fn refuse(why: Refusal, s: State) -> Answer
    ensures { result ≡ refused_answer why s }
{
    Answer {
        refusal: why,
        frames: 0,
        state: s,
    }
}

// What was given, with the state that the bytes hold.
fn with_state(given: Given, state: &[u8]) -> Answer
    requires { length state.now ≡ state_length }
    ensures { result ≡ record { refusal = given.refusal; frames = given.frames; state = state_of state.now } }
{
    Answer {
        refusal: given.refusal,
        frames: given.frames,
        state: state_of(state),
    }
}

// Power-up as node n.
pub fn power_up(s: State, d: &mut [u8], output: &mut [u8], n: u32) -> Answer
    ensures { outcome result d.new output.new ≡ answer (power_up_call n) s d.old output.old }
{
    if let Err(why) = powering(n, d, output) {
        return refuse(why, s);
    }
    let mut state = form_of(s);
    let given = power_up_in(&mut state, d, output, n);
    with_state(given, &state)
}

// One frame of the bus. Stays beside `event`, which differs in one line: a closure for it needs clauses as long as those of `frame_in`.
// Power-up and the load differ in their tests too, and the load in its answer.
pub fn frame(s: State, d: &mut [u8], output: &mut [u8], identifier: u32, bytes: &[u8]) -> Answer
    ensures { outcome result d.new output.new
        ≡ answer (frame_call identifier bytes.now) s d.old output.old }
{
    let mut state = form_of(s);
    if let Err(why) = opened(&state, d, output) {
        return refuse(why, s);
    }
    let given = frame_in(&mut state, d, output, identifier, bytes);
    with_state(given, &state)
}

// One event of the amplifier.
pub fn event(s: State, d: &mut [u8], output: &mut [u8], number: u32, arguments: &[u8]) -> Answer
    ensures { outcome result d.new output.new
        ≡ answer (event_call number arguments.now) s d.old output.old }
{
    let mut state = form_of(s);
    if let Err(why) = opened(&state, d, output) {
        return refuse(why, s);
    }
    let given = event_in(&mut state, d, output, number, arguments);
    with_state(given, &state)
}

// A load that its file has no part in refusing.
fn load_refused(why: Refusal, s: State) -> LoadAnswer
    ensures { result ≡ record { refusal = why; entry = 0; code = 0; state = s } }
{
    LoadAnswer {
        refusal: why,
        entry: 0,
        code: 0,
        state: s,
    }
}

// What a load gave, with the state that the bytes hold.
fn load_with_state(given: LoadGiven, state: &[u8]) -> LoadAnswer
    requires { length state.now ≡ state_length }
    ensures { result ≡ record { refusal = given.refusal; entry = given.entry; code = given.code; state = state_of state.now } }
{
    LoadAnswer {
        refusal: given.refusal,
        entry: given.entry,
        code: given.code,
        state: state_of(state),
    }
}

// The load of a file.
pub fn load(s: State, d: &mut [u8], file: &[u8]) -> LoadAnswer
    ensures { load_outcome result d.new ≡ load_answer file.now s d.old }
{
    let mut state = form_of(s);
    if let Err(why) = loadable(&state, d) {
        return load_refused(why, s);
    }
    let given = load_in(&mut state, d, file);
    load_with_state(given, &state)
}
