// The device name, read by segments.
ghost use Rattle.std.specs.Prelude.{◌≡◌, ◌*◌, ◌≤◌, length};
ghost use Rattle.rules_services.specs.Segments.{segment_size, segment_of, is_last_of, toggle_at, segment_byte};
ghost use Rattle.sdo.specs.Requests.{segment_bytes, due_segment, segment_asked_in};
ghost use Rattle.sdo.specs.Serving.{Ready, Speaks};

use crate::aborts::Abort;
use crate::replies::{abort, answer};
use crate::segments::{
    LAST, NAME_OBJECT, NOWHERE, SEGMENT_SIZE, TOGGLE, UNUSED, flag, object_in, toggle_of,
};
use dictionary::name::{NAME_LENGTH, name_at};
use form::read_transfer;
use output::Done;
use state::Transfer;

// The toggle of segment k, from 0 on: that of the first is 0.
fn toggle_at(k: u8) -> bool
    ensures { result ≡ toggle_at k }
{
    k % 2 == 1
}

// Where its first character stands in the name.
fn first_of(k: u8) -> usize
    ensures { result ≡ k * segment_size }
{
    (k as usize) * (SEGMENT_SIZE as usize)
}

// Whether it is the last.
fn is_last_of(k: u8) -> bool
    ensures { result ≡ is_last_of k }
{
    NAME_LENGTH <= first_of(k) + (SEGMENT_SIZE as usize)
}

// How many characters of the name it carries.
fn carried_in(k: u8) -> u8
    ensures { (result ≡ length (segment_of k)) × (result ≤ segment_size) }
{
    NAME_LENGTH
        .saturating_sub(first_of(k))
        .min(SEGMENT_SIZE as usize) as u8
}

// Its command byte.
fn segment_byte(k: u8) -> u8
    ensures { result ≡ segment_byte k }
{
    flag(TOGGLE, toggle_at(k)) + UNUSED * (SEGMENT_SIZE - carried_in(k)) + flag(LAST, is_last_of(k))
}

// All its bytes, unused ones zero. Spelled out: a `for` would fill a zeroed array from its second byte, and need an invariant for it.
fn segment_bytes(k: u8) -> [u8; 8]
    ensures { result ≡ segment_bytes k }
{
    let first = first_of(k);
    [
        segment_byte(k),
        name_at(first),
        name_at(first + 1),
        name_at(first + 2),
        name_at(first + 3),
        name_at(first + 4),
        name_at(first + 5),
        name_at(first + 6),
    ]
}

// A segment asked for where segment k is due.
fn due_segment(k: u8, request: [u8; 8], state: &mut [u8], output: &mut [u8]) -> Done
    requires { Ready state.old output.old }
    ensures { Speaks (due_segment k request) state.old output.old result state.new output.new }
{
    if toggle_of(request) != toggle_at(k) {
        return abort(Abort::WrongToggle, NAME_OBJECT, state, output);
    }
    let content = segment_bytes(k);
    if is_last_of(k) {
        return answer(content, Transfer::NoTransfer, state, output);
    }
    answer(content, Transfer::Uploading(k + 1), state, output)
}

// A segment asked for: "a segment with no transfer of its direction running, 05040001h".
pub fn segment_asked(request: [u8; 8], state: &mut [u8], output: &mut [u8]) -> Done
    requires { Ready state.old output.old }
    ensures { Speaks (segment_asked_in request) state.old output.old result state.new output.new }
{
    match read_transfer(state) {
        Transfer::NoTransfer => abort(Abort::UnknownCommand, NOWHERE, state, output),
        Transfer::Uploading(k) => due_segment(k, request, state, output),
        Transfer::Downloading(g) => abort(Abort::UnknownCommand, object_in(g), state, output),
    }
}
