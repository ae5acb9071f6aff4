// The values that stand packed in a received frame, by the plan of its receive PDO, read where the state's bytes keep it: how many bytes they
// are, whether they may be received, and where they go. Proved against specs/Received.antt; proofs/Unpacked.antt ties that to the rows of the
// rules.

ghost use Rattle.std.specs.Prelude.{◌≡◌, true, ◌*◌, ◌<◌, length};
ghost use Rattle.rules_dictionary.specs.Numbers.{are_bytes};
ghost use Rattle.rules_dictionary.specs.Table.{each_way, dictionary_length};
ghost use Rattle.form.specs.Form.{plan_in, plan_place};
ghost use Rattle.mapping.specs.Received.{PlanFits, moves_of, sizes, is_legal, moves_legal, stored_moves, has_place};

use crate::moves::moves_in;
use crate::words::{place_of, size_of};
use dictionary::choices::is_mode;
use dictionary::{places, read, write};
use form::layout;

// Where the plan of PDO p stands.
pub fn plan_place(p: usize) -> u32
    requires { p < 2 * each_way }
    ensures { result ≡ plan_place p }
{
    (layout::PLANS + layout::PLAN_LENGTH * p) as u32
}

// How many bytes the plan of PDO p maps.
pub fn length_of(state: &[u8], p: usize) -> u8
    requires { PlanFits state.now p }
    ensures { result ≡ sizes (moves_of (plan_in state.now p)) }
{
    let mut total: u8 = 0;
    for word in moves_in(state, p) {
        total += size_of(word);
    }
    total
}

// Whether the plan of PDO p maps the object at a place.
pub fn maps(state: &[u8], p: usize, place: u16) -> bool
    requires { PlanFits state.now p }
    ensures { result ≡ has_place place (moves_of (plan_in state.now p)) }
{
    moves_in(state, p).any(|word| place_of(word) == place)
}

// Whether a value may be received for the object at a place.
fn is_legal(place: u16, v: u32) -> bool
    ensures { result ≡ is_legal place v }
{
    match place as usize {
        places::MODE => is_mode(v),
        places::PROFILE_ACCELERATION => v != 0,
        places::PROFILE_DECELERATION => v != 0,
        _ => true,
    }
}

// Whether every value packed in the bytes may be received by the plan of PDO p.
pub fn are_legal(state: &[u8], p: usize, content: [u8; 8]) -> bool
    requires { PlanFits state.now p }
    ensures { (result ≡ moves_legal (moves_of (plan_in state.now p)) content) × (are_bytes content ≡ true) × (length content ≡ 8) }
{
    let mut byte: u32 = 0;
    for word in moves_in(state, p) {
        let size = size_of(word);
        if !is_legal(place_of(word), read(&content, byte as usize, size)) {
            return false;
        }
        byte += size as u32;
    }
    true
}

// Every value into the dictionary by the plan of PDO p, in order.
pub fn store_values(d: &mut [u8], state: &[u8], p: usize, content: [u8; 8])
    requires { (length d.old ≡ dictionary_length) × PlanFits state.now p }
    ensures { d.new ≡ stored_moves (moves_of (plan_in state.now p)) content d.old }
{
    let mut at: u32 = 0;
    for word in moves_in(state, p) {
        let size = size_of(word);
        write(
            d,
            place_of(word) as usize,
            size,
            read(&content, at as usize, size),
        );
        at += size as u32;
    }
}
