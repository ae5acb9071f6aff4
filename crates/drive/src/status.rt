// Document 01, 'Drive states' and 'Set-points': the status word 6041h. Of ticket 2, bit 10 with the window time 6068h.

ghost use Rattle.std.specs.Prelude.{◌≡◌, length};
ghost use Rattle.drive.specs.StatusWord.{halt_bit, shown, slow, ack_in_mode, reached_at_once, position_reached, velocity_reached, stands_still};
ghost use Rattle.drive.specs.StatusWord.{reached_in_mode, enabled_bits, status};
ghost use Rattle.rules_dictionary.specs.Numbers.{bit};
ghost use Rattle.rules_dictionary.specs.Table.{control_word, dictionary_length};
ghost use Rattle.rules_dictionary.specs.Values.{read};

use crate::states::{has, is_enabled, state_word};
use crate::window::{is_inside, is_near};
use crate::words::is_within;
use crate::{Drive, Store};
use dictionary::objects;
use rules_dictionary::Mode;

// The bits of 6041h beside the state's, and the one of 6040h that they look at.
const VOLTAGE_SHOWN: u16 = 0x10;

const REMOTE_SHOWN: u16 = 0x200;

const REACHED_SHOWN: u16 = 0x400;

const LIMIT_SHOWN: u16 = 0x800;

const ACK_SHOWN: u16 = 0x1000;

const HALT: u16 = 0x100;

// The bit of that weight, where the flag is set. For a word alone: one function for bytes too would need a trait with a zero and its law.
// Stays an `if`: `weight * u16::from(on)` is no plainer, and makes a product of a choice.
fn shown(weight: u16, on: bool) -> u16
    ensures { result ≡ shown weight on }
{
    if on { weight } else { 0 }
}

// Is the magnitude of 606Ch at most 606Fh.
#[tactic(auto, unfolding(crate::specs::StatusWord::slow))]
fn is_slow(d: &[u8]) -> bool
    requires { length d.now ≡ dictionary_length }
    ensures { result ≡ slow d.now }
{
    is_within(
        u32::from(objects::velocity_threshold(d)),
        objects::velocity(d),
        0,
    )
}

// "bit 12 in mode 1, taken or Queued; in mode 3, magnitude of 606Ch at most 606Fh".
#[tactic(auto, unfolding(crate::specs::StatusWord::ack_in_mode))]
fn is_ack(m: Mode, v: Drive, d: &[u8]) -> bool
    requires { length d.now ≡ dictionary_length }
    ensures { result ≡ ack_in_mode m v d.now }
{
    match m {
        Mode::NoMode => false,
        Mode::ProfilePosition => v.taken || v.store.is_queued(),
        Mode::ProfileVelocity => is_slow(d),
    }
}

// "in mode 1 Rested or active target within 6067h of 6064h (Empty: 0)".
// Stays a `match` beside that of `is_inside`: the two differ where the store is at rest, and each is one definition of ticket 2 or document 01.
#[tactic(auto, unfolding(crate::specs::StatusWord::reached_at_once))]
fn is_reached_at_once(store: Store, d: &[u8]) -> bool
    requires { length d.now ≡ dictionary_length }
    ensures { result ≡ reached_at_once store d.now }
{
    match store {
        Store::Empty => false,
        Store::Rested(_) => true,
        Store::Moving(a) | Store::Queued(a, _) => is_near(a.target, d),
    }
}

// "bit 10 .. needs the position inside 6067h .. for the window time 6068h .. At 0 the answer is as before."
#[tactic(auto, unfolding(crate::specs::StatusWord::position_reached))]
fn is_position_reached(v: Drive, d: &[u8]) -> bool
    requires { length d.now ≡ dictionary_length }
    ensures { result ≡ position_reached v d.now }
{
    let time = objects::window_time(d);
    if time == 0 {
        is_reached_at_once(v.store, d)
    } else {
        time <= v.stay && is_inside(v.store, d)
    }
}

// "in mode 3 60FFh within 606Dh of 606Ch".
#[tactic(auto, unfolding(crate::specs::StatusWord::velocity_reached))]
fn is_velocity_reached(d: &[u8]) -> bool
    requires { length d.now ≡ dictionary_length }
    ensures { result ≡ velocity_reached d.now }
{
    is_within(
        u32::from(objects::velocity_window(d)),
        objects::target_velocity(d),
        objects::velocity(d),
    )
}

// With bit 8 of 6040h set: "606Ch is 0".
#[tactic(auto, unfolding(crate::specs::StatusWord::stands_still))]
fn stands_still(d: &[u8]) -> bool
    requires { length d.now ≡ dictionary_length }
    ensures { result ≡ stands_still d.now }
{
    objects::velocity(d) == 0
}

// Is bit 8 of 6040h set.
fn halts(d: &[u8]) -> bool
    requires { length d.now ≡ dictionary_length }
    ensures { result ≡ bit halt_bit (read d.now control_word) }
{
    has(objects::control_word(d), HALT)
}

// "Bit 10 with bit 8 of 6040h set (modes 1, 3): 606Ch is 0; else .."
#[tactic(auto, unfolding(crate::specs::StatusWord::reached_in_mode))]
fn is_reached(m: Mode, v: Drive, d: &[u8]) -> bool
    requires { length d.now ≡ dictionary_length }
    ensures { result ≡ reached_in_mode m v d.now }
{
    match m {
        Mode::NoMode => false,
        _ if halts(d) => stands_still(d),
        Mode::ProfilePosition => is_position_reached(v, d),
        Mode::ProfileVelocity => is_velocity_reached(d),
    }
}

// "Enabled only": bits 12, 11 and 10.
#[tactic(auto, unfolding(crate::specs::StatusWord::enabled_bits))]
fn enabled_bits(v: Drive, d: &[u8]) -> u16
    requires { length d.now ≡ dictionary_length }
    ensures { result ≡ enabled_bits v d.now }
{
    shown(ACK_SHOWN, is_ack(v.mode, v, d))
        + shown(LIMIT_SHOWN, v.limit)
        + shown(REACHED_SHOWN, is_reached(v.mode, v, d))
}

// "Bit 4 voltage; bit 9 not Stopped; rest below, else 0." The flags: not Stopped, voltage.
#[tactic(auto, unfolding(crate::specs::StatusWord::status))]
pub fn status(remote: bool, voltage: bool, v: Drive, d: &[u8]) -> u16
    requires { length d.now ≡ dictionary_length }
    ensures { result ≡ status remote voltage v d.now }
{
    let always = state_word(v.state) + shown(VOLTAGE_SHOWN, voltage) + shown(REMOTE_SHOWN, remote);
    if is_enabled(v.state) {
        always + enabled_bits(v, d)
    } else {
        always
    }
}
