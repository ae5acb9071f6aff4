// The drive's clauses, 6041h and 6061h, and the heartbeat count.
ghost use Rattle.std.specs.Prelude.{◌≡◌, ◌&&◌, eqb, length};
ghost use Rattle.rules_dictionary.specs.Table.{status_word, mode, mode_display, dictionary_length};
ghost use Rattle.rules_dictionary.specs.Values.{read};
ghost use Rattle.rules_dictionary.specs.Legal.{mode_number};
ghost use Rattle.drive.specs.StatusWord.{status};
ghost use Rattle.rules.specs.Sound.{store_in_place, taken_in_place, cause_in_place, drive_sound, heartbeat_sound, stay_sound};
ghost use Rattle.form.specs.Form.{state_length, state_of};
ghost use Rattle.soundness.specs.Parts.{drive_clauses};

use dictionary::objects;
use drive::Drive;
use drive::set_points::NEW_SET_POINT;
use drive::states::{has, is_faulty};
use drive::status::status;
use form::{is_position_inside, read_stay};
use rules_dictionary::Mode;
use state::Node;

// "6041h .. as the rules make" it. The flags: not Stopped, voltage.
fn is_status_made(remote: bool, voltage: bool, v: Drive, d: &[u8]) -> bool
    requires { length d.now ≡ dictionary_length }
    ensures { result ≡ eqb (read d.now status_word) (status remote voltage v d.now) }
{
    objects::status_word(d) == status(remote, voltage, v, d)
}

// "6061h as the rules make" it: 6060h, which is the drive's mode.
fn is_mode_made(m: Mode, d: &[u8]) -> bool
    requires { length d.now ≡ dictionary_length }
    ensures { result ≡ (eqb (read d.now mode_display) (read d.now mode) && eqb (read d.now mode) (mode_number m)) }
{
    let asked = objects::mode(d);
    (objects::mode_display(d) == asked) & (asked == m.number())
}

// "set-point store other than Empty, taken mark and limit mark only in Operation enabled with mode 1"
fn is_store_in_place(v: Drive) -> bool
    ensures { result ≡ store_in_place v }
{
    v.positions() | ((v.store.is_empty() & !v.taken) & !v.limit)
}

// "taken mark only while bit 4 of 6040h is 1"
fn is_taken_in_place(v: Drive, d: &[u8]) -> bool
    requires { length d.now ≡ dictionary_length }
    ensures { result ≡ taken_in_place v d.now }
{
    !v.taken | has(objects::control_word(d), NEW_SET_POINT)
}

// "cause present only in the two fault states"
fn is_cause_in_place(v: Drive) -> bool
    ensures { result ≡ cause_in_place v }
{
    !v.cause | is_faulty(v.state)
}

// Whether the drive's marks and store are in place.
fn is_drive_sound(v: Drive, d: &[u8]) -> bool
    requires { length d.now ≡ dictionary_length }
    ensures { result ≡ drive_sound v d.now }
{
    (is_store_in_place(v) & is_taken_in_place(v, d)) & is_cause_in_place(v)
}

// "heartbeat count zero or below 1017h"
fn is_heartbeat_sound(count: u16, d: &[u8]) -> bool
    requires { length d.now ≡ dictionary_length }
    ensures { result ≡ heartbeat_sound count d.now }
{
    (count == 0) | (count < objects::heartbeat_time(d))
}

// "the count is 0 unless the store is not Empty and the position is inside"
pub fn is_stay_sound(state: &[u8], d: &[u8]) -> bool
    requires { (length state.now ≡ state_length) × (length d.now ≡ dictionary_length) }
    ensures { result ≡ stay_sound (state_of state.now).axis.drive d.now }
{
    if read_stay(state) == 0 {
        return true;
    }
    is_position_inside(state, d)
}

// Whether the clauses of the drive, 6041h, 6061h and the heartbeat count hold.
pub fn is_drive_clear(node: Node, drive: Drive, d: &[u8]) -> bool
    requires { length d.now ≡ dictionary_length }
    ensures { result ≡ drive_clauses node drive d.now }
{
    let remote = !node.nmt.is_stopped();
    let made = is_status_made(remote, node.voltage, drive, d) & is_mode_made(drive.mode, d);
    made & (is_drive_sound(drive, d) & is_heartbeat_sound(node.heartbeat, d))
}
