// The drive's part of the form.

ghost use Rattle.std.specs.Prelude.{◌≡◌, ◌+◌, ◌<◌, ◌≤◌, eqb, length};
ghost use Rattle.std.proofs.lemmas.List.Edits.{sets};
ghost use Rattle.rules_dictionary.specs.Legal.{mode_number};
ghost use Rattle.rules_dictionary.specs.Table.{dictionary_length};
ghost use Rattle.drive.specs.SetPoints.{mode_of};
ghost use Rattle.drive.specs.Window.{inside};
ghost use Rattle.form.specs.Form.{drive_state_of, set_point_length, set_point_at, store_at, drive_place, store_place, state_length, state_of};
ghost use Rattle.form.specs.Form.{state_number, set_point_form, store_kind, resting, first_set_point, second_of, store_form, drive_form, half};
ghost use Rattle.form.specs.Typed.{SetPointTyped, StoreTyped};
ghost use Rattle.form.specs.Own.{store_own, drive_own};

use crate::layout;
use crate::node::{flag_number, flag_of};
use crate::own::{bits_of_words, own_flags};
use dictionary::{read2, read4, write2, write4};
use drive::set_points::mode_of;
use drive::window::is_near;
use drive::{Drive, DriveState, SetPoint, Store};

// The drive state of a number. No `From`: the state and the number are other crates' types, and so is the trait.
fn drive_state_of(b: u8) -> DriveState
    ensures { result ≡ drive_state_of b }
{
    match b {
        0 => DriveState::NotReady,
        1 => DriveState::SwitchOnDisabled,
        2 => DriveState::ReadyToSwitchOn,
        3 => DriveState::SwitchedOn,
        4 => DriveState::OperationEnabled,
        5 => DriveState::QuickStopActive,
        6 => DriveState::FaultReactionActive,
        _ => DriveState::Fault,
    }
}

// The set-point at a place.
fn read_set_point(bytes: &[u8], place: usize) -> SetPoint
    requires { place + set_point_length ≤ length bytes.now }
    ensures { result ≡ set_point_at place bytes.now }
{
    SetPoint {
        target: read4(bytes, place),
        velocity: read4(bytes, place + layout::VELOCITY_OFFSET),
        acceleration: read4(bytes, place + layout::ACCELERATION_OFFSET),
        deceleration: read4(bytes, place + layout::DECELERATION_OFFSET),
    }
}

// The store that the bytes hold.
fn read_store(bytes: &[u8]) -> Store
    requires { length bytes.now ≡ state_length }
    ensures { result ≡ store_at store_place bytes.now }
{
    match bytes[layout::STORE] {
        0 => Store::Empty,
        1 => Store::Rested(read4(bytes, layout::FIRST_SET_POINT)),
        2 => Store::Moving(read_set_point(bytes, layout::FIRST_SET_POINT)),
        _ => Store::Queued(
            read_set_point(bytes, layout::FIRST_SET_POINT),
            read_set_point(bytes, layout::SECOND_SET_POINT),
        ),
    }
}

// The drive that the bytes hold.
pub fn read_drive(bytes: &[u8]) -> Drive
    requires { length bytes.now ≡ state_length }
    ensures { result ≡ (state_of bytes.now).axis.drive }
{
    Drive {
        state: drive_state_of(bytes[layout::DRIVE_STATE]),
        mode: mode_of(bytes[layout::MODE]),
        store: read_store(bytes),
        taken: flag_of(bytes[layout::TAKEN]),
        limit: flag_of(bytes[layout::LIMIT]),
        cause: flag_of(bytes[layout::CAUSE]),
        stay: read2(bytes, layout::STAY),
    }
}

// The ticks inside the window that the bytes hold, alone.
pub fn read_stay(bytes: &[u8]) -> u16
    requires { length bytes.now ≡ state_length }
    ensures { result ≡ (state_of bytes.now).axis.drive.stay }
{
    read2(bytes, layout::STAY)
}

// Is the position inside the window of the target that the bytes hold: it stands in one place, whatever the kind of store, and Empty has none.
pub fn is_position_inside(bytes: &[u8], d: &[u8]) -> bool
    requires { (length bytes.now ≡ state_length) × (length d.now ≡ dictionary_length) }
    ensures { result ≡ inside (state_of bytes.now).axis.drive.store d.now }
{
    bytes[layout::STORE] != 0 && is_near(read4(bytes, layout::FIRST_SET_POINT), d)
}

// The number of a drive state. It stays a `match`: the states' own numbers are those of the status word.
fn state_number(state: DriveState) -> u8
    ensures { result ≡ state_number state }
{
    match state {
        DriveState::NotReady => 0,
        DriveState::SwitchOnDisabled => 1,
        DriveState::ReadyToSwitchOn => 2,
        DriveState::SwitchedOn => 3,
        DriveState::OperationEnabled => 4,
        DriveState::QuickStopActive => 5,
        DriveState::FaultReactionActive => 6,
        DriveState::Fault => 7,
    }
}

// The number of a store's kind. Stays a `match`, here and where a kind is read: the kinds hold values, so that `as` gives no number for one,
// and only the form numbers them (specs/Form, `store_kind`).
fn store_kind(store: Store) -> u8
    ensures { result ≡ store_kind store }
{
    match store {
        Store::Empty => 0,
        Store::Rested(_) => 1,
        Store::Moving(_) => 2,
        Store::Queued(_, _) => 3,
    }
}

// A set-point that has a target alone. Its zeros stand here and nowhere else, so a `..` over a set-point of zeros would be no shorter.
fn resting(target: u32) -> SetPoint
    ensures { result ≡ resting target }
{
    SetPoint {
        target,
        velocity: 0,
        acceleration: 0,
        deceleration: 0,
    }
}

// What stands in the first set-point's bytes.
fn first_of(store: Store) -> SetPoint
    ensures { result ≡ first_set_point store }
{
    match store {
        Store::Empty => resting(0),
        Store::Rested(target) => resting(target),
        Store::Moving(a) | Store::Queued(a, _) => a,
    }
}

// What stands in the second set-point's bytes.
fn second_of(store: Store) -> SetPoint
    ensures { result ≡ second_of store }
{
    match store {
        Store::Queued(_, b) => b,
        Store::Empty | Store::Rested(_) | Store::Moving(_) => resting(0),
    }
}

// A set-point into the bytes at a place.
fn write_set_point(bytes: &mut [u8], place: usize, p: SetPoint)
    requires { place + set_point_length ≤ length bytes.old }
    ensures { (bytes.new ≡ sets bytes.old place (set_point_form p)) × SetPointTyped p }
{
    write4(bytes, place, p.target);
    write4(bytes, place + layout::VELOCITY_OFFSET, p.velocity);
    write4(bytes, place + layout::ACCELERATION_OFFSET, p.acceleration);
    write4(bytes, place + layout::DECELERATION_OFFSET, p.deceleration);
}

// The store into the bytes.
fn write_store(bytes: &mut [u8], store: Store)
    requires { length bytes.old ≡ state_length }
    ensures { (bytes.new ≡ sets bytes.old store_place (store_form store)) × StoreTyped store }
{
    bytes[layout::STORE] = store_kind(store);
    write_set_point(bytes, layout::FIRST_SET_POINT, first_of(store));
    write_set_point(bytes, layout::SECOND_SET_POINT, second_of(store));
}

// The drive into the bytes.
pub fn write_drive(bytes: &mut [u8], v: Drive)
    requires { length bytes.old ≡ state_length }
    ensures { (bytes.new ≡ sets bytes.old drive_place (drive_form v)) × ((v.stay < half) × StoreTyped v.store) }
{
    bytes[layout::DRIVE_STATE] = state_number(v.state);
    bytes[layout::MODE] = v.mode.number();
    bytes[layout::TAKEN] = flag_number(v.taken);
    bytes[layout::LIMIT] = flag_number(v.limit);
    bytes[layout::CAUSE] = flag_number(v.cause);
    write2(bytes, layout::STAY, v.stay);
    write_store(bytes, v.store);
}

// Whether the store's bytes are its form: what a kind of store does not use is zero. By the byte, not by `read_store`: that reads any byte.
fn own_store(bytes: &[u8]) -> bool
    requires { length bytes.now ≡ state_length }
    ensures { result ≡ store_own store_place bytes.now }
{
    match bytes[layout::STORE] {
        0 => bits_of_words(bytes, layout::FIRST_SET_POINT, layout::STORE_WORDS) == 0,
        1 => bits_of_words(bytes, layout::BEHIND_TARGET, layout::WORDS_BEHIND_TARGET) == 0,
        2 => bits_of_words(bytes, layout::SECOND_SET_POINT, layout::SET_POINT_WORDS) == 0,
        3 => true,
        _ => false,
    }
}

// Whether a byte is a mode's number.
fn own_mode(b: u8) -> bool
    ensures { result ≡ eqb (mode_number (mode_of b)) b }
{
    matches!(b, 0 | 1 | 3)
}

// Whether the drive's bytes are its form.
pub fn own_drive(bytes: &[u8]) -> bool
    requires { length bytes.now ≡ state_length }
    ensures { result ≡ drive_own drive_place bytes.now }
{
    let state = bytes[layout::DRIVE_STATE];
    let marks = own_flags(bytes, layout::TAKEN, layout::DRIVE_MARKS) & own_store(bytes);
    (state_number(drive_state_of(state)) == state) & (own_mode(bytes[layout::MODE]) & marks)
}
