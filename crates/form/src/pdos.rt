// What the form keeps for each PDO: its plan, its data, and of a transmit PDO its SYNC count and its due mark.

ghost use Rattle.std.specs.Prelude.{◌≡◌, ◌+◌, ◌*◌, ◌<◌, ◌≤◌, length};
ghost use Rattle.std.proofs.lemmas.List.Edits.{sets};
ghost use Rattle.rules_dictionary.specs.Table.{each_way};
ghost use Rattle.form.specs.Form.{data_length, data_at, move_length, move_at, plan_length, plan_at, pace_length, pace_at};
ghost use Rattle.form.specs.Form.{state_length, state_of, ready_in, held_in, plans_place};
ghost use Rattle.form.specs.Form.{joined, data_form, pace_form, move_form, plan_form};
ghost use Rattle.form.specs.Typed.{Many, AnyPace, DataTyped, MoveTyped, PlanTyped};
ghost use Rattle.form.specs.Own.{paces_own};
ghost use Rattle.form.specs.Lengths.{length_data, length_pace, length_move, length_plan};

use crate::layout;
use crate::node::{flag_number, flag_of};
use crate::own::own_flag;
use crate::parts::{Part, read_row, write_row};
use dictionary::places::EACH_WAY;
use dictionary::{read4, write4};
use rules_dictionary::{Move, PdoData, Plan};
use state::Pace;
use std::array;

// The data of a PDO.
impl Part for PdoData {
    ghost LENGTH = { data_length };

    const LENGTH: usize = layout::FRAME_LENGTH;

    ghost form = { data_form };

    ghost at = { data_at };

    ghost Typed = { DataTyped };

    fn read(bytes: &[u8], place: usize) -> PdoData {
        let first = place + layout::DATA_OFFSET;
        PdoData {
            length: bytes[place],
            bytes: array::from_fn(
                |k|
                    requires { first + k < length bytes.now }
                { bytes[first + k] },
            ),
        }
    }

    fn write(self, bytes: &mut [u8], place: usize) {
        let data = place + layout::DATA_OFFSET;
        bytes[place] = self.length;
        bytes[data..data + layout::MOST_DATA].copy_from_slice(&self.bytes);
    }

    ghost sized = { length_data };
}

// What is kept of a transmit PDO.
impl Part for Pace {
    ghost LENGTH = { pace_length };

    const LENGTH: usize = layout::PACE_LENGTH;

    ghost form = { pace_form };

    ghost at = { pace_at };

    ghost Typed = { AnyPace };

    fn read(bytes: &[u8], place: usize) -> Pace {
        Pace {
            count: bytes[place],
            due: flag_of(bytes[place + layout::DUE_OFFSET]),
        }
    }

    fn write(self, bytes: &mut [u8], place: usize) {
        bytes[place] = self.count;
        bytes[place + layout::DUE_OFFSET] = flag_number(self.due);
    }

    ghost sized = { length_pace };
}

// A move of a plan, as a word.
impl Part for Move {
    ghost LENGTH = { move_length };

    const LENGTH: usize = layout::MOVE_LENGTH;

    ghost form = { move_form };

    ghost at = { move_at };

    ghost Typed = { MoveTyped };

    fn read(bytes: &[u8], place: usize) -> Move {
        let word = read4(bytes, place);
        Move {
            place: (word % 0x1_0000) as u16,
            size: (word / 0x1_0000 % 0x100) as u8,
        }
    }

    fn write(self, bytes: &mut [u8], place: usize) {
        write4(
            bytes,
            place,
            u32::from(self.place) + 0x1_0000 * u32::from(self.size),
        );
    }

    ghost sized = { length_move };
}

// A plan: its count, and its moves.
impl Part for Plan {
    ghost LENGTH = { plan_length };

    const LENGTH: usize = layout::PLAN_LENGTH;

    ghost form = { plan_form };

    ghost at = { plan_at };

    ghost Typed = { PlanTyped };

    fn read(bytes: &[u8], place: usize) -> Plan {
        Plan {
            count: bytes[place],
            moves: read_row(bytes, place + layout::MOVES_OFFSET),
        }
    }

    fn write(self, bytes: &mut [u8], place: usize) {
        bytes[place] = self.count;
        write_row(bytes, place + layout::MOVES_OFFSET, self.moves);
    }

    ghost sized = { length_plan };
}

// The data at a place.
pub fn read_frame(bytes: &[u8], place: usize) -> PdoData
    requires { place + data_length ≤ length bytes.now }
    ensures { result ≡ data_at place bytes.now }
{
    PdoData::read(bytes, place)
}

// The ready frames of the transmit PDOs. A function for ready and one for held frames, here and of one PDO: each is a single line, and each
// promises another part of the state, which callers would else name by its place.
pub fn read_ready(bytes: &[u8]) -> [PdoData; 4]
    requires { length bytes.now ≡ state_length }
    ensures { result ≡ (state_of bytes.now).axis.ready }
{
    read_row(bytes, layout::READY)
}

// The ready frame of transmit PDO t.
pub fn read_ready_frame(bytes: &[u8], t: usize) -> PdoData
    requires { (length bytes.now ≡ state_length) × (t < each_way) }
    ensures { result ≡ ready_in bytes.now t }
{
    read_frame(bytes, layout::READY + layout::FRAME_LENGTH * t)
}

// The held frames of the receive PDOs.
pub fn read_held(bytes: &[u8]) -> [PdoData; 4]
    requires { length bytes.now ≡ state_length }
    ensures { result ≡ (state_of bytes.now).axis.held }
{
    read_row(bytes, layout::HELD)
}

// The held frame of receive PDO p.
pub fn read_held_frame(bytes: &[u8], p: usize) -> PdoData
    requires { (length bytes.now ≡ state_length) × (p < each_way) }
    ensures { result ≡ held_in bytes.now p }
{
    read_frame(bytes, layout::HELD + layout::FRAME_LENGTH * p)
}

// What is kept of the transmit PDOs.
pub fn read_paces(bytes: &[u8]) -> [Pace; 4]
    requires { length bytes.now ≡ state_length }
    ensures { result ≡ (state_of bytes.now).axis.paces }
{
    read_row(bytes, layout::PACES)
}

// The plans of the eight PDOs.
pub fn read_plans(bytes: &[u8]) -> [Plan; 8]
    requires { length bytes.now ≡ state_length }
    ensures { result ≡ (state_of bytes.now).axis.plans }
{
    read_row(bytes, layout::PLANS)
}

// The plans of the eight PDOs into the bytes.
pub fn write_plans(bytes: &mut [u8], plans: [Plan; 8])
    requires { length bytes.old ≡ state_length }
    ensures { (bytes.new ≡ sets bytes.old plans_place (joined plan_form plans)) × Many PlanTyped (2 * each_way) plans }
{
    write_row(bytes, layout::PLANS, plans);
}

// Whether the due marks' bytes are flags'.
pub fn own_paces(bytes: &[u8]) -> bool
    requires { length bytes.now ≡ state_length }
    ensures { result ≡ paces_own bytes.now }
{
    let mut own = true;
    for k in 0..EACH_WAY {
        own &= own_flag(bytes[layout::PACES + layout::PACE_LENGTH * k + layout::DUE_OFFSET]);
    }
    own
}
