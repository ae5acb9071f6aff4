// What is put into the bytes of a state: they hold the state with that part, and the rest of it stays.
// One function for each part, though many differ in little more: each is a single line, and promises another of the rules' definitions
// (`with_node`, `with_heartbeat`, `with_stay`, ..); a generic one would leave it to the callers to name the part's place.

ghost use Rattle.std.specs.Prelude.{◌≡◌, ◌<◌, length};
ghost use Rattle.rules_dictionary.specs.Table.{each_way};
ghost use Rattle.drive.specs.SetPoints.{with_stay};
ghost use Rattle.rules_services.specs.Effects.{with_node, with_heartbeat, with_transfer, without_transfer, with_drive, with_held, with_paces};
ghost use Rattle.rules_services.specs.PdoTraffic.{none_held};
ghost use Rattle.form.specs.Form.{state_length};
ghost use Rattle.form.specs.Holding.{Puts, planned, holding};

use crate::axis_drive::write_drive;
use crate::layout;
use crate::node::write_node;
use crate::parts::{Part, write_row};
use crate::pdos::write_plans;
use crate::transfers::write_transfer;
use dictionary::write2;
use drive::Drive;
use rules_dictionary::{PdoData, Plan};
use state::{Node, Pace, Transfer};

// The node's part.
pub fn put_node(state: &mut [u8], node: Node)
    requires { length state.old ≡ state_length }
    ensures { Puts (with_node node) state.old state.new }
{
    write_node(state, node);
}

// The ticks since the last heartbeat.
pub fn put_heartbeat(state: &mut [u8], count: u16)
    requires { length state.old ≡ state_length }
    ensures { Puts (with_heartbeat count) state.old state.new }
{
    write2(state, layout::HEARTBEAT, count);
}

// The transfer.
pub fn put_transfer(state: &mut [u8], t: Transfer)
    requires { length state.old ≡ state_length }
    ensures { Puts (with_transfer t) state.old state.new }
{
    write_transfer(state, t);
}

// No transfer.
pub fn put_no_transfer(state: &mut [u8])
    requires { length state.old ≡ state_length }
    ensures { Puts without_transfer state.old state.new }
{
    write_transfer(state, Transfer::NoTransfer);
}

// The drive.
pub fn put_drive(state: &mut [u8], drive: Drive)
    requires { length state.old ≡ state_length }
    ensures { Puts (with_drive drive) state.old state.new }
{
    write_drive(state, drive);
}

// The ticks inside the window.
pub fn put_stay(state: &mut [u8], ticks: u16)
    requires { length state.old ≡ state_length }
    ensures { Puts (λ s. with_drive (with_stay ticks s.axis.drive) s) state.old state.new }
{
    write2(state, layout::STAY, ticks);
}

// The held frame of receive PDO p.
pub fn put_held(state: &mut [u8], p: usize, frame: PdoData)
    requires { (length state.old ≡ state_length) × (p < each_way) }
    ensures { Puts (holding p frame) state.old state.new }
{
    frame.write(state, layout::HELD + layout::FRAME_LENGTH * p);
}

// No held frames. The empty frame is written out, here and where else one is needed: a shared constant would be one more public name for it.
pub fn put_none_held(state: &mut [u8])
    requires { length state.old ≡ state_length }
    ensures { Puts (with_held none_held) state.old state.new }
{
    let none = PdoData {
        length: 0,
        bytes: [0; layout::MOST_DATA],
    };
    write_row(state, layout::HELD, [none; 4]);
}

// What is kept of the transmit PDOs.
pub fn put_paces(state: &mut [u8], paces: [Pace; 4])
    requires { length state.old ≡ state_length }
    ensures { Puts (with_paces paces) state.old state.new }
{
    write_row(state, layout::PACES, paces);
}

// The plans of the eight PDOs.
pub fn put_plans(state: &mut [u8], plans: [Plan; 8])
    requires { length state.old ≡ state_length }
    ensures { Puts (planned plans) state.old state.new }
{
    write_plans(state, plans);
}
