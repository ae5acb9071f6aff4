// The state as bytes of one length, and back: each state has one form. The layout is specs/Form.antt.
// node: the node's part. transfers: the transfer's. axis_drive: the drive's. pdos: plans, data and what is kept for each PDO.
// parts: parts of one length, in rows. own: which bytes are a form's. putting: one part put into bytes that hold a state.
// layout: where the parts stand.

#![tactic(auto)]

mod axis_drive;
pub mod layout;
mod node;
mod own;
mod parts;
mod pdos;
mod putting;
mod transfers;

ghost use Rattle.std.specs.Prelude.{◌≡◌, [], length};
ghost use Rattle.form.specs.Form.{state_length, state_of, form, with_plans, form_over};
ghost use Rattle.form.specs.Own.{head_own};
ghost use Rattle.form.specs.Typed.{HeadTyped, Typed};

pub use axis_drive::{is_position_inside, read_drive, read_stay};
use drive::Drive;
pub use node::read_node;
pub use own::bits_of_words;
use parts::write_row;
use pdos::read_ready;
pub use pdos::{
    read_frame, read_held_frame, read_paces, read_plans, read_ready_frame, write_plans,
};
pub use putting::{
    put_drive, put_heartbeat, put_held, put_no_transfer, put_node, put_none_held, put_paces,
    put_plans, put_stay, put_transfer,
};
use rules_dictionary::PdoData;
use state::{Axis, Node, Pace, State, Transfer};
pub use transfers::{is_idle, own_transfer, read_transfer};

// All but the plans of a state into the bytes: the plans' bytes stay.
pub fn write_head(
    bytes: &mut [u8],
    node: Node,
    transfer: Transfer,
    drive: Drive,
    ready: [PdoData; 4],
    held: [PdoData; 4],
    paces: [Pace; 4],
)
    requires { length bytes.old ≡ state_length }
    ensures bytes_after { bytes.new ≡ form_over bytes.old (with_plans [] node transfer drive ready held paces) }
    ensures head_typed { HeadTyped (with_plans [] node transfer drive ready held paces) }
{
    node::write_node(bytes, node);
    transfers::write_transfer(bytes, transfer);
    axis_drive::write_drive(bytes, drive);
    write_row(bytes, layout::READY, ready);
    write_row(bytes, layout::HELD, held);
    write_row(bytes, layout::PACES, paces);
}

// A state into the bytes.
pub fn write_state(bytes: &mut [u8], s: State)
    requires { length bytes.old ≡ state_length }
    ensures { (bytes.new ≡ form s) × Typed s }
{
    let axis = s.axis;
    write_plans(bytes, axis.plans);
    write_head(
        bytes, s.node, s.transfer, axis.drive, axis.ready, axis.held, axis.paces,
    );
}

// The bytes of a state.
pub fn form_of(s: State) -> [u8; layout::STATE_LENGTH]
    ensures { (result ≡ form s) × Typed s }
{
    let mut bytes = [0u8; layout::STATE_LENGTH];
    write_state(&mut bytes, s);
    bytes
}

// The state that the bytes hold.
pub fn state_of(bytes: &[u8]) -> State
    requires { length bytes.now ≡ state_length }
    ensures { result ≡ state_of bytes.now }
{
    State {
        node: read_node(bytes),
        transfer: read_transfer(bytes),
        axis: Axis {
            drive: read_drive(bytes),
            plans: read_plans(bytes),
            ready: read_ready(bytes),
            held: pdos::read_held(bytes),
            paces: read_paces(bytes),
        },
    }
}

// Whether all bytes but the transfer's and the plans' are a state's form.
pub fn is_head_own(bytes: &[u8]) -> bool
    requires { length bytes.now ≡ state_length }
    ensures { result ≡ head_own bytes.now }
{
    node::own_node(bytes) & (axis_drive::own_drive(bytes) & pdos::own_paces(bytes))
}
