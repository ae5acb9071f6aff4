// The node's part of the form.

ghost use Rattle.std.specs.Prelude.{◌≡◌, ◌<◌, length};
ghost use Rattle.std.proofs.lemmas.List.Edits.{sets};
ghost use Rattle.form.specs.Form.{flag_of, flag_number, nmt_of, nmt_number, state_length, state_of, node_place, node_form, half};
ghost use Rattle.form.specs.Own.{node_own};

use crate::layout;
use crate::own::own_flag;
use dictionary::{read2, write2};
use state::{NmtState, Node};

// The flag of a byte.
pub fn flag_of(b: u8) -> bool
    ensures { result ≡ flag_of b }
{
    b == 1
}

// The NMT state of a number. No `From`: the state and the number are other crates' types, and so is the trait.
fn nmt_of(b: u8) -> NmtState
    ensures { result ≡ nmt_of b }
{
    match b {
        0 => NmtState::PreOperational,
        1 => NmtState::Operational,
        _ => NmtState::Stopped,
    }
}

// The node that the bytes hold.
pub fn read_node(bytes: &[u8]) -> Node
    requires { length bytes.now ≡ state_length }
    ensures { result ≡ (state_of bytes.now).node }
{
    Node {
        id: bytes[layout::NODE_ID],
        nmt: nmt_of(bytes[layout::NMT]),
        voltage: flag_of(bytes[layout::VOLTAGE]),
        heartbeat: read2(bytes, layout::HEARTBEAT),
    }
}

// The byte of a flag.
pub fn flag_number(flag: bool) -> u8
    ensures { result ≡ flag_number flag }
{
    u8::from(flag)
}

// The number of an NMT state.
fn nmt_number(nmt: NmtState) -> u8
    ensures { result ≡ nmt_number nmt }
{
    nmt as u8
}

// The node into the bytes.
pub fn write_node(bytes: &mut [u8], n: Node)
    requires { length bytes.old ≡ state_length }
    ensures { (bytes.new ≡ sets bytes.old node_place (node_form n)) × (n.heartbeat < half) }
{
    bytes[layout::NODE_ID] = n.id;
    bytes[layout::NMT] = nmt_number(n.nmt);
    bytes[layout::VOLTAGE] = flag_number(n.voltage);
    write2(bytes, layout::HEARTBEAT, n.heartbeat);
}

// Whether the node's bytes are its form. A number read and written again, as of a flag and a drive state: a trait of numbered types would
// take an `impl` and a law for each, where each is tested in one line.
pub fn own_node(bytes: &[u8]) -> bool
    requires { length bytes.now ≡ state_length }
    ensures { result ≡ node_own node_place bytes.now }
{
    let nmt = bytes[layout::NMT];
    (nmt_number(nmt_of(nmt)) == nmt) & own_flag(bytes[layout::VOLTAGE])
}
