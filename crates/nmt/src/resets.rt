// Power-up, and the two commands that set objects back: 81h, which is as power-up, and 82h.
ghost use Rattle.std.specs.Prelude.{◌≡◌, ℕ, length};
ghost use Rattle.rules_services.specs.Nmt.{fresh_state, voltage_disabled, reset_node, reset_communication, commanded};
ghost use Rattle.form.specs.Form.{state_length};
ghost use Rattle.form.specs.Holding.{Puts};
ghost use Rattle.output.specs.Leaves.{keeping, LeavesIn, never};
ghost use Rattle.nmt.specs.Commanding.{MayReset, Commandable, PowersUp};

use crate::heartbeats::boot_up;
use dictionary::{write_communication_defaults, write_defaults};
use drive::states::next;
use drive::{Command, Drive, DriveState, Store};
use form::{put_drive, put_no_transfer, put_node, put_none_held, read_drive, read_node};
use output::{Done, nothing_done};
use rules_dictionary::Mode;
use state::{NmtState, Node};

// The drive after Disable voltage.
pub fn disable_voltage(state: &mut [u8])
    requires { length state.old ≡ state_length }
    ensures { Puts voltage_disabled state.old state.new }
{
    let drive = read_drive(state);
    let after = next(drive.cause, drive.state, Command::DisableVoltage);
    put_drive(state, drive.enters(after));
}

// "Power-up ends in Pre-operational, Not ready, voltage off": the node n.
pub fn fresh_node(n: u8) -> Node
    ensures { result ≡ (fresh_state n).node }
{
    Node {
        id: n,
        nmt: NmtState::PreOperational,
        voltage: false,
        heartbeat: 0,
    }
}

// The drive, whatever the node.
pub fn fresh_drive() -> Drive
    ensures { (n : ℕ) → result ≡ (fresh_state n).axis.drive }
{
    Drive {
        state: DriveState::NotReady,
        mode: Mode::NoMode,
        store: Store::Empty,
        taken: false,
        limit: false,
        cause: false,
        stay: 0,
    }
}

// Node n starts anew, beside its state: every object to its default, boot-up.
pub fn start(d: &mut [u8], output: &mut [u8], n: u8) -> Done
    requires { MayReset n d.old output.old }
    ensures { PowersUp n d.old output.old result d.new output.new }
{
    write_defaults(d, n);
    boot_up(output, n);
    Done {
        frames: 1,
        touched: true,
        remapped: true,
        ..nothing_done(false)
    }
}

// The node's, the server's, the drive's and the receive PDOs' part of node n's state after power-up; the rest follows at the call's end.
fn renew(state: &mut [u8], n: u8)
    requires { length state.old ≡ state_length }
    ensures { Puts (λ s. keeping s (fresh_state n)) state.old state.new }
{
    put_node(state, fresh_node(n));
    put_no_transfer(state);
    put_drive(state, fresh_drive());
    put_none_held(state);
}

// 81h: as power-up.
pub fn restart(state: &mut [u8], d: &mut [u8], output: &mut [u8]) -> Done
    requires { Commandable state.old d.old output.old }
    ensures { LeavesIn (λ s d. commanded reset_node s) never state.old d.entry.now output.old
        result state.new d.exit.now output.new }
{
    let node = read_node(state);
    renew(state, node.id);
    start(d, output, node.id)
}

// 82h: the communication objects, mappings among them, to their defaults, Disable voltage, no transfer, Pre-operational, boot-up.
pub fn reset_communication(state: &mut [u8], d: &mut [u8], output: &mut [u8]) -> Done
    requires { Commandable state.old d.old output.old }
    ensures { LeavesIn (λ s d. commanded reset_communication s) never state.old d.entry.now output.old
        result state.new d.exit.now output.new }
{
    let node = read_node(state);
    write_communication_defaults(d, node.id);
    boot_up(output, node.id);
    put_node(
        state,
        Node {
            nmt: NmtState::PreOperational,
            heartbeat: 0,
            ..node
        },
    );
    disable_voltage(state);
    put_none_held(state);
    put_no_transfer(state);
    Done {
        frames: 1,
        remapped: true,
        ..nothing_done(false)
    }
}
