// What the node does once values are stored: 6060h acted on, then 6040h; a fault reset.
ghost use Rattle.std.specs.Prelude.{◌≡◌, false, ◌≤◌, length};
ghost use Rattle.rules_dictionary.specs.Table.{dictionary_length};
ghost use Rattle.rules_dictionary.specs.TheNode.{last_node};
ghost use Rattle.rules_services.specs.Effects.{with_drive};
ghost use Rattle.rules.specs.Outcome.{frame_size};
ghost use Rattle.form.specs.Form.{state_of};
ghost use Rattle.output.specs.Leaves.{Lent, Leaves};
ghost use Rattle.emergency.specs.Acts.{mode_acts, control_acts, acts, Resets};

use crate::emergencies::emergency;
use dictionary::objects;
use drive::Drive;
use form::{put_drive, read_drive, read_node};
use output::{Done, nothing_done};
use state::Node;

// The emergency code of a fault that is gone.
const FAULT_GONE: u16 = 0x0000;

// "1001h to 0, emergency 0000h; 603Fh stays".
fn fault_reset(node: Node, d: &mut [u8], output: &mut [u8]) -> Done
    requires { (length d.old ≡ dictionary_length) × ((frame_size ≤ length output.old) × (node.id ≤ last_node)) }
    ensures { Resets node d.old output.old result d.new output.new }
{
    objects::set_error_register(d, 0);
    let frames = emergency(FAULT_GONE, node, d, output);
    Done {
        frames,
        touched: true,
        ..nothing_done(false)
    }
}

// 6060h acted on, where it was written. By value, for 6040h acts on the same drive: in the bytes it would be put and read once more.
fn mode_acted(drive: Drive, d: &[u8], written: bool) -> Drive
    requires { length d.now ≡ dictionary_length }
    ensures { result ≡ mode_acts written drive d.now }
{
    if written {
        drive.mode_written(d)
    } else {
        drive
    }
}

// 6040h acted on by the drive that 6060h left; `old` is what stood there before the write.
fn control_acted(old: u16, drive: Drive, state: &mut [u8], d: &mut [u8], output: &mut [u8]) -> Done
    requires { Lent frame_size state.old d.old output.old }
    ensures { Leaves (state_of state.old) (control_acts old (with_drive drive (state_of state.old)) d.old)
        d.old output.old result state.new d.new output.new × (result.quiet ≡ false) }
{
    let controlled = drive.control_written(d, old);
    put_drive(state, controlled.drive);
    if controlled.reset {
        return fault_reset(read_node(state), d, output);
    }
    nothing_done(false)
}

// Values are stored: 6060h acted on where it is among them, then 6040h; `old` is 6040h as it stood before.
pub fn acted(
    old: u16,
    mode: bool,
    control: bool,
    state: &mut [u8],
    d: &mut [u8],
    output: &mut [u8],
) -> Done
    requires { Lent frame_size state.old d.old output.old }
    ensures { Leaves (state_of state.old) (acts old mode control (state_of state.old) d.old)
        d.old output.old result state.new d.new output.new × (result.quiet ≡ false) }
{
    if control {
        let drive = mode_acted(read_drive(state), d, mode);
        return control_acted(old, drive, state, d, output);
    }
    if mode {
        put_drive(state, read_drive(state).mode_written(d));
        return nothing_done(false);
    }
    nothing_done(false)
}
