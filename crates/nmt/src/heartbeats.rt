// Boot-up and heartbeat on 700h+N.
ghost use Rattle.std.specs.Prelude.{◌≡◌, [], ◌∷◌, ◌+◌, ◌≤◌, length};
ghost use Rattle.state.specs.declared.Occasion.TheVariants.{Ticked};
ghost use Rattle.rules_dictionary.specs.Plans.{pdo_data};
ghost use Rattle.rules_services.specs.Effects.{frame, on};
ghost use Rattle.rules_services.specs.Nmt.{heartbeat_base, state_byte, boot_up, tick};
ghost use Rattle.rules.specs.Outcome.{frame_size, sent_into};
ghost use Rattle.output.specs.Leaves.{Lent, LeavesIn, ever};
ghost use Rattle.nmt.specs.Commanding.{ticked};

use dictionary::objects;
use form::{put_heartbeat, read_node};
use output::{Done, nothing_done, send};
use rules_dictionary::PdoData;
use state::{NmtState, Occasion};

// 700h, to which the node-ID is added.
const HEARTBEAT_BASE: u16 = 0x700;

// The byte of a boot-up.
const BOOT_UP: u8 = 0x00;

// "04h Stopped, 05h Operational, 7Fh". Stays a function: `From` for an enum of another crate would be neither crate's own, and
// the enum's numbers are those of the kept state (`nmt_number`), not these.
fn state_byte(m: NmtState) -> u8
    ensures { result ≡ state_byte m }
{
    match m {
        NmtState::PreOperational => 0x7F,
        NmtState::Operational => 0x05,
        NmtState::Stopped => 0x04,
    }
}

// One byte of data. The zeros stand in place: `[0; 8]` and an assignment would be two lines for one.
fn one_byte(b: u8) -> PdoData
    ensures { result ≡ pdo_data (b ∷ []) }
{
    PdoData {
        length: 1,
        bytes: [b, 0, 0, 0, 0, 0, 0, 0],
    }
}

// A frame of one byte on 700h+N at the start of the bytes.
fn send_byte(output: &mut [u8], n: u8, byte: u8)
    requires { frame_size ≤ length output.old }
    ensures { output.new ≡ sent_into output.old (frame (heartbeat_base + n) (byte ∷ []) ∷ []) }
{
    send(output, HEARTBEAT_BASE + (n as u16), one_byte(byte));
}

// The boot-up frame of node n at the start of the bytes.
pub fn boot_up(output: &mut [u8], n: u8)
    requires { frame_size ≤ length output.old }
    ensures { output.new ≡ sent_into output.old (boot_up n) }
{
    send_byte(output, n, BOOT_UP);
}

// A tick with so many frames. Nothing is left to do after it: the count is neither in the dictionary nor shown.
fn ticked(frames: usize) -> Done
    ensures { result ≡ ticked frames }
{
    Done {
        frames,
        occasion: Occasion::Ticked,
        ..nothing_done(true)
    }
}

// 1 ms on: the heartbeat "each 1017h ticks, in all states".
pub fn tick(state: &mut [u8], d: &[u8], output: &mut [u8]) -> Done
    requires { Lent frame_size state.old d.now output.old }
    ensures { LeavesIn (λ s d. on Ticked (tick s d)) ever state.old d.entry.now output.old
        result state.new d.entry.now output.new }
{
    let period = objects::heartbeat_time(d);
    if period == 0 {
        return ticked(0);
    }
    let node = read_node(state);
    if node.heartbeat < period - 1 {
        put_heartbeat(state, node.heartbeat + 1);
        return ticked(0);
    }
    put_heartbeat(state, 0);
    send_byte(output, node.id, state_byte(node.nmt));
    ticked(1)
}
