// What each event does.
ghost use Rattle.std.specs.Prelude.{◌≡◌, false, cond, length};
ghost use Rattle.drive.specs.DriveStates.{is_faulty};
ghost use Rattle.drive.specs.declared.DriveState.TheVariants.{FaultReactionActive};
ghost use Rattle.rules_dictionary.specs.Table.{dictionary_length};
ghost use Rattle.rules_services.specs.Effects.{with_drive};
ghost use Rattle.rules_services.specs.Events.{faulted, happens};
ghost use Rattle.rules.specs.Outcome.{frame_size};
ghost use Rattle.form.specs.Form.{state_length};
ghost use Rattle.form.specs.Holding.{Puts};
ghost use Rattle.output.specs.Leaves.{Lent, nothing_done, LeavesIn, never};
ghost use Rattle.events.specs.Feeding.{Feeds};
ghost use Rattle.events.specs.Resting.{is_tick};

use dictionary::objects;
use drive::states::is_faulty;
use drive::{Drive, DriveState};
use emergency::emergency;
use form::{put_drive, put_node, read_drive, read_node};
use nmt::tick;
use output::{Done, nothing_done};
use rules_services::Event;

// Bit 0 of 1001h.
const GENERIC_ERROR: u8 = 1;

// An event that changes nothing but the drive.
fn moved(state: &mut [u8], drive: Drive) -> Done
    requires { length state.old ≡ state_length }
    ensures { (result ≡ nothing_done false) × Puts (with_drive drive) state.old state.new }
{
    put_drive(state, drive);
    nothing_done(false)
}

// "any state but the two fault states goes to Fault reaction active".
fn reaction_from(state: DriveState) -> DriveState
    ensures { result ≡ cond (is_faulty state) state FaultReactionActive }
{
    if is_faulty(state) {
        state
    } else {
        DriveState::FaultReactionActive
    }
}

// A fault: "603Fh is the code, 1001h gains the register and bit 0, cause present, emergency".
fn faulted(code: u16, register: u8, state: &mut [u8], d: &mut [u8], output: &mut [u8]) -> Done
    requires { Lent frame_size state.old d.old output.old }
    ensures { LeavesIn (faulted code register) never state.old d.old output.old
        result state.new d.new output.new }
{
    let node = read_node(state);
    let drive = read_drive(state);
    let before = objects::error_register(d);
    objects::set_error_code(d, code);
    objects::set_error_register(d, before | (register | GENERIC_ERROR));
    put_drive(
        state,
        drive.enters(reaction_from(drive.state)).with_cause(true),
    );
    let frames = emergency(code, node, d, output);
    Done {
        frames,
        touched: true,
        ..nothing_done(false)
    }
}

// Feedback: 6064h and 606Ch.
fn fed_back(at: u32, speed: u32, d: &mut [u8]) -> Done
    requires { length d.old ≡ dictionary_length }
    ensures { Feeds at speed d.old result d.new }
{
    objects::set_position(d, at);
    objects::set_velocity(d, speed);
    Done {
        touched: true,
        ..nothing_done(false)
    }
}

// What an event does. Only a tick is quiet. The drive is read within the arms that move it: a tick and feedback never look at it.
pub fn happens(e: Event, state: &mut [u8], d: &mut [u8], output: &mut [u8]) -> Done
    requires { Lent frame_size state.old d.old output.old }
    ensures { LeavesIn (happens e) (is_tick e) state.old d.old output.old
        result state.new d.new output.new }
{
    match e {
        Event::Started | Event::QuickStopDone => {
            let drive = read_drive(state);
            moved(state, drive.enters(DriveState::SwitchOnDisabled))
        }
        Event::Fault(code, register) => faulted(code, register, state, d, output),
        Event::ReactionDone => {
            let drive = read_drive(state);
            moved(state, drive.enters(DriveState::Fault))
        }
        Event::Feedback(at, speed) => fed_back(at, speed, d),
        Event::SetPointReached => {
            let drive = read_drive(state);
            moved(state, drive.moved_on())
        }
        Event::Tick => tick(state, d, output),
        Event::CauseGone => {
            let drive = read_drive(state);
            moved(state, drive.with_cause(false))
        }
        Event::Voltage(on) => {
            let mut node = read_node(state);
            node.voltage = on;
            put_node(state, node);
            nothing_done(false)
        }
    }
}
