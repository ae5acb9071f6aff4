// Where each event is in place: "1 (only Not ready); 2 (only Quick stop active); 4 (only Fault reaction); 6 (only Moving, Queued); 8
// (only with a cause)".
ghost use Rattle.std.specs.Prelude.{◌≡◌, length};
ghost use Rattle.rules_services.specs.Events.{is_in_place};
ghost use Rattle.form.specs.Form.{state_length, state_of};

use drive::states::{is_not_ready, is_quick_stop, is_reaction};
use form::read_drive;
use rules_services::Event;

// Is the event in place, in the state that the bytes hold.
#[tactic(auto, unfolding(rules_services::specs::Events::is_in_place))]
pub fn is_in_place(e: Event, state: &[u8]) -> bool
    requires { length state.now ≡ state_length }
    ensures { result ≡ is_in_place e (state_of state.now) }
{
    let drive = read_drive(state);
    match e {
        Event::Started => is_not_ready(drive.state),
        Event::QuickStopDone => is_quick_stop(drive.state),
        Event::ReactionDone => is_reaction(drive.state),
        Event::SetPointReached => drive.store.is_moving(),
        Event::CauseGone => drive.cause,
        Event::Fault(_, _) | Event::Feedback(_, _) | Event::Tick | Event::Voltage(_) => true,
    }
}
