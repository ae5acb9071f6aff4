// The event of a number and arguments: "event number unknown, wrong argument size, voltage flag not 0/1, fault code 0" are bad.
ghost use Rattle.std.specs.Prelude.{◌≡◌};
ghost use Rattle.rules_services.specs.Events.{event_of};

use dictionary::{read2, read4};
use rules_services::Event;

// "3 fault, code u16, register u8".
#[tactic(auto, using(crate::proofs::Well::then_provided), unfolding(rules_services::specs::Events::event_of))]
fn told_fault(arguments: &[u8]) -> Option<Event>
    ensures { result ≡ event_of 3 arguments.now }
{
    let [_, _, register] = arguments else {
        return None;
    };
    let code = read2(arguments, 0);
    (code != 0).then_some(Event::Fault(code, *register))
}

// "5 feedback, position and velocity i32".
#[tactic(auto, unfolding(rules_services::specs::Events::event_of))]
fn told_feedback(arguments: &[u8]) -> Option<Event>
    ensures { result ≡ event_of 5 arguments.now }
{
    if arguments.len() != 8 {
        return None;
    }
    Some(Event::Feedback(read4(arguments, 0), read4(arguments, 4)))
}

// "9 voltage flag u8".
#[tactic(auto, using(crate::proofs::Well::then_provided), unfolding(rules_services::specs::Events::event_of))]
fn told_voltage(arguments: &[u8]) -> Option<Event>
    ensures { result ≡ event_of 9 arguments.now }
{
    let [flag] = arguments else {
        return None;
    };
    (*flag <= 1).then_some(Event::Voltage(*flag == 1))
}

// The event of a number and arguments; none where it was told badly. Stays one `match` on the number: an enum of kinds would be made
// by this `match` and taken apart by a second one.
#[tactic(auto, using(crate::proofs::Well::then_provided), unfolding(rules_services::specs::Events::event_of))]
pub fn event_of(number: u32, arguments: &[u8]) -> Option<Event>
    ensures { result ≡ event_of number arguments.now }
{
    let alone = arguments.is_empty();
    match number {
        1 => alone.then_some(Event::Started),
        2 => alone.then_some(Event::QuickStopDone),
        3 => told_fault(arguments),
        4 => alone.then_some(Event::ReactionDone),
        5 => told_feedback(arguments),
        6 => alone.then_some(Event::SetPointReached),
        7 => alone.then_some(Event::Tick),
        8 => alone.then_some(Event::CauseGone),
        9 => told_voltage(arguments),
        _ => None,
    }
}
