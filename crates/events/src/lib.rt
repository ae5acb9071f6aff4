// Document 01, 'NMT, emergency, time': the events 1 to 9: how they are told, where each is in place, and what it does.

#![tactic(auto)]

mod telling; // the event of a number and arguments
mod places; // where each is in place
mod acts; // what each does

pub use acts::happens;
pub use places::is_in_place;
pub use telling::event_of;
