// The mappings of the PDOs: transfer plans and ready frames, tested against the dictionary and worked afresh from it, and what stands packed
// in a received frame by its plan.

#![tactic(auto)]

mod words; // the move that a mapping word names
mod frames; // the data of a PDO, compared
mod plans; // the plan that a PDO's mapping gives
mod moves; // the moves of a plan, one after another
mod received; // the values of a received frame
mod afresh; // all plans
mod ready; // the ready frames, worked where they stand
mod kept; // what a state's bytes keep of a mapping
mod working; // whether a PDO works in Operational

pub use afresh::all_plans;
pub use kept::{is_frame_kept, is_plan_kept};
pub use ready::renew_all;
pub use received::{are_legal, length_of, maps, store_values};
pub use words::{move_of, receive_slots, transmit_slots};
pub use working::is_open;
