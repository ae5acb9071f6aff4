// Emergencies, and what the node does once values are stored: 6060h and 6040h acted on, which a fault reset's emergency may follow.

#![tactic(auto)]

mod emergencies; // EMCY
mod acting; // 6060h and 6040h acted on

pub use acting::acted;
pub use emergencies::emergency;
