// Document 01, 'NMT, emergency, time': the NMT commands, power-up, boot-up and heartbeat.

#![tactic(auto)]

mod commands; // an NMT frame, and what each command does
mod heartbeats; // boot-up and heartbeat on 700h+N
mod resets; // power-up, 81h and 82h

pub use commands::nmt_frame;
pub use heartbeats::tick;
pub use resets::{fresh_drive, fresh_node, start};
