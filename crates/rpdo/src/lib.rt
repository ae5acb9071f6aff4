// Document 01, 'PDO traffic': received frames and SYNC.

#![tactic(auto)]

mod listening; // whether a receive PDO listens to an identifier
mod dropping; // a frame that is not applied
mod applying; // a frame's values stored and acted on
mod receiving; // a received frame
mod syncing; // SYNC

pub use receiving::receive;
pub use syncing::sync;
