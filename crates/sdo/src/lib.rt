// Document 01, 'SDO', and ticket 1: the server, expedited and by segments.

#![tactic(auto)]

mod aborts; // why a request is refused
mod identifiers; // what the identifier of a PDO may be
mod mappings; // what the mapping of a PDO may be
mod values; // what value an entry may hold
mod offers; // what may be offered to an entry, and when
mod request; // what a request asks, of which object, and what it brings
mod replies; // frames on 580h+N, and the transfer that then runs
mod downloads; // a value written
mod uploads; // a value read, or the device name asked for
mod segments; // a segment, and the object of the transfer that runs
mod name_segments; // the device name, read by segments
mod receipts; // a download by segments
mod server; // requests by command

pub use aborts::Abort;
pub use downloads::is_mapping;
pub use offers::{offer_verdict, offered};
pub use server::serve;

// What a download brings, whatever the object: how many bytes, where it tells that, and the first four of them.
// Not a slice: the count may be none, or five for more than stand here (`brought_in`, `offered_by`).
#[derive(Clone, Copy)]
pub struct Brought {
    pub count: Option<u8>,
    pub bytes: [u8; 4],
}

// What it offers an entry: how many bytes, and the value of as many as the entry has, whether or not the two numbers are the same.
#[derive(Clone, Copy)]
pub struct Offer {
    pub size: u8,
    pub value: u32,
}
