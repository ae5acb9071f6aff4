// Entries of a file tried on the dictionary, in order, up to the first that is aborted. What a download gives goes by the dictionary and the NMT
// state alone, and a load is served in Pre-operational.
ghost use Rattle.std.specs.Prelude.{◌≡◌, true, ◌+◌, ◌^◌, ◌<◌, min, length};
ghost use Rattle.rules_dictionary.specs.Table.{dictionary_length};
ghost use Rattle.dictionary.specs.Entries.{Stands};
ghost use Rattle.files.specs.ConciseDcf.{reading_of, is_whole, entries_in};
ghost use Rattle.files.specs.Listings.{Counted};
ghost use Rattle.rules_services.specs.Segments.{too_many};
ghost use Rattle.load.specs.Trying.{brought_by, nothing_tried, taken_at, aborted_with, entry_tried, entries_tried, Tries};

use crate::Tally;
use dictionary::{Entry, Found, find, places, write};
use files::{COUNT_SIZE, Listing, behind, count_in, listing_at};
use rules_dictionary::Role;
use sdo::{Abort, Brought, is_mapping, offer_verdict, offered};
use state::NmtState;

// The bytes of an object are four at the most: more of them are all one.
const TOO_MANY: u8 = 5;

// How many bytes an entry of that size brings. Stays an `if`: it tells beside its cast that the size fits in a byte.
fn count_of(size: u32) -> u8
    ensures { result ≡ min size too_many }
{
    if size < TOO_MANY as u32 {
        size as u8
    } else {
        TOO_MANY
    }
}

// What an entry brings.
fn brought_by(listing: Listing) -> Brought
    ensures { result ≡ brought_by listing }
{
    // Its own variable: an array moves out of a field only by a name.
    let bytes = listing.first;
    Brought {
        count: Some(count_of(listing.size)),
        bytes,
    }
}

// One entry more was taken: a value was written at that place, for an entry of that role.
fn taken_at(place: usize, role: Role, tally: Tally) -> Tally
    requires { tally.tried + 1 < 2 ^ 16 }
    ensures { result ≡ taken_at place role tally }
{
    Tally {
        tried: tally.tried + 1,
        last: Ok(()),
        heartbeat: tally.heartbeat | (place == places::HEARTBEAT_TIME),
        mode: tally.mode | (place == places::MODE),
        mapping: tally.mapping | is_mapping(role),
    }
}

// One entry more was aborted.
fn aborted_with(why: Abort, tally: Tally) -> Tally
    requires { tally.tried + 1 < 2 ^ 16 }
    ensures { result ≡ aborted_with why tally }
{
    Tally {
        tried: tally.tried + 1,
        last: Err(why),
        ..tally
    }
}

// An entry of the file, for an entry of the table.
fn try_row(e: Entry, listing: Listing, tally: Tally, d: &mut [u8]) -> Tally
    requires { (length d.old ≡ dictionary_length) × (Stands listing.index listing.subindex e × (tally.tried + 1 < 2 ^ 16)) }
    ensures { Tries (entry_tried listing tally d.old) result d.new }
{
    let offer = offered(brought_by(listing), e.size);
    if let Err(why) = offer_verdict(NmtState::PreOperational, d, e, offer) {
        return aborted_with(why, tally);
    }
    let place = e.place as usize;
    write(d, place, e.size, offer.value);
    taken_at(place, e.role, tally)
}

// An entry of the file.
fn try_entry(listing: Listing, tally: Tally, d: &mut [u8]) -> Tally
    requires { (length d.old ≡ dictionary_length) × (tally.tried + 1 < 2 ^ 16) }
    ensures { Tries (entry_tried listing tally d.old) result d.new }
{
    match find(listing.index, listing.subindex) {
        Ok(Found::Row(row)) => try_row(row.entry(), listing, tally, d),
        Ok(Found::DeviceName) => aborted_with(Abort::NoWriting, tally),
        Err(missing) => aborted_with(Abort::from(missing), tally),
    }
}

// Nothing was tried yet.
fn nothing_tried() -> Tally
    ensures { result ≡ nothing_tried }
{
    Tally {
        tried: 0,
        last: Ok(()),
        heartbeat: false,
        mode: false,
        mapping: false,
    }
}

// The entries of a whole file. Those before the first that is aborted stand in the dictionary then.
pub fn try_entries(file: &[u8], d: &mut [u8]) -> Tally
    requires { (length d.old ≡ dictionary_length) × (Counted file.now × (is_whole (reading_of file.now) ≡ true)) }
    ensures { Tries (entries_tried (entries_in file.now) nothing_tried d.old) result d.new }
{
    let mut tally = nothing_tried();
    let mut at = COUNT_SIZE;
    for _ in 0..count_in(file) {
        tally = try_entry(listing_at(file, at), tally, d);
        if tally.last.is_err() {
            return tally;
        }
        at = behind(file, at);
    }
    tally
}
