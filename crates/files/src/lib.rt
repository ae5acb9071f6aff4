// Ticket 6: concise DCF files, read through a cursor. Proved against specs/ConciseDcf.antt.

#![tactic(auto)]

ghost use Rattle.std.specs.Prelude.{◌≡◌, true, ◌≤◌, eqb, length};
ghost use Rattle.rules_dictionary.specs.Numbers.{any};
ghost use Rattle.files.specs.ConciseDcf.{Entry, count_size, count_in, reading_of, is_whole, entries_in};
ghost use Rattle.files.specs.Listings.{Counted};

mod entries; // the entry at a place of a file
mod cursor; // a file and a place in it

pub use cursor::{Cursor, behind, listing_at};
use dictionary::read4;

// How many bytes the count has, at the front of a file: there the first entry stands.
pub const COUNT_SIZE: usize = 4;

// An entry as it stands in a file: index and subindex, how many bytes of data it has, and the first four of these, zero where it has fewer.
// Size and array stay fields: the definition `listing_of` is about them, and no entry is refused for data that is longer than the array.
#[derive(Clone, Copy)]
pub struct Listing {
    pub index: u16,
    pub subindex: u8,
    pub size: u32,
    pub first: [u8; 4],
}

// How many entries a file says that it has.
pub fn count_in(file: &[u8]) -> u32
    requires { count_size ≤ length file.now }
    ensures { result ≡ count_in file.now }
{
    read4(file, 0)
}

// Does it have all of them, and nothing behind them? This walk and that of `names` stay loops over the count: an iterator of entries would be a
// type with `next` and Iterator's laws, for three lines in each, and here an entry may be cut short.
pub fn is_whole(file: &[u8]) -> bool
    requires { Counted file.now }
    ensures { result ≡ is_whole (reading_of file.now) }
{
    let mut at = COUNT_SIZE;
    for _entry in 0..count_in(file) {
        if !entries::is_there(file, at) {
            return false;
        }
        at = behind(file, at);
    }
    at == file.len()
}

// Has a whole file an entry of that index?
pub fn names(file: &[u8], index: u16) -> bool
    requires { Counted file.now × (is_whole (reading_of file.now) ≡ true) }
    ensures { result ≡ any (λ (e : Entry). eqb e.index index) (entries_in file.now) }
{
    let mut at = COUNT_SIZE;
    for _entry in 0..count_in(file) {
        let listing = listing_at(file, at);
        if listing.index == index {
            return true;
        }
        at = behind(file, at);
    }
    false
}
