// A cursor: a file and a place in it. `listing_at` and `behind` stay beside it for the loops, which keep the place alone: they say
// `at = behind(file, at)` for `at = Cursor::open(file, at).behind()`.
ghost use Rattle.std.specs.Prelude.{◌≡◌, ◌+◌, drop};
ghost use Rattle.files.specs.ConciseDcf.{entry_size};
ghost use Rattle.files.specs.Listings.{listing_of, StandsAt};

use crate::Listing;
use crate::entries::{HEAD_SIZE, SUBINDEX, first_of, size_at};
use dictionary::read2;

#[derive(Clone, Copy)]
pub struct Cursor<'a> {
    pub file: &'a [u8],
    pub at: usize,
}

impl<'a> Cursor<'a> {
    // A cursor at a place of a file.
    pub fn open(file: &'a [u8], at: usize) -> Cursor<'a>
        ensures { (result.file ≡ file.entry) × (result.at ≡ at) }
    {
        Cursor { file, at }
    }

    // The entry that stands there.
    pub fn listing(self) -> Listing
        requires { StandsAt self.at self.file.now }
        ensures { result ≡ listing_of (drop self.entry.at self.entry.file.now) }
    {
        let size = size_at(self.file, self.at);
        Listing {
            index: read2(self.file, self.at),
            subindex: self.file[self.at + SUBINDEX],
            size,
            first: first_of(self.file, self.at + HEAD_SIZE, size),
        }
    }

    // The place behind it.
    pub fn behind(self) -> usize
        requires { StandsAt self.at self.file.now }
        ensures { result ≡ self.entry.at + entry_size (drop self.entry.at self.entry.file.now) }
    {
        self.at + HEAD_SIZE + size_at(self.file, self.at) as usize
    }
}

// The entry that stands at a place of a file.
pub fn listing_at(file: &[u8], at: usize) -> Listing
    requires { StandsAt at file.now }
    ensures { result ≡ listing_of (drop at file.now) }
{
    Cursor::open(file, at).listing()
}

// The place behind it.
pub fn behind(file: &[u8], at: usize) -> usize
    requires { StandsAt at file.now }
    ensures { result ≡ at + entry_size (drop at file.now) }
{
    Cursor::open(file, at).behind()
}
