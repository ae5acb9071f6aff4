// The parts of the entry at a place of a file: its head, and behind it its data. They take file and place: the cursor's methods stand on them.
ghost use Rattle.std.specs.Prelude.{◌≡◌, ◌+◌, ◌≤◌, length, drop};
ghost use Rattle.rules_dictionary.specs.Numbers.{part, padded};
ghost use Rattle.files.specs.ConciseDcf.{head_size, size_at, is_there};
ghost use Rattle.files.specs.Listings.{first_bytes};

use dictionary::read4;
use std::array;

// Where the parts of a head stand in it, and how many bytes it has.
pub const SUBINDEX: usize = 2;

const SIZE: usize = SUBINDEX + 1;

pub const HEAD_SIZE: usize = SIZE + 4;

// How many bytes of data the entry says that it has.
pub fn size_at(file: &[u8], at: usize) -> u32
    requires { at + head_size ≤ length file.now }
    ensures { result ≡ size_at (drop at file.now) }
{
    read4(file, at + SIZE)
}

// Is it all there, head and data?
pub fn is_there(file: &[u8], at: usize) -> bool
    requires { at ≤ length file.now }
    ensures { result ≡ is_there (drop at file.now) }
{
    let room = file.len() - at;
    if room < HEAD_SIZE {
        return false;
    }
    size_at(file, at) as usize <= room - HEAD_SIZE
}

// The first bytes of the data that starts at a place and has so many bytes.
pub fn first_of(file: &[u8], start: usize, size: u32) -> [u8; 4]
    requires { start + size ≤ length file.now }
    ensures { result ≡ padded 0 first_bytes (part start size file.now) }
{
    let data = &file[start..start + size as usize];
    array::from_fn(|i| data.get(i).copied().unwrap_or(0))
}
