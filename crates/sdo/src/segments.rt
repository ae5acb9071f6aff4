// A segment, either way: "toggle in bit 4, 7 minus the bytes carried in bits 3-1, bit 0 at the last, then seven bytes"; and the object of the
// transfer that runs, which its aborts name.
ghost use Rattle.std.specs.Prelude.{◌≡◌, cond};
ghost use Rattle.rules_services.specs.Segments.{toggle_of, is_last, object_in};

use crate::request::COMMAND_PLACE;
use state::Receipt;

// The parts of the command byte: the toggle, how many of the seven bytes hold nothing, and whether it is the last.
pub const TOGGLE: u8 = 0x10;

pub const UNUSED: u8 = 2;

pub const LAST: u8 = 1;

// The bytes of a segment.
pub const SEGMENT_SIZE: u8 = 7;

// The device name's index and subindex, 1008h:0.
pub const NAME_OBJECT: [u8; 3] = [0x08, 0x10, 0x00];

// The object where no transfer runs: "zeros if none ran".
pub const NOWHERE: [u8; 3] = [0, 0, 0];

// A bit of a command byte, where it is set. Stays an `if`: a product with `u8::from(is_set)` says it no plainer.
pub fn flag(bit: u8, is_set: bool) -> u8
    ensures { result ≡ cond is_set bit 0 }
{
    if is_set { bit } else { 0 }
}

// The toggle of a segment. No function for both bits: `has(byte, bit)` would say what `byte & bit != 0` says.
pub fn toggle_of(request: [u8; 8]) -> bool
    ensures { result ≡ toggle_of request }
{
    request[COMMAND_PLACE] & TOGGLE != 0
}

// Whether a segment is the last.
pub fn is_last(request: [u8; 8]) -> bool
    ensures { result ≡ is_last request }
{
    request[COMMAND_PLACE] & LAST != 0
}

// The object of a download by segments.
pub fn object_in(g: Receipt) -> [u8; 3]
    ensures { result ≡ object_in g }
{
    [g.low, g.high, g.subindex]
}
