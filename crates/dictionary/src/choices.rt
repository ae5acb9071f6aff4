// The values of a row that may be chosen, whatever the rest of the dictionary holds: modes of operation and transmission types.
ghost use Rattle.std.specs.Prelude.{◌≡◌};
ghost use Rattle.rules_dictionary.specs.Legal.{is_mode, is_type};

use rules_dictionary::{NO_MODE, PROFILE_POSITION, PROFILE_VELOCITY};

// The transmission types up to this one wait for SYNC, ..
pub const LAST_SYNCHRONOUS: u8 = 240;

// .. and those from this one on go at once.
const FIRST_EVENT_DRIVEN: u8 = 254;

// Whether a number is a mode of operation: none, profile position or profile velocity.
// It stays `|` over comparisons: the soundness test runs it at every call, and `matches!` would need the numbers a second time, as u32.
pub fn is_mode(v: u32) -> bool
    ensures { result ≡ is_mode v }
{
    (v == (NO_MODE as u32)) | ((v == (PROFILE_POSITION as u32)) | (v == (PROFILE_VELOCITY as u32)))
}

// Whether a number is a transmission type. It stays `|` over comparisons, as the one above.
pub fn is_type(t: u32) -> bool
    ensures { result ≡ is_type t }
{
    (t <= (LAST_SYNCHRONOUS as u32)) | ((FIRST_EVENT_DRIVEN as u32) <= t)
}
