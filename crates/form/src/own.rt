// Whether bytes are a form's, as far as the parts share it: flags, and words together.

ghost use Rattle.std.specs.Prelude.{◌≡◌, ◌+◌, ◌*◌, ◌≤◌, length};
ghost use Rattle.form.specs.Form.{word_length};
ghost use Rattle.form.specs.Own.{own_flag, flags_own, is_zero, every_word};

use crate::layout;
use crate::node::{flag_number, flag_of};
use dictionary::read4;

// Whether a byte is a flag's.
pub fn own_flag(b: u8) -> bool
    ensures { result ≡ own_flag b }
{
    flag_number(flag_of(b)) == b
}

// Whether so many bytes from a place on are flags'. Joined by `&=`, without a branch at each byte, where `all` has one. The due marks stand two
// bytes apart (pdos, `own_paces`), and `flags_own` is of bytes one behind another.
pub fn own_flags(bytes: &[u8], place: usize, count: usize) -> bool
    requires { place + count ≤ length bytes.now }
    ensures { result ≡ flags_own count place bytes.now }
{
    let mut own = true;
    for k in 0..count {
        own &= own_flag(bytes[place + k]);
    }
    own
}

// The bits of so many words from a place on, all together: zero just where every word is.
pub fn bits_of_words(bytes: &[u8], place: usize, count: usize) -> u32
    requires { place + word_length * count ≤ length bytes.now }
    ensures { is_zero result ≡ every_word is_zero count place bytes.now }
{
    let mut bits: u32 = 0;
    for k in 0..count {
        bits |= read4(bytes, place + layout::WORD_LENGTH * k);
    }
    bits
}
