// The transfer in progress: an upload stands at a segment that the name has, a download has a count up to five and zeros behind it.
ghost use Rattle.std.specs.Prelude.{◌≡◌, length};
ghost use Rattle.rules.specs.Sound.{receipt_sound, transfer_sound};
ghost use Rattle.form.specs.Form.{state_length, state_of};
ghost use Rattle.soundness.specs.Transfers.{counted_or_zero, transfer_clear};

use dictionary::name::NAME_LENGTH;
use form::{is_idle, own_transfer, read_transfer};
use state::{Receipt, Transfer};

// The bytes of a segment.
const SEGMENT_SIZE: usize = 7;

// More bytes than any object has.
const TOO_MANY: u8 = 5;

// Whether byte k is one of the first so many, or zero.
fn counted_or_zero(k: u8, count: u8, byte: u8) -> bool
    ensures { result ≡ counted_or_zero k count byte }
{
    (k < count) | (byte == 0)
}

// Whether a download's bytes so far can be some. One by one: `Receipt`, which the rules' `receipt_sound` is about, has a field for each.
fn is_receipt_sound(g: Receipt) -> bool
    ensures { result ≡ receipt_sound g }
{
    let low = counted_or_zero(0, g.count, g.first) & counted_or_zero(1, g.count, g.second);
    let high = counted_or_zero(2, g.count, g.third) & counted_or_zero(3, g.count, g.fourth);
    (g.count <= TOO_MANY) & (low & high)
}

// Whether the transfer can be one.
fn is_transfer_sound(state: &[u8]) -> bool
    requires { length state.now ≡ state_length }
    ensures { result ≡ transfer_sound (state_of state.now).transfer }
{
    match read_transfer(state) {
        Transfer::NoTransfer => true,
        Transfer::Uploading(k) => (k as usize) * SEGMENT_SIZE < NAME_LENGTH,
        Transfer::Downloading(g) => is_receipt_sound(g),
    }
}

// Whether the transfer's bytes are its form, and it can be one. Most often nothing runs.
pub fn is_transfer_clear(state: &[u8]) -> bool
    requires { length state.now ≡ state_length }
    ensures { result ≡ transfer_clear state.now }
{
    if is_idle(state) {
        return true;
    }
    if !own_transfer(state) {
        return false;
    }
    is_transfer_sound(state)
}
