// The transfer's part of the form. The four received bytes are copied one by one: `Receipt`, which the rules' `receipt_sound` and the form's
// `receipt_at` are about, has a field for each.

ghost use Rattle.std.specs.Prelude.{◌≡◌, ◌+◌, length};
ghost use Rattle.std.proofs.lemmas.List.Edits.{sets};
ghost use Rattle.form.specs.Form.{step_offset, receipt_at, stepping, transfer_kind, receipt_of, transfer_form};
ghost use Rattle.form.specs.Form.{transfer_place, state_length, state_of};
ghost use Rattle.form.specs.Own.{idle_at, transfer_own};

use crate::layout;
use crate::node::{flag_number, flag_of};
use crate::own::{bits_of_words, own_flag};
use dictionary::read2;
use state::{Receipt, Transfer};

// The receipt that the bytes hold of a download.
fn read_receipt(bytes: &[u8]) -> Receipt
    requires { length bytes.now ≡ state_length }
    ensures { result ≡ receipt_at (transfer_place + step_offset) bytes.now }
{
    Receipt {
        low: bytes[layout::OBJECT_INDEX],
        high: bytes[layout::OBJECT_INDEX + 1],
        subindex: bytes[layout::OBJECT_SUBINDEX],
        toggle: flag_of(bytes[layout::TOGGLE]),
        count: bytes[layout::STEP],
        first: bytes[layout::RECEIVED],
        second: bytes[layout::RECEIVED + 1],
        third: bytes[layout::RECEIVED + 2],
        fourth: bytes[layout::RECEIVED + 3],
    }
}

// The transfer that the bytes hold.
pub fn read_transfer(bytes: &[u8]) -> Transfer
    requires { length bytes.now ≡ state_length }
    ensures { result ≡ (state_of bytes.now).transfer }
{
    match bytes[layout::TRANSFER] {
        0 => Transfer::NoTransfer,
        1 => Transfer::Uploading(bytes[layout::STEP]),
        _ => Transfer::Downloading(read_receipt(bytes)),
    }
}

// The number of a transfer's kind. Stays a `match`, as the kind of a store: the kinds hold values.
fn transfer_kind(t: Transfer) -> u8
    ensures { result ≡ transfer_kind t }
{
    match t {
        Transfer::NoTransfer => 0,
        Transfer::Uploading(_) => 1,
        Transfer::Downloading(_) => 2,
    }
}

// A receipt that has a count alone. Its zeros stand here and nowhere else, so a `..` over a receipt of zeros would be no shorter.
fn stepping(k: u8) -> Receipt
    ensures { result ≡ stepping k }
{
    Receipt {
        low: 0,
        high: 0,
        subindex: 0,
        toggle: false,
        count: k,
        first: 0,
        second: 0,
        third: 0,
        fourth: 0,
    }
}

// What stands in the receipt's bytes.
fn receipt_of(t: Transfer) -> Receipt
    ensures { result ≡ receipt_of t }
{
    match t {
        Transfer::NoTransfer => stepping(0),
        Transfer::Uploading(k) => stepping(k),
        Transfer::Downloading(g) => g,
    }
}

// The transfer into the bytes.
pub fn write_transfer(bytes: &mut [u8], t: Transfer)
    requires { length bytes.old ≡ state_length }
    ensures { bytes.new ≡ sets bytes.old transfer_place (transfer_form t) }
{
    let g = receipt_of(t);
    bytes[layout::TRANSFER] = transfer_kind(t);
    bytes[layout::STEP] = g.count;
    bytes[layout::OBJECT_INDEX] = g.low;
    bytes[layout::OBJECT_INDEX + 1] = g.high;
    bytes[layout::OBJECT_SUBINDEX] = g.subindex;
    bytes[layout::TOGGLE] = flag_number(g.toggle);
    bytes[layout::RECEIVED] = g.first;
    bytes[layout::RECEIVED + 1] = g.second;
    bytes[layout::RECEIVED + 2] = g.third;
    bytes[layout::RECEIVED + 3] = g.fourth;
}

// Whether nothing runs, told at once: every byte of the transfer is zero.
pub fn is_idle(bytes: &[u8]) -> bool
    requires { length bytes.now ≡ state_length }
    ensures { result ≡ idle_at transfer_place bytes.now }
{
    let head = read2(bytes, layout::TRANSFER) as u32;
    let words = bits_of_words(bytes, layout::OBJECT_INDEX, layout::RECEIPT_WORDS);
    (head | words) == 0
}

// Whether the transfer's bytes are its form: what a kind of transfer does not use is zero. By the byte, since `read_transfer` reads any byte.
pub fn own_transfer(bytes: &[u8]) -> bool
    requires { length bytes.now ≡ state_length }
    ensures { result ≡ transfer_own transfer_place bytes.now }
{
    match bytes[layout::TRANSFER] {
        0 => {
            (bytes[layout::STEP] == 0)
                & (bits_of_words(bytes, layout::OBJECT_INDEX, layout::RECEIPT_WORDS) == 0)
        }
        1 => bits_of_words(bytes, layout::OBJECT_INDEX, layout::RECEIPT_WORDS) == 0,
        2 => own_flag(bytes[layout::TOGGLE]),
        _ => false,
    }
}
