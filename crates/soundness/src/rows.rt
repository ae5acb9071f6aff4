// The rows of the table: constants as listed, values in range. A row that may hold any value of its type is not read here, nor the count of a
// mapping, which is read beside its plan.
ghost use Rattle.std.specs.Prelude.{◌≡◌, ◌≤◌, length};
ghost use Rattle.rules_dictionary.specs.Table.{node_rows, drive_rows, each_way, dictionary_length};
ghost use Rattle.dictionary.specs.Sizes.{IsPdo};
ghost use Rattle.soundness.specs.Rows.{tests, communication_test, communication_tests, row_tests, limits_in_order};

use dictionary::choices::{is_mode, is_type};
use dictionary::{objects, places, records};
use drive::words::is_at_most;

// Whether the node's rows, 1000h to 1018h, are legal.
fn node_legal(d: &[u8], n: u8) -> bool
    requires { length d.now ≡ dictionary_length }
    ensures { result ≡ tests n d.now node_rows }
{
    let emergency = 0x80 + (n as u32);
    (objects::device_type(d) == 0x0002_0192)
        & ((objects::sync_identifier(d) == 0x80)
            & ((objects::emergency_identifier(d) == emergency)
                & ((objects::identity_count(d) == 1) & (objects::vendor(d) == 0))))
}

// Whether a PDO's communication record has its count, and a legal transmission type.
fn communication_legal(d: &[u8], p: usize) -> bool
    requires { (length d.now ≡ dictionary_length) × IsPdo p }
    ensures { result ≡ communication_test d.now p }
{
    let transmission = records::transmission_type(d, p);
    (records::communication_count(d, p) == 2) & is_type(transmission as u32)
}

// The same of the four PDOs from PDO p on, one by one: `all` over a range would stop by a branch at each, and this runs at every call.
fn communications_legal(d: &[u8], p: usize) -> bool
    requires { (length d.now ≡ dictionary_length) × (p ≤ each_way) }
    ensures { result ≡ communication_tests d.now p }
{
    communication_legal(d, p)
        & (communication_legal(d, p + 1)
            & (communication_legal(d, p + 2) & communication_legal(d, p + 3)))
}

// Whether the drive's rows, 603Fh to 6502h, are legal; none of them depends on the node-ID.
fn drive_legal(d: &[u8], n: u8) -> bool
    requires { length d.now ≡ dictionary_length }
    ensures { result ≡ tests n d.now drive_rows }
{
    is_mode(objects::mode(d) as u32)
        & ((objects::position_window(d) <= 0x7FFF_FFFF)
            & ((objects::limit_count(d) == 2)
                & ((1 <= objects::profile_acceleration(d))
                    & ((1 <= objects::profile_deceleration(d))
                        & (objects::supported_modes(d) == 5)))))
}

// Whether every constant is as listed and every value in range, on node n, but the counts of the mappings: those are tested with the plans.
pub fn rows_legal(d: &[u8], n: u8) -> bool
    requires { length d.now ≡ dictionary_length }
    ensures { result ≡ row_tests n d.now }
{
    node_legal(d, n)
        & (communications_legal(d, 0)
            & (communications_legal(d, places::EACH_WAY) & drive_legal(d, n)))
}

// Whether the software limits are in order: the minimum is at most the maximum.
pub fn limits_in_order(d: &[u8]) -> bool
    requires { length d.now ≡ dictionary_length }
    ensures { result ≡ limits_in_order d.now }
{
    is_at_most(objects::minimum_position(d), objects::maximum_position(d))
}
