// The defaults.
ghost use Rattle.std.specs.Prelude.{◌≡◌, ◌≤◌, length};
ghost use Rattle.std.proofs.Math.Seq.{paste};
ghost use Rattle.rules_dictionary.specs.Numbers.{filter};
ghost use Rattle.rules_dictionary.specs.TheNode.{first_node, last_node};
ghost use Rattle.rules_dictionary.specs.Table.{table, each_way, dictionary_length, is_reset};
ghost use Rattle.rules_dictionary.specs.Values.{stored, to_defaults, packed_defaults};
ghost use Rattle.dictionary.specs.Identifiers.{four_from, node_identifiers};

use crate::objects::set_emergency_identifier;
use crate::places::{DICTIONARY_LENGTH, EACH_WAY, ERROR_CODE, ERROR_REGISTER};
use crate::records::set_identifier;

// The default bytes, an object a line, without the node-ID: the packed defaults of the definitions' table, by one computed test.
const DEFAULTS: [u8; DICTIONARY_LENGTH] = *b"\
    \x92\x01\x02\0\
    \0\
    \x80\0\0\0\
    \x80\0\0\0\
    \0\0\
    \x01\0\0\0\0\
    \x02\0\x02\0\0\xFF\
    \x02\0\x03\0\0\xFF\
    \x02\0\x04\0\0\xFF\
    \x02\0\x05\0\0\xFF\
    \x01\x10\0\x40\x60\0\0\0\0\0\0\0\0\0\0\0\0\0\0\0\0\0\0\0\0\0\0\0\0\0\0\0\0\
    \x02\x10\0\x40\x60\x08\0\x60\x60\0\0\0\0\0\0\0\0\0\0\0\0\0\0\0\0\0\0\0\0\0\0\0\0\
    \x02\x10\0\x40\x60\x20\0\x7A\x60\0\0\0\0\0\0\0\0\0\0\0\0\0\0\0\0\0\0\0\0\0\0\0\0\
    \x02\x10\0\x40\x60\x20\0\xFF\x60\0\0\0\0\0\0\0\0\0\0\0\0\0\0\0\0\0\0\0\0\0\0\0\0\
    \x02\x80\x01\0\x40\xFF\
    \x02\x80\x02\0\x40\xFF\
    \x02\x80\x03\0\x40\xFF\
    \x02\x80\x04\0\x40\xFF\
    \x01\x10\0\x41\x60\0\0\0\0\0\0\0\0\0\0\0\0\0\0\0\0\0\0\0\0\0\0\0\0\0\0\0\0\
    \x02\x10\0\x41\x60\x08\0\x61\x60\0\0\0\0\0\0\0\0\0\0\0\0\0\0\0\0\0\0\0\0\0\0\0\0\
    \x02\x10\0\x41\x60\x20\0\x64\x60\0\0\0\0\0\0\0\0\0\0\0\0\0\0\0\0\0\0\0\0\0\0\0\0\
    \x02\x10\0\x41\x60\x20\0\x6C\x60\0\0\0\0\0\0\0\0\0\0\0\0\0\0\0\0\0\0\0\0\0\0\0\0\
    \0\0\
    \0\0\
    \0\0\
    \0\
    \0\
    \0\0\0\0\
    \0\0\0\0\
    \0\0\
    \0\0\0\0\
    \0\0\
    \0\0\
    \0\0\0\0\
    \x02\0\0\0\x80\xFF\xFF\xFF\x7F\
    \0\0\0\0\
    \x01\0\0\0\
    \x01\0\0\0\
    \0\0\0\0\
    \x05\0\0\0";

// The first default bytes into the dictionary, so many; those behind them stay.
#[tactic(auto, unfolding(rules_dictionary::specs::Table::open_table))]
fn write_first(d: &mut [u8], count: usize)
    requires { (length d.old ≡ dictionary_length) × (count ≤ dictionary_length) }
    ensures { d.new ≡ paste d.old 0 (packed_defaults 0 table) count }
{
    d[..count].copy_from_slice(&DEFAULTS[..count]);
}

// The identifiers of the four PDOs from PDO p on, in steps of 100h, plus n.
fn write_identifiers(d: &mut [u8], p: usize, first: u32, n: u8)
    requires { (length d.old ≡ dictionary_length) × ((p ≤ each_way) × ((first ≤ 0x40000180) × (n ≤ last_node))) }
    ensures { d.new ≡ four_from p first n d.old }
{
    for k in 0..EACH_WAY {
        set_identifier(d, p + k, first + 0x100 * (k as u32) + u32::from(n));
    }
}

// The identifiers that count up from the node-ID, 1014h and those of the PDOs, to their defaults on node n.
fn write_node_identifiers(d: &mut [u8], n: u8)
    requires { (length d.old ≡ dictionary_length) × (n ≤ last_node) }
    ensures { d.new ≡ stored (to_defaults n node_identifiers) d.old }
{
    set_emergency_identifier(d, 0x80 + (n as u32));
    write_identifiers(d, 0, 0x200, n);
    write_identifiers(d, EACH_WAY, 0x4000_0180, n);
}

// Every row to its default on node n. It and the next stay two: one with a count would keep 1001h in one case, and not in the other.
#[tactic(auto, unfolding(rules_dictionary::specs::Table::open_table))]
pub fn write_defaults(d: &mut [u8], n: u8)
    requires { (length d.old ≡ dictionary_length) × ((first_node ≤ n) × (n ≤ last_node)) }
    ensures { d.new ≡ stored (to_defaults n table) d.old }
{
    write_first(d, DICTIONARY_LENGTH);
    write_node_identifiers(d, n);
}

// The communication objects, 1000h to 1FFFh without 1001h, to their defaults on node n: all in front of the drive's, of which 603Fh is
// the first.
#[tactic(auto, unfolding(rules_dictionary::specs::Table::open_table))]
pub fn write_communication_defaults(d: &mut [u8], n: u8)
    requires { (length d.old ≡ dictionary_length) × ((first_node ≤ n) × (n ≤ last_node)) }
    ensures { d.new ≡ stored (to_defaults n (filter is_reset table)) d.old }
{
    let register = d[ERROR_REGISTER];
    write_first(d, ERROR_CODE);
    d[ERROR_REGISTER] = register;
    write_node_identifiers(d, n);
}
