// The records of the PDOs, which are regular: PDO 0 to 3 receive, 4 to 7 transmit.
ghost use Rattle.std.specs.Prelude.{◌≡◌, ◌+◌, ◌-◌, ◌*◌, ◌<◌, ◌≤◌, ◌^◌, length};
ghost use Rattle.rules_dictionary.specs.Table.{communication_count, identifier, transmission_type, map_count, communication_place, mapping_place};
ghost use Rattle.rules_dictionary.specs.Table.{words_place, each_way, dictionary_length};
ghost use Rattle.rules_dictionary.specs.Values.{read, store};
ghost use Rattle.dictionary.specs.Sizes.{IsPdo};

use crate::places;
use crate::values::{read1, read4, write4};

// The word of a PDO's identifier: bit 31 says that the PDO is not valid, and the identifier is the rest by this.
pub const INVALID: u32 = 0x8000_0000;

pub const IDENTIFIERS: u32 = 0x800;

// Where a PDO's record of a kind stands: so many of that length on from the first of its direction.
fn record_place(p: usize, receive: usize, transmit: usize, length: usize) -> usize
    requires { IsPdo p × ((receive < 2 ^ 15) × ((transmit < 2 ^ 15) × (length < 2 ^ 8))) }
    ensures receives { p < each_way → result ≡ receive + length * p }
    ensures transmits { each_way ≤ p → result ≡ transmit + length * (p - each_way) }
{
    if p < places::EACH_WAY {
        return receive + length * p;
    }
    transmit + length * (p - places::EACH_WAY)
}

// Where a PDO's communication record stands.
pub fn communication_place(p: usize) -> usize
    requires { IsPdo p }
    ensures { (result ≡ communication_place p) × (result < 2 ^ 16) }
{
    record_place(
        p,
        places::RECEIVE_COMMUNICATION,
        places::TRANSMIT_COMMUNICATION,
        places::COMMUNICATION_LENGTH,
    )
}

// Where a PDO's mapping record stands.
pub fn mapping_place(p: usize) -> usize
    requires { IsPdo p }
    ensures { (result ≡ mapping_place p) × (result < 2 ^ 16) }
{
    record_place(
        p,
        places::RECEIVE_MAPPING,
        places::TRANSMIT_MAPPING,
        places::MAPPING_LENGTH,
    )
}

// Where a PDO's mapping words stand, one after another.
pub fn words_place(p: usize) -> usize
    requires { IsPdo p }
    ensures { (result ≡ words_place p) × (result < 2 ^ 16) }
{
    mapping_place(p) + places::WORDS
}

// The readers stay a function each, as those of objects: one over a field of the record would say `read(d, p, Field::Identifier)` for
// `identifier(d, p)`, and give back one type for three.

// The entries of a PDO's communication record.
pub fn communication_count(d: &[u8], p: usize) -> u8
    requires { (length d.now ≡ dictionary_length) × IsPdo p }
    ensures { result ≡ read d.now (communication_count p) }
{
    read1(d, communication_place(p))
}

// A PDO's identifier word.
pub fn identifier(d: &[u8], p: usize) -> u32
    requires { (length d.now ≡ dictionary_length) × IsPdo p }
    ensures { result ≡ read d.now (identifier p) }
{
    read4(d, communication_place(p) + places::IDENTIFIER)
}

// A PDO's transmission type.
pub fn transmission_type(d: &[u8], p: usize) -> u8
    requires { (length d.now ≡ dictionary_length) × IsPdo p }
    ensures { result ≡ read d.now (transmission_type p) }
{
    read1(d, communication_place(p) + places::TRANSMISSION_TYPE)
}

// How many objects a PDO maps.
pub fn map_count(d: &[u8], p: usize) -> u8
    requires { (length d.now ≡ dictionary_length) × IsPdo p }
    ensures { result ≡ read d.now (map_count p) }
{
    read1(d, mapping_place(p))
}

// A PDO's identifier word, written.
pub fn set_identifier(d: &mut [u8], p: usize, v: u32)
    requires { (length d.old ≡ dictionary_length) × IsPdo p }
    ensures { d.new ≡ store (identifier p) v d.old }
{
    let place = communication_place(p) + places::IDENTIFIER;
    write4(d, place, v);
}
