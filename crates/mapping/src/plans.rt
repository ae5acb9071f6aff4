// The plan of a PDO, worked out of its mapping: a count and eight mapping words.
ghost use Rattle.std.specs.Prelude.{◌≡◌, true, ◌+◌, ◌*◌, ◌^◌, ◌<◌, ◌≤◌, length};
ghost use Rattle.rules_dictionary.specs.Table.{map_count, most_moves, dictionary_length};
ghost use Rattle.rules_dictionary.specs.Values.{read};
ghost use Rattle.rules_dictionary.specs.Plans.{mapped, plan_for};
ghost use Rattle.dictionary.specs.Sizes.{IsPdo};
ghost use Rattle.mapping.specs.Words.{way_of, mapping_legal};
ghost use Rattle.mapping.specs.Slots.{moves_named};

use crate::words::move_of;
use dictionary::{places, read4, records};
use rules_dictionary::{Move, Plan};

// The moves that the first mapping words from a place on name, then spare slots. The words' place goes along by its own step: an iterator of
// the words would need a slice of them cut, and each made of its four bytes.
fn moves_of(d: &[u8], first: usize, count: u32, transmit: bool) -> [Move; 8]
    requires { (first + 4 * most_moves ≤ length d.now) × ((first < 2 ^ 16) × (count ≤ most_moves)) }
    ensures { result ≡ moves_named (way_of transmit) count first d.now }
{
    let mut moves = [Move { place: 0, size: 0 }; 8];
    let mut at = first;
    for k in 0..count {
        moves[k as usize] = move_of(read4(d, at), transmit);
        at += places::WORD_LENGTH;
    }
    moves
}

// The plan that a PDO's legal mapping gives.
pub fn plan_of(d: &[u8], p: usize) -> Plan
    requires { (length d.now ≡ dictionary_length) × (IsPdo p × ((read d.now (map_count p) ≤ most_moves) × (mapping_legal d.now p ≡ true))) }
    ensures { result ≡ plan_for (mapped d.now p) }
{
    let count = records::map_count(d, p);
    let first = records::words_place(p);
    let moves = moves_of(d, first, count as u32, places::EACH_WAY <= p);
    Plan { count, moves }
}
