// The mapping of a PDO: a mapping word, and the count of them.
ghost use Rattle.std.specs.Prelude.{◌≡◌, ◌+◌, ◌*◌, ◌^◌, ◌<◌, ◌≤◌, length};
ghost use Rattle.rules_dictionary.specs.Table.{most_moves, word_index, word_subindex, word_length, lookup, dictionary_length};
ghost use Rattle.rules_dictionary.specs.Legal.{entry_verdict, count_verdict, map_words};
ghost use Rattle.dictionary.specs.Sizes.{IsPdo};
ghost use Rattle.dictionary.specs.Entries.{presence_of};
ghost use Rattle.mapping.specs.Slots.{words_from};
ghost use Rattle.sdo.specs.Verdicts.{result_of, unnamed};

use crate::aborts::Abort;
use dictionary::{places, read4, records, seek};
use mapping::move_of;

// The mapping words of a PDO.
const MOST_WORDS: u32 = places::MOST_WORDS as u32;

// The bits of a PDO's data.
const MOST_BITS: u32 = 64;

// Why a mapping word that names no object of its PDO's direction is refused.
fn unnamed_verdict(w: u32) -> Result<(), Abort>
    ensures { result ≡ result_of (unnamed (presence_of (lookup (word_index w) (word_subindex w)))) }
{
    seek((w / 0x1_0000 % 0x1_0000) as u16, (w / 0x100 % 0x100) as u8)?;
    Err(Abort::NotMappable)
}

// What a mapping word of a PDO gives.
pub fn entry_verdict(p: usize, w: u32) -> Result<(), Abort>
    ensures { result ≡ result_of (entry_verdict p w) }
{
    if w == 0 {
        return Ok(());
    }
    let named = move_of(w, places::EACH_WAY <= p);
    if named.size != 0 {
        return Ok(());
    }
    unnamed_verdict(w)
}

// The bit length in a mapping word.
fn word_length(w: u32) -> u32
    ensures { (result ≡ word_length w) × (result < 256) }
{
    w % 0x100
}

// What a count gives of the eight mapping words from a place on.
fn words_verdict(d: &[u8], first: usize, n: u32) -> Result<(), Abort>
    requires { (first + 4 * most_moves ≤ length d.now) × (first < 2 ^ 16) }
    ensures { result ≡ result_of (count_verdict (words_from most_moves first d.now) n) }
{
    let mut bits: u32 = 0;
    for k in 0..n.min(MOST_WORDS) as usize {
        let word = read4(d, first + places::WORD_LENGTH * k);
        if word == 0 {
            return Err(Abort::NotMappable);
        }
        bits += word_length(word);
    }
    if MOST_BITS < bits {
        return Err(Abort::OverLength);
    }
    Ok(())
}

// What a count of mapped objects gives for a PDO.
pub fn count_verdict(d: &[u8], p: usize, n: u32) -> Result<(), Abort>
    requires { (length d.now ≡ dictionary_length) × IsPdo p }
    ensures { result ≡ result_of (count_verdict (map_words d.now p) n) }
{
    words_verdict(d, records::words_place(p), n)
}
