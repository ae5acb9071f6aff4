// The identifier of a PDO: alone, and beside those of the other PDOs.
ghost use Rattle.std.specs.Prelude.{◌≡◌, length};
ghost use Rattle.rules_dictionary.specs.Numbers.{any};
ghost use Rattle.rules_dictionary.specs.Table.{pdos, dictionary_length};
ghost use Rattle.rules_dictionary.specs.Legal.{is_valid, frame_identifier, identifiers, clashes, bad_identifier};
ghost use Rattle.dictionary.specs.Sizes.{IsPdo};
ghost use Rattle.sdo.specs.Verdicts.{ill_formed, outside, takes};

use dictionary::{places, records};

// Bit 30: the PDO transmits.
const TRANSMITS: u32 = 0x4000_0000;

// The nineteen bits between bit 30 and the identifier.
const NINETEEN: u32 = 0x8_0000;

// The least and the greatest identifier of a valid PDO.
const FIRST: u32 = 0x181;

const LAST: u32 = 0x57F;

// Whether a word makes its PDO valid. A bit by its weight, as in segments.rt: a function for all would take weight and width, and say less.
pub fn is_valid(w: u32) -> bool
    ensures { result ≡ is_valid w }
{
    !(w / records::INVALID % 2 == 1)
}

// The identifier in a word.
fn frame_identifier(w: u32) -> u32
    ensures { result ≡ frame_identifier w }
{
    w % records::IDENTIFIERS
}

// Whether bit 30 of a word is not its PDO's direction, or one of bits 29 to 11 is set.
fn ill_formed(p: usize, w: u32) -> bool
    ensures { result ≡ ill_formed p w }
{
    let transmits = w / TRANSMITS % 2 == 1;
    (transmits != (places::EACH_WAY <= p)) | (w / records::IDENTIFIERS % NINETEEN != 0)
}

// Whether a word's identifier is none for a PDO.
fn outside(w: u32) -> bool
    ensures { result ≡ outside w }
{
    !(FIRST..=LAST).contains(&frame_identifier(w))
}

// Whether the word of PDO q takes the identifier of PDO p's.
fn takes(p: usize, q: usize, w: u32, other: u32) -> bool
    ensures { result ≡ takes p q w other }
{
    ((q != p) & is_valid(other)) & (frame_identifier(w) == frame_identifier(other))
}

// Whether another PDO is valid and has the word's identifier.
fn is_taken(d: &[u8], p: usize, w: u32) -> bool
    requires { length d.now ≡ dictionary_length }
    ensures { result ≡ any (clashes (identifiers d.now) p w) pdos }
{
    for q in 0..places::PDOS {
        if takes(p, q, w, records::identifier(d, q)) {
            return true;
        }
    }
    false
}

// Whether a word is none for the identifier of a PDO.
pub fn bad_identifier(d: &[u8], p: usize, w: u32) -> bool
    requires { (length d.now ≡ dictionary_length) × IsPdo p }
    ensures { result ≡ bad_identifier (identifiers d.now) p w }
{
    if ill_formed(p, w) {
        return true;
    }
    if !is_valid(w) {
        return false;
    }
    if outside(w) | is_taken(d, p, w) {
        return true;
    }
    let present = records::identifier(d, p);
    is_valid(present) & (w != present)
}
