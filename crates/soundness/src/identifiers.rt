// The PDO identifiers. Each word gets a key: its identifier, counted from the first legal one, where it is a valid word, a number of its
// PDO's own where it is an invalid one, and the last number where it is illegal. The words are legal where no key is that number and no
// two are alike.
ghost use Rattle.std.specs.Prelude.{◌≡◌, ◌&&◌, ◌+◌, map, ◌≤◌, length};
ghost use Rattle.rules_dictionary.specs.Table.{each_way, identifier, dictionary_length};
ghost use Rattle.rules_dictionary.specs.Numbers.{all};
ghost use Rattle.rules_dictionary.specs.Values.{read};
ghost use Rattle.dictionary.specs.Sizes.{IsPdo};
ghost use Rattle.soundness.specs.Keys.{transmit_way, word_key, is_other, is_legal_key, distinct, are_apart, four, identifiers_legal};

use dictionary::places::EACH_WAY;
use dictionary::records;

// Bit 30 of a receive PDO's word, and of a transmit PDO's. Numbers, not an enum of directions: the bit is a summand of each bound in
// `word_key`, which the contracts name.
const RECEIVE: u32 = 0;

const TRANSMIT: u32 = 0x4000_0000;

// The key of an illegal word. A number, not a `None`: `word_key` and `is_legal_key` say so, and the bits of eight keys tell all at once.
const ILLEGAL: u32 = 0x1000;

// The keys of the four PDOs of a direction.
type Keys = [u32; EACH_WAY];

// The key of a PDO's word; `way` is its bit 30.
fn key_of(d: &[u8], p: u32, way: u32) -> u32
    requires { (length d.now ≡ dictionary_length) × (IsPdo p × (way ≤ transmit_way)) }
    ensures { result ≡ word_key way p (read d.now (identifier p)) }
{
    let word = records::identifier(d, p as usize);
    let first = way + 0x181;
    let invalid = way + 0x8000_0000;
    if (first <= word) & (word <= way + 0x57F) {
        return word - first;
    }
    if (invalid <= word) & (word <= invalid + 0x7FF) {
        return 0x800 + p;
    }
    ILLEGAL
}

// Whether no two of four keys are alike. The keys are compared one by one, here and below: joined by `&` that takes no branch, where `all` and
// `contains` take one at each key, and this runs at every call.
fn differ(k: Keys) -> bool
    ensures { result ≡ distinct k }
{
    ((k[0] != k[1]) & ((k[0] != k[2]) & (k[0] != k[3])))
        & (((k[1] != k[2]) & (k[1] != k[3])) & (k[2] != k[3]))
}

// Whether a key is none of four.
fn none_is(x: u32, k: Keys) -> bool
    ensures { result ≡ all (is_other x) k }
{
    (x != k[0]) & ((x != k[1]) & ((x != k[2]) & (x != k[3])))
}

// Whether no key of four is one of four others.
fn apart(k: Keys, others: Keys) -> bool
    ensures { result ≡ are_apart k others }
{
    none_is(k[0], others)
        & (none_is(k[1], others) & (none_is(k[2], others) & none_is(k[3], others)))
}

// The keys of the four PDOs of a direction, from its first PDO on; `way` is bit 30 of their words.
fn keys_of(d: &[u8], first: u32, way: u32) -> Keys
    requires { (length d.now ≡ dictionary_length) × ((first ≤ each_way) × (way ≤ transmit_way)) }
    ensures { result ≡ map (λ p. word_key way p (read d.now (identifier p))) (four first (first + 1) (first + 2) (first + 3)) }
{
    [
        key_of(d, first, way),
        key_of(d, first + 1, way),
        key_of(d, first + 2, way),
        key_of(d, first + 3, way),
    ]
}

// Whether no key of eight is an illegal word's: the bits of all together are below it.
fn are_legal(k: Keys, others: Keys) -> bool
    ensures { result ≡ (all is_legal_key k && all is_legal_key others) }
{
    let bits = (k[0] | k[1]) | (k[2] | k[3]);
    (bits | ((others[0] | others[1]) | (others[2] | others[3]))) < ILLEGAL
}

// Whether the PDO identifiers are legal.
pub fn identifiers_legal(d: &[u8]) -> bool
    requires { length d.now ≡ dictionary_length }
    ensures { result ≡ identifiers_legal d.now }
{
    let r = keys_of(d, 0, RECEIVE);
    let t = keys_of(d, EACH_WAY as u32, TRANSMIT);
    are_legal(r, t) & ((differ(r) & differ(t)) & apart(r, t))
}
