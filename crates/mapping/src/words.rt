// Mapping words: index, subindex and bit length of a mapped object, and the word of its move.
ghost use Rattle.std.specs.Prelude.{◌≡◌};
ghost use Rattle.rules_dictionary.specs.Table.{receive, transmit};
ghost use Rattle.form.specs.Form.{move_of};
ghost use Rattle.mapping.specs.Words.{word_move, kept_word, slot_of, named_for, way_of};

use dictionary::places;
use rules_dictionary::Move;

// A move's word: its place in the low half, above it its size.
const HALF: u32 = 0x1_0000;

const ONE_BYTE: u32 = HALF;

const TWO_BYTES: u32 = 2 * HALF;

const FOUR_BYTES: u32 = 4 * HALF;

// The slot of a mapping word is worked out of its index, so that one look tells what the word names: the thirteen objects that may be mapped
// fall into different slots of their direction. One more may need another multiplier; a computed test over them refuses one that does not fit.
const MULTIPLIER: u32 = 655;

const DIVISOR: u32 = 0x100;

const SLOTS: u32 = 8;

// A slot holds a mapping word, then the word of the move that it names.
pub const SLOT_LENGTH: u32 = 2;

const NAMED_LENGTH: usize = (SLOTS * SLOT_LENGTH) as usize;

// The objects that may be received, each at the slot of its mapping word. A free slot holds zeros; zero is a word of slot 0, which is not free.
// Words in turn, not pairs: `named_for` in specs/Words is this list of numbers.
const RECEIVED: [u32; NAMED_LENGTH] = [
    0x607A_00_20,
    FOUR_BYTES + places::TARGET_POSITION as u32,
    0x6084_00_20,
    FOUR_BYTES + places::PROFILE_DECELERATION as u32,
    0x6081_00_20,
    FOUR_BYTES + places::PROFILE_VELOCITY as u32,
    0x6040_00_10,
    TWO_BYTES + places::CONTROL_WORD as u32,
    0x60FF_00_20,
    FOUR_BYTES + places::TARGET_VELOCITY as u32,
    0x6060_00_08,
    ONE_BYTE + places::MODE as u32,
    0,
    0,
    0x6083_00_20,
    FOUR_BYTES + places::PROFILE_ACCELERATION as u32,
];

// The objects that may be transmitted, likewise.
const TRANSMITTED: [u32; NAMED_LENGTH] = [
    0x6061_00_08,
    ONE_BYTE + places::MODE_DISPLAY as u32,
    0x603F_00_10,
    TWO_BYTES + places::ERROR_CODE as u32,
    0x1001_00_08,
    ONE_BYTE + places::ERROR_REGISTER as u32,
    0,
    0,
    0x606C_00_20,
    FOUR_BYTES + places::VELOCITY as u32,
    0,
    0,
    0x6041_00_10,
    TWO_BYTES + places::STATUS_WORD as u32,
    0x6064_00_20,
    FOUR_BYTES + places::POSITION as u32,
];

// The slots of each direction. Whoever looks at many words has them made once, and lends them on.
// Two functions, and a flag for the direction: the definition `named_for` has a table for each, and `way_of` names the flag in the contracts.
pub fn receive_slots() -> [u32; NAMED_LENGTH]
    ensures { result ≡ named_for receive }
{
    RECEIVED
}

pub fn transmit_slots() -> [u32; NAMED_LENGTH]
    ensures { result ≡ named_for transmit }
{
    TRANSMITTED
}

// The slot of a mapping word among those of its PDO's direction.
pub fn slot_of(word: u32) -> u32
    ensures { result ≡ slot_of word }
{
    word / HALF * MULTIPLIER / DIVISOR % SLOTS
}

// The word of the move of the object that a mapping word of a receive PDO names; 0 where it names none. Not an Option: 0 is what the form keeps
// for a spare slot (`spares_kept`, and `word_move` for `move_of`). One list for each direction: the two share no arm.
fn receive_word(word: u32) -> u32
    ensures { result ≡ kept_word receive word }
{
    match word {
        0x6040_00_10 => TWO_BYTES + places::CONTROL_WORD as u32,
        0x6060_00_08 => ONE_BYTE + places::MODE as u32,
        0x607A_00_20 => FOUR_BYTES + places::TARGET_POSITION as u32,
        0x6081_00_20 => FOUR_BYTES + places::PROFILE_VELOCITY as u32,
        0x6083_00_20 => FOUR_BYTES + places::PROFILE_ACCELERATION as u32,
        0x6084_00_20 => FOUR_BYTES + places::PROFILE_DECELERATION as u32,
        0x60FF_00_20 => FOUR_BYTES + places::TARGET_VELOCITY as u32,
        _ => 0,
    }
}

// The word of the move of the object that a mapping word of a transmit PDO names; 0 where it names none.
fn transmit_word(word: u32) -> u32
    ensures { result ≡ kept_word transmit word }
{
    match word {
        0x1001_00_08 => ONE_BYTE + places::ERROR_REGISTER as u32,
        0x603F_00_10 => TWO_BYTES + places::ERROR_CODE as u32,
        0x6041_00_10 => TWO_BYTES + places::STATUS_WORD as u32,
        0x6061_00_08 => ONE_BYTE + places::MODE_DISPLAY as u32,
        0x6064_00_20 => FOUR_BYTES + places::POSITION as u32,
        0x606C_00_20 => FOUR_BYTES + places::VELOCITY as u32,
        _ => 0,
    }
}

// The word of the move of the object that a mapping word names in its PDO's direction; 0 where it names none.
pub fn kept_word(word: u32, transmit: bool) -> u32
    ensures { result ≡ kept_word (way_of transmit) word }
{
    if transmit {
        transmit_word(word)
    } else {
        receive_word(word)
    }
}

// The place in a move's word. No `From<u32> for Move`: both types are other crates', and the tests want the place or the size alone.
pub fn place_of(word: u32) -> u16
    ensures { result ≡ (move_of word).place }
{
    (word % HALF) as u16
}

// The size in a move's word.
pub fn size_of(word: u32) -> u8
    ensures { result ≡ (move_of word).size }
{
    (word / HALF % 0x100) as u8
}

// The move of the object that a mapping word names in its PDO's direction; all zero where it names none.
pub fn move_of(word: u32, transmit: bool) -> Move
    ensures { result ≡ word_move (way_of transmit) word }
{
    let named = kept_word(word, transmit);
    Move {
        place: place_of(named),
        size: size_of(named),
    }
}
