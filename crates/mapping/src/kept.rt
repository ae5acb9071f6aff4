// What a state's bytes keep of the PDOs' mappings, tested where it stands: the plan, and of a transmit PDO the ready frame.
ghost use Rattle.std.specs.Prelude.{◌≡◌, ◌&&◌, ◌+◌, ◌*◌, ◌^◌, ◌<◌, ◌≤◌, eqb, length};
ghost use Rattle.rules_dictionary.specs.Numbers.{value, part};
ghost use Rattle.rules_dictionary.specs.Table.{dictionary_length};
ghost use Rattle.rules.specs.Outcome.{most_data};
ghost use Rattle.dictionary.specs.Sizes.{IsSize};
ghost use Rattle.form.specs.Form.{data_length, plan_length, plan_at};
ghost use Rattle.mapping.specs.Words.{way_of, named_for};
ghost use Rattle.mapping.specs.Slots.{words_from};
ghost use Rattle.mapping.specs.Moves.{MovesFit};
ghost use Rattle.mapping.specs.Kept.{maps_kept, spares_kept, mapped_kept, spare_kept, ends_empty, record_length, plan_kept_at, frame_kept_at};

use crate::words::{SLOT_LENGTH, kept_word, place_of, size_of, slot_of};
use dictionary::places::{MOST_WORDS, WORD_LENGTH};
use dictionary::{places, read1, read2, read4};
use form::{bits_of_words, layout};

// Places and counts are words of the controller in this crate's loops. The bytes of a mapping word, and of half of one.
pub const STEP: u32 = WORD_LENGTH as u32;

const HALF_STEP: u32 = STEP / 2;

// The most bytes that a PDO maps.
const MOST_DATA: u32 = layout::MOST_DATA as u32;

// The most words that a PDO maps, and half of them.
const MOST_MOVES: u32 = MOST_WORDS as u32;

const HALF: u32 = MOST_MOVES / 2;

// How far a plan's moves stand behind its count, a mapping record's words behind its count, and a frame's bytes behind its length.
pub const MOVES_OFFSET: u32 = layout::MOVES_OFFSET as u32;

const WORDS: u32 = places::WORDS as u32;

pub const DATA_OFFSET: u32 = layout::DATA_OFFSET as u32;

// Whether a mapping word within the count names an object, and the word of its move is kept. The objects of the direction are lent; which
// direction it is matters to the contract alone.
fn is_mapped(named: &[u32], word: u32, kept: u32, transmit: bool) -> bool
    requires { named.now ≡ named_for (way_of transmit) }
    ensures { result ≡ maps_kept (way_of transmit) word kept }
{
    let at = SLOT_LENGTH * slot_of(word);
    (named[at as usize] == word) & (named[(at + 1) as usize] == kept)
}

// Whether a mapping word past the count is legal, and nothing is kept for it.
fn is_spare(word: u32, kept: u32, transmit: bool) -> bool
    ensures { result ≡ spares_kept (way_of transmit) word kept }
{
    if (word | kept) == 0 {
        return true;
    }
    if kept != 0 {
        return false;
    }
    kept_word(word, transmit) != 0
}

// Whether so many mapping words name objects, of eight bytes at the most, and the words of their moves are kept. Both places advance by hand,
// here and in `is_each_spare`: chunks of two slices would give slices of four bytes, to be made words again, and need the slices cut first.
fn are_mapped(
    named: &[u32],
    state: &[u8],
    d: &[u8],
    moves: u32,
    words: u32,
    count: u32,
    transmit: bool,
) -> bool
    requires slots { named.now ≡ named_for (way_of transmit) }
    requires moves_in_bounds { (moves + 4 * count ≤ length state.now) × (moves < 2 ^ 16) }
    requires words_in_bounds { (words + 4 * count ≤ length d.now) × ((words < 2 ^ 16) × (count ≤ 8)) }
    ensures { result ≡
        mapped_kept (way_of transmit) 0 (words_from count words d.now) (words_from count moves state.now) }
{
    let mut at = moves;
    let mut place = words;
    let mut used: u32 = 0;
    for _ in 0..count {
        let kept = read4(state, at as usize);
        if !is_mapped(named, read4(d, place as usize), kept, transmit) {
            return false;
        }
        used += size_of(kept) as u32;
        at += STEP;
        place += STEP;
    }
    used <= MOST_DATA
}

// Whether so many mapping words are legal, and nothing is kept for them: one after another.
fn is_each_spare(state: &[u8], d: &[u8], moves: u32, words: u32, count: u32, transmit: bool) -> bool
    requires moves_in_bounds { (moves + 4 * count ≤ length state.now) × (moves < 2 ^ 17) }
    requires words_in_bounds { (words + 4 * count ≤ length d.now) × ((words < 2 ^ 17) × (count ≤ 8)) }
    ensures { result ≡
        spare_kept (way_of transmit) (words_from count words d.now) (words_from count moves state.now) }
{
    let mut at = moves;
    let mut place = words;
    for _ in 0..count {
        if !is_spare(
            read4(d, place as usize),
            read4(state, at as usize),
            transmit,
        ) {
            return false;
        }
        at += STEP;
        place += STEP;
    }
    true
}

// Whether four to eight mapping words are zero and nothing is kept for them: read from both ends, where the reads may share words.
fn are_empty(state: &[u8], d: &[u8], moves: u32, words: u32, count: u32) -> bool
    requires moves_in_bounds { (moves + 4 * count ≤ length state.now) × (moves < 2 ^ 17) }
    requires words_in_bounds { (words + 4 * count ≤ length d.now) × ((words < 2 ^ 17) × ((4 ≤ count) × (count ≤ 8))) }
    ensures { result ≡ (ends_empty count moves state.now && ends_empty count words d.now) }
{
    let behind = STEP * (count - HALF);
    let kept = bits_of_words(state, moves as usize, HALF as usize)
        | bits_of_words(state, (moves + behind) as usize, HALF as usize);
    let named = bits_of_words(d, words as usize, HALF as usize)
        | bits_of_words(d, (words + behind) as usize, HALF as usize);
    (kept | named) == 0
}

// Whether so many mapping words are legal, and nothing is kept for them. Mostly there is nothing at all, which needs no loop.
fn are_spare(state: &[u8], d: &[u8], moves: u32, words: u32, count: u32, transmit: bool) -> bool
    requires moves_in_bounds { (moves + 4 * count ≤ length state.now) × (moves < 2 ^ 17) }
    requires words_in_bounds { (words + 4 * count ≤ length d.now) × ((words < 2 ^ 17) × (count ≤ 8)) }
    ensures { result ≡
        spare_kept (way_of transmit) (words_from count words d.now) (words_from count moves state.now) }
{
    if HALF <= count {
        if are_empty(state, d, moves, words, count) {
            return true;
        }
    }
    is_each_spare(state, d, moves, words, count, transmit)
}

// Whether the mapping record at a place is legal, its count at most eight, and the plan at a place is the one that it gives.
pub fn is_plan_kept(
    named: &[u32],
    state: &[u8],
    d: &[u8],
    plan: u32,
    map: u32,
    transmit: bool,
) -> bool
    requires slots { named.now ≡ named_for (way_of transmit) }
    requires plan_in_bounds { (plan + plan_length ≤ length state.now) × (plan < 2 ^ 15) }
    requires record_in_bounds { (map + record_length ≤ length d.now) × (map < 2 ^ 15) }
    ensures { result ≡ plan_kept_at (way_of transmit) plan map state.now d.now }
{
    let mapped = d[map as usize];
    let count = mapped as u32;
    if MOST_MOVES < count {
        return false;
    }
    if state[plan as usize] != mapped {
        return false;
    }
    let moves = plan + MOVES_OFFSET;
    let words = map + WORDS;
    if !are_mapped(named, state, d, moves, words, count, transmit) {
        return false;
    }
    let behind = STEP * count;
    are_spare(
        state,
        d,
        moves + behind,
        words + behind,
        MOST_MOVES - count,
        transmit,
    )
}

// Whether the bytes at a place of the state are the value at a place of the dictionary. By size, one comparison of words each, where slices
// would be compared byte by byte. The size is a number, as in `Move`, which the rules' `plans_of` is about.
fn is_value(state: &[u8], d: &[u8], at: usize, place: usize, size: u8) -> bool
    requires { (at + size ≤ length state.now) × ((place + size ≤ length d.now) × IsSize size) }
    ensures { result ≡ eqb (value (part at size state.now)) (value (part place size d.now)) }
{
    if size == 1 {
        return read1(state, at) == read1(d, place);
    }
    if size == 2 {
        return read2(state, at) == read2(d, place);
    }
    read4(state, at) == read4(d, place)
}

// Whether so many bytes from a place on, eight at the most, are zero: read from both ends, where the reads may share bytes.
fn are_zero(bytes: &[u8], place: u32, count: u32) -> bool
    requires { (place + count ≤ length bytes.now) × ((count ≤ most_data) × (place < 2 ^ 17)) }
    ensures { result ≡ eqb (value (part place count bytes.now)) 0 }
{
    if STEP <= count {
        return (read4(bytes, place as usize) | read4(bytes, (place + (count - STEP)) as usize))
            == 0;
    }
    if HALF_STEP <= count {
        return (read2(bytes, place as usize) | read2(bytes, (place + (count - HALF_STEP)) as usize))
            == 0;
    }
    if 0 < count {
        return read1(bytes, place as usize) == 0;
    }
    true
}

// Whether the frame at a place is the one that the plan at a place gives: the bytes that it maps, one value behind another, then zeros. Not over
// `moves_in`: that finds a plan by its PDO's number, and this by its place.
pub fn is_frame_kept(state: &[u8], d: &[u8], frame: u32, plan: u32) -> bool
    requires in_bounds { (frame + data_length ≤ length state.now) × (plan + plan_length ≤ length state.now) }
    requires small_places { (frame < 2 ^ 16) × (plan < 2 ^ 16) }
    requires moves_fit { (length d.now ≡ dictionary_length) × MovesFit (plan_at plan state.now).moves (plan_at plan state.now).count }
    ensures { result ≡ frame_kept_at frame plan state.now d.now }
{
    let count = state[plan as usize] as u32;
    let first = frame + DATA_OFFSET;
    let mut moves = plan + MOVES_OFFSET;
    let mut at = first;
    for _ in 0..count {
        let word = read4(state, moves as usize);
        let size = size_of(word);
        if !is_value(state, d, at as usize, place_of(word) as usize, size) {
            return false;
        }
        at += size as u32;
        moves += STEP;
    }
    let mapped = at - first;
    if state[frame as usize] as u32 != mapped {
        return false;
    }
    are_zero(state, at, MOST_DATA - mapped)
}
