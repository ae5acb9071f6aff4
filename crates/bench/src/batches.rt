// A batch: what one read brings. Its whole records are served one behind the other, and their lines written at once, before the next read: so
// an answer waits for no record behind its own. All lines of a batch fit the text, which is proved (`gather`).
ghost use Rattle.std.specs.Prelude.{◌≡◌, ◌≤◌, length, None, IfSome};
ghost use Rattle.bench.specs.Text.{input_length, text_length};

use crate::lines::{INPUT_LENGTH, Text};
use crate::records::{BAD, Unserved, serve};
use dictionary::places::DICTIONARY_LENGTH;
use form::layout::STATE_LENGTH;
use output::OUTPUT_LENGTH;
use std::io::{Read, Write};

// Between two batches: how many bytes of a record that is not whole yet stand at the input's start, and the next record's number.
#[derive(Clone, Copy)]
pub struct Place {
    pub kept: usize,
    pub number: u64,
}

// The whole records of an input: the bytes that they took, and the next record's number, or none where no record follows.
#[derive(Clone, Copy)]
struct Gathered {
    taken: usize,
    next: Option<u64>,
}

// Serves the whole records of an input, and lays their lines into a text: up to a bad one, or one whose lines are not all there.
fn gather(
    input: &[u8],
    text: &mut Text,
    state: &mut [u8; STATE_LENGTH],
    dictionary: &mut [u8; DICTIONARY_LENGTH],
    output: &mut [u8; OUTPUT_LENGTH],
    number: u64,
) -> Gathered
    requires { (length input.now ≤ input_length) × (text.old.end ≡ 0) }
    ensures { (result.taken ≤ length input.now) × (text.new.end ≤ text_length) }
{
    let mut taken: usize = 0;
    let mut next = number;
    for number in number..u64::MAX {
        let served = match serve(&input[taken..], state, dictionary, output) {
            Ok(served) => served,
            Err(Unserved::Cut) => break,
            Err(Unserved::Bad) => {
                text.put_record(number, BAD, dictionary);
                return Gathered { taken, next: None };
            }
        };
        taken += served.taken;
        if text
            .put_answer(number, served.status, dictionary, output)
            .is_err()
        {
            return Gathered { taken, next: None };
        }
        next = number + 1;
    }
    Gathered {
        taken,
        next: Some(next),
    }
}

// One read, behind the bytes that are kept: how many there are then. Array and count, as in `keep`: what is behind them is room, which this fills.
// No more where the input ends or cannot be read.
fn read_more(reader: &mut impl Read, input: &mut [u8], kept: usize) -> usize
    requires { kept ≤ length input.old }
    ensures { (kept ≤ result) × (result ≤ length input.old) }
{
    let room = &mut input[kept..];
    match reader.read(room) {
        Ok(count) => kept + count,
        Err(_) => kept,
    }
}

// Brings the bytes from one place to another to the input's start: how many they are.
fn keep(input: &mut [u8; INPUT_LENGTH], from: usize, to: usize) -> usize
    requires { (from ≤ to) × (to ≤ input_length) }
    ensures { result ≤ input_length }
{
    input.copy_within(from..to, 0);
    to - from
}

// Writes a text. False where it cannot be written.
fn write_text(writer: &mut impl Write, text: &Text) -> bool
    requires { text.now.end ≤ text_length }
{
    writer.write_all(text.content()).is_ok()
}

// The input's end: a record that it cuts is a bad one.
fn finish(
    writer: &mut impl Write,
    text: &mut Text,
    dictionary: &[u8; DICTIONARY_LENGTH],
    place: Place,
)
    requires { text.old.end ≡ 0 }
{
    if place.kept != 0 {
        text.put_record(place.number, BAD, dictionary);
        write_text(writer, text);
    }
}

// One batch, from its read to the lines of its records. There is no next where the input ends, a record is bad or lines cannot be written.
pub fn batch(
    reader: &mut impl Read,
    writer: &mut impl Write,
    input: &mut [u8; INPUT_LENGTH],
    text: &mut Text,
    state: &mut [u8; STATE_LENGTH],
    dictionary: &mut [u8; DICTIONARY_LENGTH],
    output: &mut [u8; OUTPUT_LENGTH],
    place: Place,
) -> Option<Place>
    requires { place.kept ≤ input_length }
    ensures { IfSome result (λ next. next.kept ≤ input_length) }
{
    text.end = 0;
    let filled = read_more(reader, input, place.kept);
    if filled == place.kept {
        finish(writer, text, dictionary, place);
        return None;
    }
    let gathered = gather(
        &input[..filled],
        text,
        state,
        dictionary,
        output,
        place.number,
    );
    if !write_text(writer, text) {
        return None;
    }
    let number = gathered.next?;
    let kept = keep(input, gathered.taken, filled);
    Some(Place { kept, number })
}
