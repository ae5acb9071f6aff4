// The lines of an answer, laid into a text. Per record: its number, the refusal, 6041h as stored; per frame: its identifier and its data.
// That there is room is proved, by specs/Text.antt.
ghost use Rattle.std.specs.Prelude.{◌≡◌, ◌+◌, ◌*◌, ◌≤◌, length};
ghost use Rattle.rules.specs.Outcome.{frame_size, most_frames};
ghost use Rattle.bench.specs.Text.{most_digits, longest_record, longest_frame, longest_answer, text_length};

use dictionary::places::{DICTIONARY_LENGTH, STATUS_WORD};
use itoa::Buffer;
use output::{DATA, FRAME_LENGTH, LENGTH, MOST_FRAMES, OUTPUT_LENGTH};

// What the input holds at most between two reads.
pub const INPUT_LENGTH: usize = 4096;

// The characters of an answer, at most, for each byte of its record.
const TEXT_PER_BYTE: usize = 54;

// Room for the lines of all records of an input.
const TEXT_LENGTH: usize = TEXT_PER_BYTE * INPUT_LENGTH;

// An output that cannot be: not all of it is laid.
#[derive(Clone, Copy)]
pub struct NotWhole;

// Lines, one behind the other, up to where they end. An array and its end, and no String: there is no heap. Each `put` asks for its own
// room, so that no invariant holds it.
#[derive(Drop)]
pub struct Text {
    bytes: [u8; TEXT_LENGTH],
    pub end: usize,
}

// The bytes of 6041h, the high one first.
fn status_word(dictionary: &[u8; DICTIONARY_LENGTH]) -> [u8; 2] {
    [dictionary[STATUS_WORD + 1], dictionary[STATUS_WORD]]
}

// An upper-case hexadecimal digit. By hand: `write!` into the text answers a `Result`, and no clause says that it is never an `Err`.
fn digit(n: u8) -> u8 {
    let d = n % 16;
    if d < 10 { b'0' + d } else { b'A' + (d - 10) }
}

impl Text {
    // No line yet.
    pub fn new() -> Text {
        Text {
            bytes: [0; TEXT_LENGTH],
            end: 0,
        }
    }

    // What stands in it.
    pub fn content(&self) -> &[u8]
        requires { self.now.end ≤ text_length }
    {
        &self.bytes[..self.end]
    }

    // One character.
    fn put(&mut self, character: u8)
        requires { self.old.end + 1 ≤ text_length }
        ensures { self.new.end ≡ self.old.end + 1 }
    {
        self.bytes[self.end] = character;
        self.end += 1;
    }

    // The two digits of a byte.
    fn put_byte(&mut self, byte: u8)
        requires { self.old.end + 2 ≤ text_length }
        ensures { self.new.end ≡ self.old.end + 2 }
    {
        self.put(digit(byte / 16));
        self.put(digit(byte));
    }

    // Characters as they are.
    fn put_all(&mut self, characters: &[u8])
        requires { self.old.end + length characters.now ≤ text_length }
        ensures { self.new.end ≡ self.old.end + length characters.now }
    {
        let end = self.end + characters.len();
        self.bytes[self.end..end].copy_from_slice(characters);
        self.end = end;
    }

    // A decimal number.
    fn put_decimal(&mut self, number: u64)
        requires { self.old.end + most_digits ≤ text_length }
        ensures { (self.old.end ≤ self.new.end) × (self.new.end ≤ self.old.end + most_digits) }
    {
        let mut digits = Buffer::new();
        self.put_all(digits.format(number).as_bytes());
    }

    // The record's line.
    pub fn put_record(&mut self, number: u64, refusal: u32, dictionary: &[u8; DICTIONARY_LENGTH])
        requires { self.old.end + longest_record ≤ text_length }
        ensures { self.new.end ≤ self.old.end + longest_record }
    {
        self.put_decimal(number);
        self.put(b' ');
        self.put_decimal(u64::from(refusal));
        self.put(b' ');
        let [high, low] = status_word(dictionary);
        self.put_byte(high);
        self.put_byte(low);
        self.put(b'\n');
    }

    // Data bytes, a space before each.
    fn put_data(&mut self, bytes: &[u8])
        requires { self.old.end + 3 * length bytes.now ≤ text_length }
        ensures { self.new.end ≡ self.old.end + 3 * length bytes.now }
    {
        for byte in bytes {
            self.put(b' ');
            self.put_byte(*byte);
        }
    }

    // A frame's line. Nothing is laid where the frame's length is none that a frame can have.
    fn put_frame(&mut self, frame: &[u8]) -> Result<(), NotWhole>
        requires longest_frame_bound { self.old.end + longest_frame ≤ text_length }
        requires frame_len { length frame.now ≡ frame_size }
        ensures { self.new.end ≤ self.old.end + longest_frame }
    {
        let to = DATA + usize::from(frame[LENGTH]);
        if FRAME_LENGTH < to {
            return Err(NotWhole);
        }
        self.put(digit(frame[1]));
        self.put_byte(frame[0]);
        self.put_data(&frame[DATA..to]);
        self.put(b'\n');
        Ok(())
    }

    // The lines of so many frames, up to one that cannot be laid.
    fn put_frames(&mut self, output: &[u8; OUTPUT_LENGTH], frames: usize) -> Result<(), NotWhole>
        requires longest_frame_bound { self.old.end + most_frames * longest_frame ≤ text_length }
        requires frames_le_most_frames { frames ≤ most_frames }
        ensures { self.new.end ≤ self.old.end + most_frames * longest_frame }
    {
        for n in 0..frames {
            let start = FRAME_LENGTH * n;
            self.put_frame(&output[start..start + FRAME_LENGTH])?;
        }
        Ok(())
    }

    // The lines of an answer: the refusal times 256 plus the number of frames. Not whole where an output cannot hold so many.
    pub fn put_answer(
        &mut self,
        number: u64,
        status: u32,
        dictionary: &[u8; DICTIONARY_LENGTH],
        output: &[u8; OUTPUT_LENGTH],
    ) -> Result<(), NotWhole>
        requires { self.old.end + longest_answer ≤ text_length }
        ensures { self.new.end ≤ self.old.end + longest_answer }
    {
        self.put_record(number, status / 256, dictionary);
        let frames = (status % 256) as usize;
        if MOST_FRAMES < frames {
            return Err(NotWhole);
        }
        self.put_frames(output, frames)
    }
}
