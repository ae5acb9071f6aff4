// What a service leaves: the frames that it lays into the output, and what is left to do at the call's end. The state it leaves in its bytes.
// Proved against specs/Laying.antt and specs/Leaves.antt; proofs/Frames.antt ties the first to the output of document 01.

#![tactic(auto)]

ghost use Rattle.std.specs.Prelude.{◌≡◌, [], ◌∷◌, ◌≤◌, length};
ghost use Rattle.rules.specs.Outcome.{frame_size, sent_into};
ghost use Rattle.output.specs.Laying.{IsData, frame_of};
ghost use Rattle.output.specs.Leaves.{nothing_done};

use rules_dictionary::PdoData;
use state::Occasion;

// A frame: the identifier, behind it the length, then the data.
pub const LENGTH: usize = 2;

pub const DATA: usize = LENGTH + 1;

pub const MOST_DATA: usize = 8;

pub const FRAME_LENGTH: usize = DATA + MOST_DATA;

// The most frames of a call, and the fewest bytes of an output.
pub const MOST_FRAMES: usize = 6;

pub const OUTPUT_LENGTH: usize = MOST_FRAMES * FRAME_LENGTH;

// What a service leaves beside the lent bytes: how many frames it laid, whether an object that may be mapped to transmit was written, whether a
// PDO's mapping was, what the call is to its own end, and whether nothing is left to do there.
// A number of frames beside the lent output, not a writer over it: `Leaves` tells what an output holds by that number.
#[derive(Clone, Copy)]
pub struct Done {
    pub frames: usize,
    pub touched: bool,
    pub remapped: bool,
    pub occasion: Occasion,
    pub quiet: bool,
}

// Nothing written and nothing sent; quiet where what the call's end looks at is as it was.
pub fn nothing_done(quiet: bool) -> Done
    ensures { result ≡ nothing_done quiet }
{
    Done {
        frames: 0,
        touched: false,
        remapped: false,
        occasion: Occasion::Plain,
        quiet,
    }
}

// A frame at the start of the bytes, which are the output from that frame on; those behind it stay.
pub fn send(output: &mut [u8], identifier: u16, content: PdoData)
    requires { (frame_size ≤ length output.old) × IsData content }
    ensures { output.new ≡ sent_into output.old (frame_of identifier content ∷ []) }
{
    output[..LENGTH].copy_from_slice(&identifier.to_le_bytes());
    output[LENGTH] = content.length;
    output[DATA..FRAME_LENGTH].copy_from_slice(&content.bytes);
}
