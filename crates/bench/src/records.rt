// One record: payload length (2), kind (2), little-endian, payload.
ghost use Rattle.std.specs.Prelude.{◌≡◌, ◌≤◌, length, IfOk, IfErr};

use cendurak::{cendurak_event, cendurak_frame, cendurak_power_up};
use dictionary::places::DICTIONARY_LENGTH;
use form::layout::STATE_LENGTH;
use output::OUTPUT_LENGTH;

// The bytes before a payload.
const HEAD: usize = 4;

// The refusal of a bad record.
pub const BAD: u32 = 8;

// Why no record is served: the input ends before it does, or no record starts so.
#[derive(Clone, Copy)]
pub enum Unserved {
    Cut,
    Bad,
}

// The kinds of records.
#[derive(Clone, Copy)]
enum Kind {
    Frame,
    Event,
    PowerUp,
}

impl TryFrom<u16> for Kind {
    type Error = Unserved;

    fn try_from(number: u16) -> Result<Kind, Unserved> {
        match number {
            1 => Ok(Kind::Frame),
            2 => Ok(Kind::Event),
            3 => Ok(Kind::PowerUp),
            _ => Err(Unserved::Bad),
        }
    }
}

impl Kind {
    // The bytes that a payload has at least: the identifier, the event's number, N.
    fn least(self) -> usize
        ensures { (1 ≤ result) × (result ≤ 2) }
    {
        match self {
            Kind::Frame => 2,
            Kind::Event | Kind::PowerUp => 1,
        }
    }

    // The bytes that a payload has at most.
    fn most(self) -> usize
        ensures { result ≤ 16 }
    {
        match self {
            Kind::Frame | Kind::Event => 16,
            Kind::PowerUp => 1,
        }
    }
}

// How many bytes of the input a record took, and the answer: the refusal times 256 plus the number of frames.
#[derive(Clone, Copy)]
pub struct Served {
    pub taken: usize,
    pub status: u32,
}

// The number that a payload starts with, of one byte or two: the identifier, the event's number, N.
fn leading(bytes: &[u8]) -> u32
    requires { 1 ≤ length bytes.now }
{
    if bytes.len() == 1 {
        return u32::from(bytes[0]);
    }
    u32::from(u16::from_le_bytes([bytes[0], bytes[1]]))
}

// The call that a record of that kind asks for.
fn call(
    kind: Kind,
    number: u32,
    data: &[u8],
    state: &mut [u8; STATE_LENGTH],
    dictionary: &mut [u8; DICTIONARY_LENGTH],
    output: &mut [u8; OUTPUT_LENGTH],
) -> u32 {
    match kind {
        Kind::Frame => cendurak_frame(state, dictionary, output, number, data),
        Kind::Event => cendurak_event(state, dictionary, output, number, data),
        Kind::PowerUp => cendurak_power_up(state, dictionary, output, number),
    }
}

// The record that the input starts with: where it is whole, the call is made.
pub fn serve(
    input: &[u8],
    state: &mut [u8; STATE_LENGTH],
    dictionary: &mut [u8; DICTIONARY_LENGTH],
    output: &mut [u8; OUTPUT_LENGTH],
) -> Result<Served, Unserved>
    ensures served { IfOk result (λ served. (4 ≤ served.taken) × (served.taken ≤ length input.now)) }
    ensures bad { IfErr result (λ why. why ≡ Unserved.Bad → 4 ≤ length input.now) }
{
    if input.len() < HEAD {
        return Err(Unserved::Cut);
    }
    let length = usize::from(u16::from_le_bytes([input[0], input[1]]));
    let kind = Kind::try_from(u16::from_le_bytes([input[2], input[3]]))?;
    let start = kind.least();
    if length < start || kind.most() < length {
        return Err(Unserved::Bad);
    }
    if input.len() - HEAD < length {
        return Err(Unserved::Cut);
    }
    let from = HEAD + start;
    let end = HEAD + length;
    let number = leading(&input[HEAD..from]);
    let status = call(kind, number, &input[from..end], state, dictionary, output);
    Ok(Served { taken: end, status })
}
