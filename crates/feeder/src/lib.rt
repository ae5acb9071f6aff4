// The label feeder: a list of lengths, each fed once, as relative set-points, up to two ahead. At each step it is told the status word and gives the
// next control word and target. The list is lent at each call; what is kept is one position in it, by value. No call asks anything of its caller.

#![tactic(auto)]

pub mod for_c; // the calls for C, which include/feeder.h declares and the crate feeder_c exports

ghost use Rattle.std.specs.Prelude.{◌≡◌, ◌<◌};
ghost use Rattle.rules_dictionary.specs.Numbers.{bit};
ghost use Rattle.drive.specs.StatusWord.{ack_shown};
ghost use Rattle.feeder.specs.Feeder.{most_lengths, wait_word, feed_word, moved, started, step, refused};

// Why a list or a step is refused, by the numbers of the C interface; 0 is none. It stays beside the answer, in no `Result`: the theorems on
// `started` and `step` (specs/Feeder.antt) and include/feeder.h speak of it so.
#[derive(Clone, Copy)]
pub enum Refusal {
    Accepted = 0,
    ListTooLong = 1,
    PastTheList = 2,
}

// How many lengths of the list were taken or are on their way.
#[derive(Clone, Copy)]
pub struct Feeder {
    pub position: u32,
}

// What a step answers: the feeder for the next step, the control word and the target to be written, target first. A refused one is zero but for its
// refusal.
#[derive(Clone, Copy)]
pub struct Answer {
    pub refusal: Refusal,
    pub feeder: Feeder,
    pub word: u16,
    pub target: i32,
}

// The longest list that is fed.
pub const MOST_LENGTHS: usize = 1024;

// The control words: Enable alone; and with bit 4, a new set-point, and bit 6, a relative one.
const WAIT_WORD: u16 = 0x000F;

const FEED_WORD: u16 = 0x005F;

// The weight of bit 12 of the status word, the acknowledge of a set-point.
const ACKNOWLEDGE: u32 = 0x1000;

// Whether the list is one to be fed, before the first step.
pub fn start(lengths: &[i32]) -> Refusal
    ensures { result ≡ started lengths.now }
{
    if lengths.len() > MOST_LENGTHS {
        return Refusal::ListTooLong;
    }
    Refusal::Accepted
}

// Whether the status word shows the acknowledge. Stays beside the drive's `has`, of a word of 16 bits: one function for both needs a trait of the
// arithmetic, and is longer than this line.
fn is_acknowledged(status: u32) -> bool
    ensures { result ≡ bit ack_shown status }
{
    status / ACKNOWLEDGE % 2 == 1
}

// The answer of a refused step.
fn refused(why: Refusal) -> Answer
    ensures { result ≡ refused why }
{
    Answer {
        refusal: why,
        feeder: Feeder { position: 0 },
        word: 0,
        target: 0,
    }
}

impl Feeder {
    // A step that waits with that target.
    fn waiting(self, target: i32) -> Answer
        ensures { result ≡ record { refusal = Refusal.Accepted; feeder = self; word = wait_word; target = target } }
    {
        Answer {
            refusal: Refusal::Accepted,
            feeder: self,
            word: WAIT_WORD,
            target,
        }
    }

    // A step that feeds that target.
    fn feeding(self, target: i32) -> Answer
        requires { self.position < most_lengths }
        ensures { result ≡ record { refusal = Refusal.Accepted; feeder = moved self; word = feed_word; target = target } }
    {
        Answer {
            refusal: Refusal::Accepted,
            feeder: Feeder {
                position: self.position + 1,
            },
            word: FEED_WORD,
            target,
        }
    }

    // One step, told the status word.
    pub fn step(self, lengths: &[i32], status: u32) -> Answer
        ensures { result ≡ step lengths.now self status }
    {
        if lengths.len() > MOST_LENGTHS {
            return refused(Refusal::ListTooLong);
        }
        let at = self.position as usize;
        if at > lengths.len() {
            return refused(Refusal::PastTheList);
        }
        if at == lengths.len() {
            return self.waiting(0);
        }
        let next = lengths[at];
        if is_acknowledged(status) {
            return self.waiting(next);
        }
        self.feeding(next)
    }
}
