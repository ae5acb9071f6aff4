// The feeder for C: a step is told the position as a number, and its answer is one number.
ghost use Rattle.std.specs.Prelude.{◌≡◌, ◌≤◌, ◌<◌, ◌^◌};
ghost use Rattle.std.specs.Int.{w32};
ghost use Rattle.std.proofs.Common.{of_z};
ghost use Rattle.feeder.specs.Feeder.{most_lengths, refusal_number, started, step, told};

use crate::{Answer, Feeder, Refusal};

// Where the parts of the number stand: above the target the control word, above it the position, above it the refusal.
const WORD: u64 = 0x1_0000_0000;

const POSITION: u64 = 0x1_0000_0000_0000;

const REFUSAL: u64 = 0x1000_0000_0000_0000;

// The number of a refusal; 0 is none.
fn refusal_number(why: Refusal) -> u32
    ensures { (result ≡ refusal_number why) × (result ≤ 2) }
{
    why as u32
}

// A target as an unsigned word: one below zero stands that much higher.
fn word_of(target: i32) -> u64
    ensures { (result ≡ of_z w32 target) × (result < 2 ^ 32) }
{
    u64::from(target.cast_unsigned())
}

// The number that C gets of a step.
fn told(answer: Answer) -> u64
    requires { answer.feeder.position ≤ most_lengths }
    ensures { result ≡ told answer }
{
    let refusal = u64::from(refusal_number(answer.refusal));
    let position = u64::from(answer.feeder.position);
    let target = word_of(answer.target);
    REFUSAL * refusal + POSITION * position + WORD * u64::from(answer.word) + target
}

// Whether the list can be fed.
pub fn feeder_start(lengths: &[i32]) -> u32
    ensures { result ≡ refusal_number (started lengths.now) }
{
    refusal_number(crate::start(lengths))
}

// A step from that position.
pub fn feeder_step(lengths: &[i32], position: u32, status: u32) -> u64
    ensures { result ≡ told (step lengths.now (record { position = position }) status) }
{
    let feeder = Feeder { position };
    told(feeder.step(lengths, status))
}
