// Words of 32 bits as the integers that they stand for.

ghost use Rattle.std.specs.Prelude.{◌≡◌, nat_abs, ◌+ℤ◌, ◌-ℤ◌};
ghost use Rattle.std.specs.Int.Signed.{le_z};
ghost use Rattle.rules_dictionary.specs.Numbers.{integer};
ghost use Rattle.drive.specs.Window.{within};
ghost use Rattle.drive.specs.Words.{aimed};

// Is the integer of one word at most that of another.
pub fn is_at_most(a: u32, b: u32) -> bool
    ensures { result ≡ le_z (integer a) (integer b) }
{
    a.cast_signed() <= b.cast_signed()
}

// The sum of two integers, where it lies within the limits: all are words.
#[tactic(auto, unfolding(crate::specs::Words::aimed))]
pub fn aim(base: u32, step: u32, low: u32, high: u32) -> Option<u32>
    ensures { result ≡ aimed (integer base +ℤ integer step) (integer low) (integer high) }
{
    let sum = base.cast_signed().checked_add(step.cast_signed())?;
    if low.cast_signed() <= sum && sum <= high.cast_signed() {
        Some(sum.cast_unsigned())
    } else {
        None
    }
}

// How far the integers of two words lie apart: a word too.
fn distance(a: u32, b: u32) -> u32
    ensures { result ≡ nat_abs (integer a -ℤ integer b) }
{
    a.cast_signed().abs_diff(b.cast_signed())
}

// Do the integers of two words lie at most the window apart: the ends count.
pub fn is_within(window: u32, a: u32, b: u32) -> bool
    ensures { result ≡ within window (integer a) (integer b) }
{
    distance(a, b) <= window
}
