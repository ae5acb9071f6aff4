// The moves of a plan, one after another, as their words stand in the state's bytes.
ghost use Rattle.std.specs.Prelude.{◌≡◌, ◌+◌, ◌*◌, ◌^◌, ◌<◌, ◌≤◌, length, map};
ghost use Rattle.std.specs.Iterator.{YieldsFirst, at_most};
ghost use Rattle.form.specs.Form.{plan_in, move_of};
ghost use Rattle.mapping.specs.Slots.{words_from};
ghost use Rattle.mapping.specs.Received.{PlanFits, moves_of};

use crate::kept::{MOVES_OFFSET, STEP};
use crate::received::plan_place;
use dictionary::read4;

// What is left of a plan's moves: where the next one's word stands, and how many there are.
#[derive(Drop)]
pub struct PlanMoves<'a> {
    state: &'a [u8],
    spot: u32,
    left: u32,
}

impl<'a> Iterator for PlanMoves<'a> {
    type Item = u32;

    ghost can_next = { λ s. (s.spot + 4 * s.left ≤ length s.state.now) × (s.spot + 4 * s.left < 2 ^ 16) };

    ghost next_gives = { YieldsFirst (λ s. words_from s.left s.spot s.state.now) };

    ghost remaining = { λ s. at_most s.left };

    fn next(&mut self) -> Option<u32> {
        if self.left == 0 {
            return None;
        }
        let word = read4(self.state, self.spot as usize);
        self.spot += STEP;
        self.left -= 1;
        Some(word)
    }
}

// The moves of the plan of PDO p.
pub fn moves_in<'a>(state: &'a [u8], p: usize) -> PlanMoves<'a>
    requires { PlanFits state.now p }
    ensures in_bounds { (result.spot + 4 * result.left ≤ length result.state.now) × (result.spot + 4 * result.left < 2 ^ 16) }
    ensures moves { map move_of (words_from result.left result.spot result.state.now) ≡ moves_of (plan_in state.now p) }
{
    let plan = plan_place(p);
    PlanMoves {
        state,
        spot: plan + MOVES_OFFSET,
        left: state[plan as usize] as u32,
    }
}
