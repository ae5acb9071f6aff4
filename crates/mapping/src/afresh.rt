// The plans of all PDOs, worked afresh.
ghost use Rattle.std.specs.Prelude.{◌≡◌};
ghost use Rattle.rules_dictionary.specs.Plans.{plans_of};
ghost use Rattle.mapping.specs.Afresh.{GivesPlans};

use crate::plans::plan_of;
use dictionary::places::{MOST_WORDS, PDOS};
use rules_dictionary::{Move, Plan};

const NO_MOVE: Move = Move { place: 0, size: 0 };

const NO_PLAN: Plan = Plan {
    count: 0,
    moves: [NO_MOVE; MOST_WORDS],
};

// The plans of all eight PDOs.
pub fn all_plans(d: &[u8]) -> [Plan; 8]
    requires { GivesPlans d.now }
    ensures { result ≡ plans_of d.now }
{
    let mut plans = [NO_PLAN; PDOS];
    for p in 0..PDOS {
        plans[p] = plan_of(d, p);
    }
    plans
}
