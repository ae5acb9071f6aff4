// The values of a receive PDO's frame: "Applying stores every value .., then acts on 6060h if mapped, then 6040h."
ghost use Rattle.std.specs.Prelude.{List};
ghost use Rattle.rules_dictionary.specs.Table.{Row};
ghost use Rattle.rules_dictionary.specs.Values.{unpacked};
ghost use Rattle.rules_services.specs.Written.{applied};
ghost use Rattle.rules.specs.Outcome.{frame_size};
ghost use Rattle.form.specs.Form.{plan_in};
ghost use Rattle.mapping.specs.Received.{PlanFits, Receives};
ghost use Rattle.output.specs.Leaves.{Lent, LeavesIn, never};

use dictionary::{objects, places};
use emergency::acted;
use mapping::{maps, store_values};
use output::Done;

// The values of the rows that receive PDO p's plan is for, taken from those bytes, stored and acted on.
pub fn apply(state: &mut [u8], p: usize, d: &mut [u8], output: &mut [u8], content: [u8; 8]) -> Done
    requires { Lent frame_size state.old d.old output.old × PlanFits state.old p }
    ensures { (xs : List Row) → Receives (plan_in state.old p) xs → LeavesIn (applied (unpacked xs content)) never
        state.old d.old output.old result state.new d.new output.new }
{
    let old = objects::control_word(d);
    store_values(d, state, p, content);
    let mode = maps(state, p, places::MODE as u16);
    let control = maps(state, p, places::CONTROL_WORD as u16);
    acted(old, mode, control, state, d, output)
}
