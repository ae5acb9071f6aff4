// The dictionary's own clauses of soundness but the mappings': constants as listed, values in range, software limits in order, PDO identifiers
// legal. A mapping's count goes with the mapping.
// It is tested at every call, so all of it is reads at fixed places and comparisons, joined without branches.

ghost use Rattle.std.specs.Prelude.{◌≡◌, length};
ghost use Rattle.rules_dictionary.specs.Table.{dictionary_length};
ghost use Rattle.soundness.specs.Parts.{dictionary_clauses};

use crate::identifiers::identifiers_legal;
use crate::rows::{limits_in_order, rows_legal};

// Whether the dictionary's constants are as listed, its values in range, its software limits in order and its PDO identifiers legal, on node n,
// but for the mappings.
pub fn dictionary_legal(d: &[u8], n: u8) -> bool
    requires { length d.now ≡ dictionary_length }
    ensures { result ≡ dictionary_clauses n d.now }
{
    if !(rows_legal(d, n) & limits_in_order(d)) {
        return false;
    }
    identifiers_legal(d)
}
