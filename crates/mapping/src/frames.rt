// The data of PDOs, compared.
ghost use Rattle.std.specs.Prelude.{◌≡◌};
ghost use Rattle.rules.specs.Outcome.{same_data};

use rules_dictionary::PdoData;

// Whether two PDOs' data are the same: length and bytes.
pub fn same_data(a: PdoData, b: PdoData) -> bool
    ensures { result ≡ same_data a b }
{
    a == b
}
