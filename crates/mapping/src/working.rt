// Whether a PDO works in Operational.
ghost use Rattle.std.specs.Prelude.{◌≡◌, length};
ghost use Rattle.rules_dictionary.specs.Table.{dictionary_length};
ghost use Rattle.dictionary.specs.Sizes.{IsPdo};
ghost use Rattle.mapping.specs.Working.{is_open};

use dictionary::records;

// Whether a PDO is valid, with something mapped.
pub fn is_open(d: &[u8], p: usize) -> bool
    requires { (length d.now ≡ dictionary_length) × IsPdo p }
    ensures { result ≡ is_open d.now p }
{
    if records::INVALID <= records::identifier(d, p) {
        return false;
    }
    0 < records::map_count(d, p)
}
