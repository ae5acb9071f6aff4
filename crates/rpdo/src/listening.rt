// Whether a receive PDO listens to an identifier.
ghost use Rattle.std.specs.Prelude.{◌≡◌, ◌<◌, length};
ghost use Rattle.rules_dictionary.specs.Table.{each_way, dictionary_length};
ghost use Rattle.rpdo.specs.Traffic.{hears};

use dictionary::records;
use mapping::is_open;

// Whether receive PDO p is valid, maps something, and has that identifier.
pub fn hears(d: &[u8], p: usize, identifier: u16) -> bool
    requires { (length d.now ≡ dictionary_length) × (p < each_way) }
    ensures { result ≡ hears identifier d.now p }
{
    if records::identifier(d, p) % records::IDENTIFIERS != identifier as u32 {
        return false;
    }
    is_open(d, p)
}
