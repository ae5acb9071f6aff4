// 6041h and 6061h as the rules make them, at the end of a call.
ghost use Rattle.std.specs.Prelude.{◌≡◌, true, length};
ghost use Rattle.rules_dictionary.specs.Numbers.{are_bytes};
ghost use Rattle.rules_dictionary.specs.Table.{dictionary_length};
ghost use Rattle.calls.specs.Ending.{settled_by, written_by};

use dictionary::objects;
use drive::Drive;
use drive::status::status;
use state::Node;

// 6041h and 6061h made; whether an object that can be mapped is written by now, `touched` being whether one was before.
pub fn settle(node: Node, drive: Drive, touched: bool, d: &mut [u8]) -> bool
    requires { length d.old ≡ dictionary_length }
    ensures { (d.new ≡ settled_by node drive d.old)
        × ((result ≡ written_by touched node drive d.old) × (are_bytes d.old ≡ true)) }
{
    let word = status(!node.nmt.is_stopped(), node.voltage, drive, d);
    let shown = drive.mode.number();
    if objects::status_word(d) == word && objects::mode_display(d) == shown {
        return touched;
    }
    objects::set_status_word(d, word);
    objects::set_mode_display(d, shown);
    true
}
