// Document 01, 'NMT, emergency, time': "EMCY on 80h+N: code, 1001h just after its cause, five zeros; none while Stopped."
ghost use Rattle.std.specs.Prelude.{◌≡◌, ◌≤◌, length};
ghost use Rattle.rules_dictionary.specs.Table.{dictionary_length};
ghost use Rattle.rules_dictionary.specs.TheNode.{last_node};
ghost use Rattle.rules_dictionary.specs.Plans.{pdo_data};
ghost use Rattle.rules.specs.Outcome.{frame_size, sent_into};
ghost use Rattle.emergency.specs.Emergencies.{emergency_bytes, emergency_of};

use dictionary::objects;
use output::send;
use rules_dictionary::PdoData;
use state::Node;

// 80h, to which the node-ID is added.
const EMERGENCY_BASE: u16 = 0x80;

// The data of an emergency. The zeros stand in place: `[0; 8]` and three assignments would be four lines for one.
fn emergency_data(code: u16, register: u8) -> PdoData
    ensures { result ≡ pdo_data (emergency_bytes code register) }
{
    let [low, high] = code.to_le_bytes();
    PdoData {
        length: 8,
        bytes: [low, high, register, 0, 0, 0, 0, 0],
    }
}

// The emergency of a code at the start of the bytes, which are the output from its frame on; none while Stopped. How many frames that is.
// The code stays a number, not an enum: a fault brings whichever code the amplifier gives.
pub fn emergency(code: u16, node: Node, d: &[u8], output: &mut [u8]) -> usize
    requires { (length d.now ≡ dictionary_length) × ((frame_size ≤ length output.old) × (node.id ≤ last_node)) }
    ensures { (result ≡ length (emergency_of code node d.now))
        × (output.new ≡ sent_into output.old (emergency_of code node d.now)) }
{
    if node.nmt.is_stopped() {
        return 0;
    }
    let content = emergency_data(code, objects::error_register(d));
    send(output, EMERGENCY_BASE + (node.id as u16), content);
    1
}
