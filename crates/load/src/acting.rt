// What follows once all entries are taken, and not before.
ghost use Rattle.std.specs.Prelude.{◌≡◌, length};
ghost use Rattle.rules_dictionary.specs.Table.{dictionary_length};
ghost use Rattle.form.specs.Form.{state_length};
ghost use Rattle.form.specs.Holding.{Puts};
ghost use Rattle.load.specs.Trying.{restarted_if, mode_acted_if};

use form::{put_drive, put_heartbeat, read_drive};

// The heartbeat's count is restarted where 1017h was written.
pub fn restart(written: bool, state: &mut [u8])
    requires { length state.old ≡ state_length }
    ensures { Puts (restarted_if written) state.old state.new }
{
    if written {
        put_heartbeat(state, 0);
    }
}

// 6060h is acted on, as it now stands, where it was written.
pub fn act_on_mode(written: bool, state: &mut [u8], d: &[u8])
    requires { (length state.old ≡ state_length) × (length d.now ≡ dictionary_length) }
    ensures { Puts (mode_acted_if written d.now) state.old state.new }
{
    if written {
        let drive = read_drive(state);
        put_drive(state, drive.mode_written(d));
    }
}
