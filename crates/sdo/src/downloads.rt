// Downloads, expedited or by segments: refused, or replied to, stored, and acted on.
ghost use Rattle.std.specs.Prelude.{◌≡◌, true, eqb, length};
ghost use Rattle.rules_dictionary.specs.Table.{heartbeat_time, place_of, is_writable};
ghost use Rattle.rules_services.specs.Sdo.{index_in, subindex_in};
ghost use Rattle.dictionary.specs.Entries.{Stands};
ghost use Rattle.rules.specs.Calls.{output_length};
ghost use Rattle.form.specs.Form.{state_length};
ghost use Rattle.form.specs.Holding.{Puts};
ghost use Rattle.output.specs.Leaves.{is_mapping, Lent, LeavesIn};
ghost use Rattle.sdo.specs.Requests.{offering, download_of, download_rests};
ghost use Rattle.sdo.specs.Serving.{prepared_for, IsEntry, Applies};

use crate::Brought;
use crate::aborts::Abort;
use crate::offers::{offer_verdict, offered};
use crate::replies::{abort, say};
use crate::request::{INDEX_PLACE, SUBINDEX_PLACE};
use dictionary::{Entry, Found, find, objects, places, read2, write};
use emergency::acted;
use form::{put_heartbeat, put_no_transfer, read_node};
use output::{Done, FRAME_LENGTH};
use rules_dictionary::Role;

// Whether an entry is of a PDO's mapping.
pub fn is_mapping(role: Role) -> bool
    ensures { result ≡ is_mapping role }
{
    matches!(role, Role::MappingCount(_) | Role::MappingEntry(_))
}

// Before a value is acted on: no transfer runs, and the heartbeat's count is restarted where 1017h is written.
fn prepare(state: &mut [u8], place: usize)
    requires { length state.old ≡ state_length }
    ensures { Puts (prepared_for (eqb place (place_of heartbeat_time))) state.old state.new }
{
    put_no_transfer(state);
    if place == places::HEARTBEAT_TIME {
        put_heartbeat(state, 0);
    }
}

// A good value for a writable entry: the reply, the value stored, and then what follows from it. Of a mapping that is its PDO's plan, at the
// call's end.
fn apply(
    reply: [u8; 8],
    e: Entry,
    v: u32,
    state: &mut [u8],
    d: &mut [u8],
    output: &mut [u8],
) -> Done
    requires { Lent output_length state.old d.old output.old × (IsEntry e × (is_writable e.access ≡ true)) }
    ensures { Applies reply e v state.old d.old output.old
        result state.new d.new output.new }
{
    let place = e.place as usize;
    let old = objects::control_word(d);
    let node = read_node(state);
    say(reply, node.id, output);
    write(d, place, e.size, v);
    prepare(state, place);
    let mut done = acted(
        old,
        place == places::MODE,
        place == places::CONTROL_WORD,
        state,
        d,
        &mut output[FRAME_LENGTH..],
    );
    done.frames += 1;
    done.remapped = is_mapping(e.role) | done.remapped;
    done.quiet = false;
    done
}

// A download to an entry.
fn to_entry(
    reply: [u8; 8],
    object: [u8; 3],
    brought: Brought,
    e: Entry,
    state: &mut [u8],
    d: &mut [u8],
    output: &mut [u8],
) -> Done
    requires { Lent output_length state.old d.old output.old × Stands (index_in object) (subindex_in object) e }
    ensures { LeavesIn (download_of reply object brought) (download_rests object (offering brought))
        state.old d.old output.old result state.new d.new output.new }
{
    let offer = offered(brought, e.size);
    let node = read_node(state);
    match offer_verdict(node.nmt, d, e, offer) {
        Ok(()) => apply(reply, e, offer.value, state, d, output),
        Err(why) => abort(why, object, state, output),
    }
}

// A download of what is brought to the object of those three bytes, replied to so where it is taken.
pub fn download(
    reply: [u8; 8],
    object: [u8; 3],
    brought: Brought,
    state: &mut [u8],
    d: &mut [u8],
    output: &mut [u8],
) -> Done
    requires { Lent output_length state.old d.old output.old }
    ensures { LeavesIn (download_of reply object brought) (download_rests object (offering brought))
        state.old d.old output.old result state.new d.new output.new }
{
    match find(read2(&object, INDEX_PLACE), object[SUBINDEX_PLACE]) {
        Ok(Found::Row(row)) => to_entry(reply, object, brought, row.entry(), state, d, output),
        Ok(Found::DeviceName) => abort(Abort::NoWriting, object, state, output),
        Err(missing) => abort(Abort::from(missing), object, state, output),
    }
}
