// Uploads: the value of a row; of the device name its length, since it is read by segments.
ghost use Rattle.std.specs.Prelude.{◌≡◌};
ghost use Rattle.rules_services.specs.Sdo.{index_in, subindex_in};
ghost use Rattle.dictionary.specs.Entries.{entry_at, Stands};
ghost use Rattle.rules.specs.Calls.{output_length};
ghost use Rattle.output.specs.Leaves.{Lent, LeavesIn, ever};
ghost use Rattle.sdo.specs.Requests.{uploaded_by, upload_of};

use crate::aborts::Abort;
use crate::replies::{abort, answer, reply_to};
use crate::request::{INDEX_PLACE, SUBINDEX_PLACE};
use dictionary::name::NAME_LENGTH;
use dictionary::{Found, Spot, find, read, read2};
use output::Done;
use state::Transfer;

// 41h, the reply's command where segments follow.
const UPLOAD_BEGUN: u8 = 0x41;

// The reply's command: "4Fh, 4Bh, 43h for 1, 2, 4 bytes". Of a number, for `Entry.size` is one: the rules (`uploaded_by`) count bytes.
fn uploaded(size: u8) -> u8
    ensures { result ≡ uploaded_by size }
{
    match size {
        1 => 0x4F,
        2 => 0x4B,
        _ => 0x43,
    }
}

// An upload of a row.
fn upload_row(object: [u8; 3], row: Spot, state: &mut [u8], d: &[u8], output: &mut [u8]) -> Done
    requires { Lent output_length state.old d.now output.old × Stands (index_in object) (subindex_in object) (entry_at row) }
    ensures { LeavesIn (upload_of object) ever
        state.old d.now output.old result state.new d.now output.new }
{
    let size = row.size();
    let v = read(d, row.place as usize, size);
    answer(
        reply_to(object, uploaded(size), v),
        Transfer::NoTransfer,
        state,
        output,
    )
}

// An upload of the object of those three bytes.
pub fn upload(object: [u8; 3], state: &mut [u8], d: &[u8], output: &mut [u8]) -> Done
    requires { Lent output_length state.old d.now output.old }
    ensures { LeavesIn (upload_of object) ever
        state.old d.now output.old result state.new d.now output.new }
{
    match find(read2(&object, INDEX_PLACE), object[SUBINDEX_PLACE]) {
        Ok(Found::Row(row)) => upload_row(object, row, state, d, output),
        Ok(Found::DeviceName) => answer(
            reply_to(object, UPLOAD_BEGUN, NAME_LENGTH as u32),
            Transfer::Uploading(0),
            state,
            output,
        ),
        Err(missing) => abort(Abort::from(missing), object, state, output),
    }
}
