// Requests of eight bytes, by their command.
ghost use Rattle.rules.specs.Calls.{output_length};
ghost use Rattle.rules_services.specs.SdoServer.{sdo};
ghost use Rattle.output.specs.Leaves.{Lent, LeavesIn};
ghost use Rattle.sdo.specs.Requests.{sdo_rests};

use crate::aborts::Abort;
use crate::downloads::download;
use crate::name_segments::segment_asked;
use crate::receipts::{begin, segment_sent};
use crate::replies::{DOWNLOADED, abort, reply_to};
use crate::request::{COMMAND_PLACE, command_of, expedited, object_of};
use crate::uploads::upload;
use form::put_no_transfer;
use output::{Done, nothing_done};
use rules_services::SdoCommand;

// One request of eight bytes, served.
pub fn serve(request: [u8; 8], state: &mut [u8], d: &mut [u8], output: &mut [u8]) -> Done
    requires { Lent output_length state.old d.old output.old }
    ensures { LeavesIn (sdo request) (sdo_rests request) state.old d.old output.old
        result state.new d.new output.new }
{
    let object = object_of(request);
    match command_of(request[COMMAND_PLACE]) {
        SdoCommand::Download => download(
            reply_to(object, DOWNLOADED, 0),
            object,
            expedited(request),
            state,
            d,
            output,
        ),
        SdoCommand::DownloadBySegments => begin(object, state, output),
        SdoCommand::DownloadSegment => segment_sent(request, state, d, output),
        SdoCommand::Upload => upload(object, state, d, output),
        SdoCommand::UploadSegment => segment_asked(request, state, output),
        SdoCommand::ClientAbort => {
            put_no_transfer(state);
            nothing_done(true)
        }
        SdoCommand::Unknown => abort(Abort::UnknownCommand, object, state, output),
    }
}
