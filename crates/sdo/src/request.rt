// A request of eight bytes: what it asks, of which object, and what it brings.
ghost use Rattle.std.specs.Prelude.{◌≡◌};
ghost use Rattle.rules_services.specs.Sdo.{object_of};
ghost use Rattle.rules_services.specs.SdoServer.{command_of};
ghost use Rattle.sdo.specs.Requests.{brought_by};

use crate::Brought;
use rules_services::SdoCommand;

// The command of a request.
pub const COMMAND_PLACE: usize = 0;

// The four data bytes of an expedited one.
const DATA_SIZE: u8 = 4;

// What an object's three bytes hold: its index, of two bytes, and its subindex.
pub const INDEX_PLACE: usize = 0;

pub const SUBINDEX_PLACE: usize = 2;

// "Command bits 7-5: 1 download, 2 upload, 4 client abort (no reply)"; the segments have 0 and 3, and bit 1 tells an expedited download.
// A function, not `From<u8>`: neither `From` nor `SdoCommand`, which is of the rules, belongs to this crate.
pub fn command_of(command: u8) -> SdoCommand
    ensures { result ≡ command_of command }
{
    match command / 32 % 8 {
        0 => SdoCommand::DownloadSegment,
        1 => {
            if command / 2 % 2 == 1 {
                SdoCommand::Download
            } else {
                SdoCommand::DownloadBySegments
            }
        }
        2 => SdoCommand::Upload,
        3 => SdoCommand::UploadSegment,
        4 => SdoCommand::ClientAbort,
        _ => SdoCommand::Unknown,
    }
}

// The object that it names: index and subindex, as they stand there. Bytes by name, as in `expedited`, are one line: a copy wants an array to fill.
pub fn object_of(request: [u8; 8]) -> [u8; 3]
    ensures { result ≡ object_of request }
{
    [request[1], request[2], request[3]]
}

// What an expedited download brings: "with bit 0 set the size is 4 minus bits 3-2, else the object's".
pub fn expedited(request: [u8; 8]) -> Brought
    ensures { result ≡ brought_by request }
{
    let command = request[COMMAND_PLACE];
    Brought {
        count: (command % 2 == 1).then_some(DATA_SIZE - command / 4 % 4),
        bytes: [request[4], request[5], request[6], request[7]],
    }
}
