// The flat table of the rows, and the look-up.
ghost use Rattle.std.specs.Prelude.{◌≡◌, map, ◌-◌, ◌<◌, ◌≤◌, ◌^◌};
ghost use Rattle.rules_dictionary.specs.Table.{table, entries, row_at, place_of, row_of, lookup};
ghost use Rattle.dictionary.specs.Entries.{entry_at, found_as, IsFound, presence_of};
ghost use Rattle.dictionary.specs.Lines.{line_of, LastUpTo, index_in, subindex_in, access_in, least_in, greatest_in, room_of, drive_role};
ghost use Rattle.dictionary.specs.Lines.{role_in, PdoIn};
ghost use Rattle.dictionary.specs.Lines.{communication_offset};
ghost use Rattle.dictionary.specs.Lines.{mapping_offset, sizes_from, drive_place, place_in};

use crate::records::{communication_place, mapping_place};
use crate::{Entry, Found, Missing, Spot, places};
use rules_dictionary::{Access, Role};

// What a line of the table holds: index and subindex, six digits, stand above one byte, ..
const KEY: u32 = 0x100;

const INDEXES: u32 = 0x1_0000;

const SUBINDEXES: u32 = 0x100;

// .. in which are the type: the size in bytes, and a sign; ..
const SIGN: u32 = 8;

const U8: u32 = 1;

const U16: u32 = 2;

const U32: u32 = 4;

const I8: u32 = SIGN + U8;

const I32: u32 = SIGN + U32;

// .. the access, and the range where it is not the whole of the type, each one of four.
// The codes stay numbers: a line is one word in fixed memory, and an enum with TryFrom would list each code twice more to say the same.
const CODES: u32 = 4;

const ACCESS: u32 = 0x10;

const CONSTANT: u32 = 0 * ACCESS;

const NODE_WRITTEN: u32 = 1 * ACCESS;

const WRITABLE: u32 = 2 * ACCESS;

const RANGE: u32 = 0x40;

const FROM_1: u32 = 1 * RANGE;

const UP_TO_8: u32 = 2 * RANGE;

const UP_TO_7FFFFFFF: u32 = 3 * RANGE;

// How many rows stand before those of the drive: the node's, and of each PDO a communication and a mapping record.
const DRIVE_RANK: usize = 7 + places::PDOS * (3 + 9);

const ENTRIES: usize = DRIVE_RANK + 20;

// From this row on, a place is worked from the dictionary's end and not from the drive's first place. At most eight rows are walked before it:
// such a loop the compiler lays out in full.
const MIDDLE_RANK: usize = (DRIVE_RANK + ENTRIES - 1) / 2;

// The last index of a communication object, that of the mode of operation, and that of the software limits.
const LAST_COMMUNICATION: u16 = 0x1FFF;

const MODE_INDEX: u16 = 0x6060;

const LIMIT_INDEX: u16 = 0x607D;

// The table, in rising order of index and subindex. It has no places: they follow from the sizes and the regular records of the PDOs.
const ROWS: [u32; ENTRIES] = [
    0x1000_00 * KEY + U32 + CONSTANT,
    0x1001_00 * KEY + U8 + NODE_WRITTEN,
    0x1005_00 * KEY + U32 + CONSTANT,
    0x1014_00 * KEY + U32 + CONSTANT,
    0x1017_00 * KEY + U16 + WRITABLE,
    0x1018_00 * KEY + U8 + CONSTANT,
    0x1018_01 * KEY + U32 + CONSTANT,
    0x1400_00 * KEY + U8 + CONSTANT,
    0x1400_01 * KEY + U32 + WRITABLE,
    0x1400_02 * KEY + U8 + WRITABLE,
    0x1401_00 * KEY + U8 + CONSTANT,
    0x1401_01 * KEY + U32 + WRITABLE,
    0x1401_02 * KEY + U8 + WRITABLE,
    0x1402_00 * KEY + U8 + CONSTANT,
    0x1402_01 * KEY + U32 + WRITABLE,
    0x1402_02 * KEY + U8 + WRITABLE,
    0x1403_00 * KEY + U8 + CONSTANT,
    0x1403_01 * KEY + U32 + WRITABLE,
    0x1403_02 * KEY + U8 + WRITABLE,
    0x1600_00 * KEY + U8 + WRITABLE + UP_TO_8,
    0x1600_01 * KEY + U32 + WRITABLE,
    0x1600_02 * KEY + U32 + WRITABLE,
    0x1600_03 * KEY + U32 + WRITABLE,
    0x1600_04 * KEY + U32 + WRITABLE,
    0x1600_05 * KEY + U32 + WRITABLE,
    0x1600_06 * KEY + U32 + WRITABLE,
    0x1600_07 * KEY + U32 + WRITABLE,
    0x1600_08 * KEY + U32 + WRITABLE,
    0x1601_00 * KEY + U8 + WRITABLE + UP_TO_8,
    0x1601_01 * KEY + U32 + WRITABLE,
    0x1601_02 * KEY + U32 + WRITABLE,
    0x1601_03 * KEY + U32 + WRITABLE,
    0x1601_04 * KEY + U32 + WRITABLE,
    0x1601_05 * KEY + U32 + WRITABLE,
    0x1601_06 * KEY + U32 + WRITABLE,
    0x1601_07 * KEY + U32 + WRITABLE,
    0x1601_08 * KEY + U32 + WRITABLE,
    0x1602_00 * KEY + U8 + WRITABLE + UP_TO_8,
    0x1602_01 * KEY + U32 + WRITABLE,
    0x1602_02 * KEY + U32 + WRITABLE,
    0x1602_03 * KEY + U32 + WRITABLE,
    0x1602_04 * KEY + U32 + WRITABLE,
    0x1602_05 * KEY + U32 + WRITABLE,
    0x1602_06 * KEY + U32 + WRITABLE,
    0x1602_07 * KEY + U32 + WRITABLE,
    0x1602_08 * KEY + U32 + WRITABLE,
    0x1603_00 * KEY + U8 + WRITABLE + UP_TO_8,
    0x1603_01 * KEY + U32 + WRITABLE,
    0x1603_02 * KEY + U32 + WRITABLE,
    0x1603_03 * KEY + U32 + WRITABLE,
    0x1603_04 * KEY + U32 + WRITABLE,
    0x1603_05 * KEY + U32 + WRITABLE,
    0x1603_06 * KEY + U32 + WRITABLE,
    0x1603_07 * KEY + U32 + WRITABLE,
    0x1603_08 * KEY + U32 + WRITABLE,
    0x1800_00 * KEY + U8 + CONSTANT,
    0x1800_01 * KEY + U32 + WRITABLE,
    0x1800_02 * KEY + U8 + WRITABLE,
    0x1801_00 * KEY + U8 + CONSTANT,
    0x1801_01 * KEY + U32 + WRITABLE,
    0x1801_02 * KEY + U8 + WRITABLE,
    0x1802_00 * KEY + U8 + CONSTANT,
    0x1802_01 * KEY + U32 + WRITABLE,
    0x1802_02 * KEY + U8 + WRITABLE,
    0x1803_00 * KEY + U8 + CONSTANT,
    0x1803_01 * KEY + U32 + WRITABLE,
    0x1803_02 * KEY + U8 + WRITABLE,
    0x1A00_00 * KEY + U8 + WRITABLE + UP_TO_8,
    0x1A00_01 * KEY + U32 + WRITABLE,
    0x1A00_02 * KEY + U32 + WRITABLE,
    0x1A00_03 * KEY + U32 + WRITABLE,
    0x1A00_04 * KEY + U32 + WRITABLE,
    0x1A00_05 * KEY + U32 + WRITABLE,
    0x1A00_06 * KEY + U32 + WRITABLE,
    0x1A00_07 * KEY + U32 + WRITABLE,
    0x1A00_08 * KEY + U32 + WRITABLE,
    0x1A01_00 * KEY + U8 + WRITABLE + UP_TO_8,
    0x1A01_01 * KEY + U32 + WRITABLE,
    0x1A01_02 * KEY + U32 + WRITABLE,
    0x1A01_03 * KEY + U32 + WRITABLE,
    0x1A01_04 * KEY + U32 + WRITABLE,
    0x1A01_05 * KEY + U32 + WRITABLE,
    0x1A01_06 * KEY + U32 + WRITABLE,
    0x1A01_07 * KEY + U32 + WRITABLE,
    0x1A01_08 * KEY + U32 + WRITABLE,
    0x1A02_00 * KEY + U8 + WRITABLE + UP_TO_8,
    0x1A02_01 * KEY + U32 + WRITABLE,
    0x1A02_02 * KEY + U32 + WRITABLE,
    0x1A02_03 * KEY + U32 + WRITABLE,
    0x1A02_04 * KEY + U32 + WRITABLE,
    0x1A02_05 * KEY + U32 + WRITABLE,
    0x1A02_06 * KEY + U32 + WRITABLE,
    0x1A02_07 * KEY + U32 + WRITABLE,
    0x1A02_08 * KEY + U32 + WRITABLE,
    0x1A03_00 * KEY + U8 + WRITABLE + UP_TO_8,
    0x1A03_01 * KEY + U32 + WRITABLE,
    0x1A03_02 * KEY + U32 + WRITABLE,
    0x1A03_03 * KEY + U32 + WRITABLE,
    0x1A03_04 * KEY + U32 + WRITABLE,
    0x1A03_05 * KEY + U32 + WRITABLE,
    0x1A03_06 * KEY + U32 + WRITABLE,
    0x1A03_07 * KEY + U32 + WRITABLE,
    0x1A03_08 * KEY + U32 + WRITABLE,
    0x603F_00 * KEY + U16 + NODE_WRITTEN,
    0x6040_00 * KEY + U16 + WRITABLE,
    0x6041_00 * KEY + U16 + NODE_WRITTEN,
    0x6060_00 * KEY + I8 + WRITABLE,
    0x6061_00 * KEY + I8 + NODE_WRITTEN,
    0x6064_00 * KEY + I32 + NODE_WRITTEN,
    0x6067_00 * KEY + U32 + WRITABLE + UP_TO_7FFFFFFF,
    0x6068_00 * KEY + U16 + WRITABLE,
    0x606C_00 * KEY + I32 + NODE_WRITTEN,
    0x606D_00 * KEY + U16 + WRITABLE,
    0x606F_00 * KEY + U16 + WRITABLE,
    0x607A_00 * KEY + I32 + WRITABLE,
    0x607D_00 * KEY + U8 + CONSTANT,
    0x607D_01 * KEY + I32 + WRITABLE,
    0x607D_02 * KEY + I32 + WRITABLE,
    0x6081_00 * KEY + U32 + WRITABLE,
    0x6083_00 * KEY + U32 + WRITABLE + FROM_1,
    0x6084_00 * KEY + U32 + WRITABLE + FROM_1,
    0x60FF_00 * KEY + I32 + WRITABLE,
    0x6502_00 * KEY + U32 + CONSTANT,
];

// What rows stand one after another in: the node's part, a PDO's communication or mapping record, the drive's part.
#[derive(Clone, Copy)]
enum Room {
    Node,
    Communication(u8),
    Mapping(u8),
    Drive,
}

// The device name, which has no row.
const NAME_INDEX: u16 = 0x1008;

const NAME_SUBINDEX: u8 = 0;

// The rank of the last row whose index and subindex are not above the key, by halving; the first where there is none. The width of what
// is left is a power of two, whatever was found, so that the steps are always the same.
// It stays a search by hand: `partition_point` over the same lines costs a look-up 8 to 37 instructions more on x86-64 (that of 6041h the most).
#[tactic(auto, using(crate::proofs::Lines::few, crate::proofs::Lines::lines_length))]
fn last_up_to(rows: &[u32], key: u32) -> usize
    requires { (rows.now ≡ map line_of table) × (key < 2 ^ 24) }
    ensures { LastUpTo key result }
{
    let last_line = key * KEY + (KEY - 1);
    let mut rank: usize = 0;
    let mut width: usize = 128;
    while 1 < width {
        width /= 2;
        let next = rank + width;
        if next < ENTRIES {
            if rows[next] <= last_line {
                rank = next;
            }
        }
    }
    rank
}

// The index in a line.
fn index_in(line: u32) -> u16
    ensures { result ≡ index_in line }
{
    (line / KEY / SUBINDEXES % INDEXES) as u16
}

// The subindex in a line.
fn subindex_in(line: u32) -> u8
    ensures { result ≡ subindex_in line }
{
    (line / KEY % SUBINDEXES) as u8
}

// The access in a line.
fn access_in(code: u32) -> Access
    ensures { result ≡ access_in code }
{
    match code {
        0 => Access::Constant,
        1 => Access::NodeWritten,
        _ => Access::Writable,
    }
}

// The least value of a line's range.
fn least_in(range: u32) -> u32
    ensures { result ≡ least_in range }
{
    match range {
        1 => 1,
        _ => 0,
    }
}

// The greatest value of a line's range, or else of its size.
fn greatest_in(range: u32, size: u8) -> u32
    ensures { result ≡ greatest_in range size }
{
    match (range, size) {
        (2, _) => 8,
        (3, _) => 0x7FFF_FFFF,
        (_, 1) => 0xFF,
        (_, 2) => 0xFFFF,
        _ => 0xFFFF_FFFF,
    }
}

// The room of an index: four records of each kind and direction stand in a row.
fn room_of(index: u16) -> Room
    ensures { (result ≡ room_of index) × PdoIn result }
{
    if LAST_COMMUNICATION < index {
        return Room::Drive;
    }
    let pdo = (index % 4) as u8;
    match index - index % 4 {
        0x1400 => Room::Communication(pdo),
        0x1600 => Room::Mapping(pdo),
        0x1800 => Room::Communication(pdo + 4),
        0x1A00 => Room::Mapping(pdo + 4),
        _ => Room::Node,
    }
}

// The role of a row of the drive.
#[tactic(auto, unfolding(crate::specs::Lines::drive_role))]
fn drive_role(index: u16, subindex: u8) -> Role
    ensures { result ≡ drive_role index subindex }
{
    if index == MODE_INDEX {
        return Role::ModeOfOperation;
    }
    if index != LIMIT_INDEX {
        return Role::Plain;
    }
    match subindex {
        1 => Role::MinimumLimit,
        2 => Role::MaximumLimit,
        _ => Role::Plain,
    }
}

// The role of a row, by its room, index and subindex.
#[tactic(auto, unfolding(crate::specs::Lines::role_in))]
fn role_in(room: Room, index: u16, subindex: u8) -> Role
    ensures { result ≡ role_in room index subindex }
{
    match room {
        Room::Node => Role::Plain,
        Room::Communication(p) => match subindex {
            1 => Role::PdoIdentifier(p),
            2 => Role::PdoType(p),
            _ => Role::Plain,
        },
        Room::Mapping(p) => if subindex == 0 {
            Role::MappingCount(p)
        } else {
            Role::MappingEntry(p)
        },
        Room::Drive => drive_role(index, subindex),
    }
}

// How far behind its communication record's place a row stands.
#[tactic(auto, unfolding(crate::specs::Lines::communication_offset))]
fn communication_offset(subindex: u8) -> usize
    ensures { (result ≡ communication_offset subindex) × (result < 2 ^ 16) }
{
    match subindex {
        1 => places::IDENTIFIER,
        2 => places::TRANSMISSION_TYPE,
        _ => 0,
    }
}

// How far behind its mapping record's place a row stands.
#[tactic(auto, unfolding(crate::specs::Lines::mapping_offset))]
fn mapping_offset(subindex: u8) -> usize
    ensures { (result ≡ mapping_offset subindex) × (result < 2 ^ 16) }
{
    if subindex == 0 {
        return 0;
    }
    places::WORDS + places::WORD_LENGTH * (subindex as usize - 1)
}

// The bytes of the rows from one rank up to another, counted in a controller's word.
// A `for` over ranks and not over `&rows[first..last]`: the first may lie above the last, and then there are no rows.
#[tactic(auto, using(crate::proofs::Lines::few, crate::proofs::Lines::lines_length))]
fn sizes_from(rows: &[u32], first: usize, last: usize) -> usize
    requires { (rows.now ≡ map line_of table) × ((first ≤ entries) × (last ≤ entries)) }
    ensures { (result ≡ sizes_from rows.now first (last - first)) × (result < 2 ^ 16) }
{
    let mut bytes: u32 = 0;
    for k in first as u32..last as u32 {
        bytes += rows[k as usize] % SIGN;
    }
    bytes as usize
}

// The place of a row of the drive: behind the rows before it, or in front of those from it to the end.
fn drive_place(rows: &[u32], rank: usize) -> usize
    requires { (rows.now ≡ map line_of table) × (rank < entries) }
    ensures { result ≡ drive_place rows.now rank }
{
    if rank < MIDDLE_RANK {
        return places::ERROR_CODE + sizes_from(rows, DRIVE_RANK, rank);
    }
    places::DICTIONARY_LENGTH - sizes_from(rows, rank, ENTRIES)
}

// The place of a row, by its room, rank and subindex.
fn place_in(rows: &[u32], room: Room, rank: usize, subindex: u8) -> usize
    requires { (rows.now ≡ map line_of table) × ((rank < entries) × PdoIn room) }
    ensures { result ≡ place_in rows.now room rank subindex }
{
    match room {
        Room::Node => sizes_from(rows, 0, rank),
        Room::Communication(p) => communication_place(p as usize) + communication_offset(subindex),
        Room::Mapping(p) => mapping_place(p as usize) + mapping_offset(subindex),
        Room::Drive => drive_place(rows, rank),
    }
}

// The place of the row of a rank.
#[tactic(auto, using(crate::proofs::Lines::few, crate::proofs::Lines::lines_length))]
fn place_at(rows: &[u32], rank: usize) -> usize
    requires { (rows.now ≡ map line_of table) × (rank < entries) }
    ensures { (result ≡ place_of (row_at rank)) × (result < 2 ^ 16) }
{
    let line = rows[rank];
    place_in(rows, room_of(index_in(line)), rank, subindex_in(line))
}

// What the table has at an index and subindex: each object has an entry at subindex 0.
fn found_in(rows: &[u32], index: u16, subindex: u8) -> Result<Found, Missing>
    requires { rows.now ≡ map line_of table }
    ensures { result ≡ found_as (row_of index subindex) }
{
    let object = u32::from(index);
    let key = object * SUBINDEXES + u32::from(subindex);
    let rank = last_up_to(rows, key);
    let line = rows[rank];
    if line / KEY == key {
        return Ok(Found::Row(Spot {
            line,
            place: place_at(rows, rank) as u16,
        }));
    }
    if line / KEY / SUBINDEXES == object {
        return Err(Missing::NoSubindex);
    }
    Err(Missing::NoObject)
}

impl Spot {
    // The size of the row's value: all that an upload needs beside the place.
    #[tactic(auto, unfolding(crate::specs::Lines::entry_in))]
    pub fn size(self) -> u8
        ensures { result ≡ (entry_at self).size }
    {
        (self.line % SIGN) as u8
    }

    // The row's entry.
    #[tactic(auto, unfolding(crate::specs::Lines::entry_in))]
    pub fn entry(self) -> Entry
        ensures { result ≡ entry_at self }
    {
        let index = index_in(self.line);
        let range = self.line / RANGE % CODES;
        Entry {
            place: self.place,
            size: self.size(),
            access: access_in(self.line / ACCESS % CODES),
            least: least_in(range),
            greatest: greatest_in(range, self.size()),
            role: role_in(room_of(index), index, subindex_in(self.line)),
        }
    }
}

// What stands at an index and subindex; where nothing does, whether the object is there. The table is lent once a look-up: it is laid on the stack.
pub fn find(index: u16, subindex: u8) -> Result<Found, Missing>
    ensures { IsFound index subindex result }
{
    if index != NAME_INDEX {
        return found_in(&ROWS, index, subindex);
    }
    if subindex == NAME_SUBINDEX {
        return Ok(Found::DeviceName);
    }
    Err(Missing::NoSubindex)
}

// The same without the row.
pub fn seek(index: u16, subindex: u8) -> Result<(), Missing>
    ensures { result ≡ presence_of (lookup index subindex) }
{
    find(index, subindex)?;
    Ok(())
}
