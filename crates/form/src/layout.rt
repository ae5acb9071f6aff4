// Where the parts of a state stand in its bytes: each behind the one before it, in the order of specs/Form.antt. This is the one list of
// places: a part that is put in moves those behind it by its length.

use dictionary::places::{EACH_WAY, MOST_WORDS, PDOS};

// The bytes of a word.
pub const WORD_LENGTH: usize = 4;

// ---- the node

pub const NODE_ID: usize = 0;

pub const NMT: usize = NODE_ID + 1;

pub const VOLTAGE: usize = NMT + 1;

pub const HEARTBEAT: usize = VOLTAGE + 1;

// ---- the transfer: its kind and its step, behind them two words that a download uses

pub const TRANSFER: usize = HEARTBEAT + 2;

pub const STEP: usize = TRANSFER + 1;

pub const RECEIPT_WORDS: usize = 2;

// The first word: the object, and the toggle of the segment that is due.
pub const OBJECT_INDEX: usize = STEP + 1;

pub const OBJECT_SUBINDEX: usize = OBJECT_INDEX + 2;

pub const TOGGLE: usize = OBJECT_SUBINDEX + 1;

// The second: the first bytes that came.
pub const RECEIVED: usize = TOGGLE + 1;

// ---- the drive

pub const DRIVE_STATE: usize = RECEIVED + WORD_LENGTH;

pub const MODE: usize = DRIVE_STATE + 1;

// The marks: taken, limit and cause.
pub const TAKEN: usize = MODE + 1;

pub const LIMIT: usize = TAKEN + 1;

pub const CAUSE: usize = LIMIT + 1;

pub const DRIVE_MARKS: usize = 3;

// The ticks inside the window.
pub const STAY: usize = TAKEN + DRIVE_MARKS;

// The store: its kind, behind it two set-points.
pub const STORE: usize = STAY + 2;

// A set-point: its target, behind it, counted from there, three more numbers, a word each.
pub const NUMBERS_BEHIND: usize = 3;

pub const SET_POINT_WORDS: usize = 1 + NUMBERS_BEHIND;

pub const VELOCITY_OFFSET: usize = WORD_LENGTH;

pub const ACCELERATION_OFFSET: usize = VELOCITY_OFFSET + WORD_LENGTH;

pub const DECELERATION_OFFSET: usize = ACCELERATION_OFFSET + WORD_LENGTH;

pub const SET_POINT_LENGTH: usize = SET_POINT_WORDS * WORD_LENGTH;

pub const FIRST_SET_POINT: usize = STORE + 1;

pub const SECOND_SET_POINT: usize = FIRST_SET_POINT + SET_POINT_LENGTH;

// The words of a store, and what stands behind the first of them.
pub const STORE_WORDS: usize = 2 * SET_POINT_WORDS;

pub const BEHIND_TARGET: usize = FIRST_SET_POINT + WORD_LENGTH;

pub const WORDS_BEHIND_TARGET: usize = NUMBERS_BEHIND + SET_POINT_WORDS;

// ---- the frames, four of each kind

// A frame: how many bytes it carries, behind that their room.
pub const DATA_OFFSET: usize = 1;

pub const MOST_DATA: usize = 8;

pub const FRAME_LENGTH: usize = DATA_OFFSET + MOST_DATA;

pub const READY: usize = SECOND_SET_POINT + SET_POINT_LENGTH;

pub const HELD: usize = READY + EACH_WAY * FRAME_LENGTH;

// ---- what is kept of the transmit PDOs, four in a row: the SYNC count, behind it the due mark

pub const DUE_OFFSET: usize = 1;

pub const PACE_LENGTH: usize = DUE_OFFSET + 1;

pub const PACES: usize = HELD + EACH_WAY * FRAME_LENGTH;

// ---- the plans of the PDOs: receive, then transmit

// A plan: the count of its moves, behind it their room, one for each mapping word.
pub const MOVES_OFFSET: usize = 1;

pub const MOVE_LENGTH: usize = WORD_LENGTH;

pub const PLAN_LENGTH: usize = MOVES_OFFSET + MOST_WORDS * MOVE_LENGTH;

pub const PLANS: usize = PACES + EACH_WAY * PACE_LENGTH;

// The bytes of a state.
pub const STATE_LENGTH: usize = PLANS + PDOS * PLAN_LENGTH;
