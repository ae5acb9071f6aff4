// Where the values stand in the dictionary: each row behind the one before it, in the table's order. This is the one list of places: a
// row that is put in moves those behind it by its size.
// Places, default bytes and the lines of `ROWS` stay three lists: the look-up halves words alone, and the default bytes are copied at one stroke.

// ---- the node's rows

pub const DEVICE_TYPE: usize = 0;

pub const ERROR_REGISTER: usize = DEVICE_TYPE + 4;

pub const SYNC_IDENTIFIER: usize = ERROR_REGISTER + 1;

pub const EMERGENCY_IDENTIFIER: usize = SYNC_IDENTIFIER + 4;

pub const HEARTBEAT_TIME: usize = EMERGENCY_IDENTIFIER + 4;

pub const IDENTITY_COUNT: usize = HEARTBEAT_TIME + 2;

pub const VENDOR: usize = IDENTITY_COUNT + 1;

// ---- the PDOs' records, four in a row of each kind and direction

// The PDOs of a direction, and the first that transmits.
pub const EACH_WAY: usize = 4;

// All PDOs: receive, then transmit.
pub const PDOS: usize = 2 * EACH_WAY;

// A communication record: its count, behind it the identifier, then the transmission type.
pub const IDENTIFIER: usize = 1;

pub const TRANSMISSION_TYPE: usize = IDENTIFIER + 4;

pub const COMMUNICATION_LENGTH: usize = TRANSMISSION_TYPE + 1;

// A mapping record: its count, behind it the mapping words.
pub const WORDS: usize = 1;

pub const WORD_LENGTH: usize = 4;

pub const MOST_WORDS: usize = 8;

pub const MAPPING_LENGTH: usize = WORDS + MOST_WORDS * WORD_LENGTH;

// The first record of each kind and direction.
pub const RECEIVE_COMMUNICATION: usize = VENDOR + 4;

pub const RECEIVE_MAPPING: usize = RECEIVE_COMMUNICATION + EACH_WAY * COMMUNICATION_LENGTH;

pub const TRANSMIT_COMMUNICATION: usize = RECEIVE_MAPPING + EACH_WAY * MAPPING_LENGTH;

pub const TRANSMIT_MAPPING: usize = TRANSMIT_COMMUNICATION + EACH_WAY * COMMUNICATION_LENGTH;

// ---- the drive's rows

pub const ERROR_CODE: usize = TRANSMIT_MAPPING + EACH_WAY * MAPPING_LENGTH;

pub const CONTROL_WORD: usize = ERROR_CODE + 2;

pub const STATUS_WORD: usize = CONTROL_WORD + 2;

pub const MODE: usize = STATUS_WORD + 2;

pub const MODE_DISPLAY: usize = MODE + 1;

pub const POSITION: usize = MODE_DISPLAY + 1;

pub const POSITION_WINDOW: usize = POSITION + 4;

pub const WINDOW_TIME: usize = POSITION_WINDOW + 4;

pub const VELOCITY: usize = WINDOW_TIME + 2;

pub const VELOCITY_WINDOW: usize = VELOCITY + 4;

pub const VELOCITY_THRESHOLD: usize = VELOCITY_WINDOW + 2;

pub const TARGET_POSITION: usize = VELOCITY_THRESHOLD + 2;

pub const LIMIT_COUNT: usize = TARGET_POSITION + 4;

pub const MINIMUM_POSITION: usize = LIMIT_COUNT + 1;

pub const MAXIMUM_POSITION: usize = MINIMUM_POSITION + 4;

pub const PROFILE_VELOCITY: usize = MAXIMUM_POSITION + 4;

pub const PROFILE_ACCELERATION: usize = PROFILE_VELOCITY + 4;

pub const PROFILE_DECELERATION: usize = PROFILE_ACCELERATION + 4;

pub const TARGET_VELOCITY: usize = PROFILE_DECELERATION + 4;

pub const SUPPORTED_MODES: usize = TARGET_VELOCITY + 4;

// The bytes of the dictionary.
pub const DICTIONARY_LENGTH: usize = SUPPORTED_MODES + 4;
