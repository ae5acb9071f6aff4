// The objects that the node itself reads and writes, by name. They stay a function each: a generic one would need an impl of as many lines for
// each row (its type, place, row and proof), and the callers would write `read::<StatusWord>(d)` for `status_word(d)`.

#![tactic(auto, unfolding(rules_dictionary::specs::Values::open_values, rules_dictionary::specs::Table::open_table))]

ghost use Rattle.std.specs.Prelude.{◌≡◌, length};
ghost use Rattle.rules_dictionary.specs.Table.{device_type, error_register, sync_identifier, emergency_identifier, heartbeat_time};
ghost use Rattle.rules_dictionary.specs.Table.{identity_count, vendor};
ghost use Rattle.rules_dictionary.specs.Table.{control_word, status_word, mode, mode_display, position, position_window, window_time, velocity};
ghost use Rattle.rules_dictionary.specs.Table.{velocity_window, velocity_threshold, target_position, limit_count, minimum_position, maximum_position};
ghost use Rattle.rules_dictionary.specs.Table.{profile_velocity, profile_acceleration, profile_deceleration, target_velocity, supported_modes};
ghost use Rattle.rules_dictionary.specs.Table.{error_code, dictionary_length};
ghost use Rattle.rules_dictionary.specs.Values.{read, store};

use crate::places;
use crate::values::{read1, read2, read4, write1, write2, write4};

// 1000h, device type.
pub fn device_type(d: &[u8]) -> u32
    requires { length d.now ≡ dictionary_length }
    ensures { result ≡ read d.now device_type }
{
    read4(d, places::DEVICE_TYPE)
}

// 1001h, error register.
pub fn error_register(d: &[u8]) -> u8
    requires { length d.now ≡ dictionary_length }
    ensures { result ≡ read d.now error_register }
{
    read1(d, places::ERROR_REGISTER)
}

// 1005h, the identifier of SYNC.
pub fn sync_identifier(d: &[u8]) -> u32
    requires { length d.now ≡ dictionary_length }
    ensures { result ≡ read d.now sync_identifier }
{
    read4(d, places::SYNC_IDENTIFIER)
}

// 1014h, the identifier of emergencies.
pub fn emergency_identifier(d: &[u8]) -> u32
    requires { length d.now ≡ dictionary_length }
    ensures { result ≡ read d.now emergency_identifier }
{
    read4(d, places::EMERGENCY_IDENTIFIER)
}

// 1017h, heartbeat time.
pub fn heartbeat_time(d: &[u8]) -> u16
    requires { length d.now ≡ dictionary_length }
    ensures { result ≡ read d.now heartbeat_time }
{
    read2(d, places::HEARTBEAT_TIME)
}

// 1018h, its entries.
pub fn identity_count(d: &[u8]) -> u8
    requires { length d.now ≡ dictionary_length }
    ensures { result ≡ read d.now identity_count }
{
    read1(d, places::IDENTITY_COUNT)
}

// 1018h:1, vendor.
pub fn vendor(d: &[u8]) -> u32
    requires { length d.now ≡ dictionary_length }
    ensures { result ≡ read d.now vendor }
{
    read4(d, places::VENDOR)
}

// 6040h, control word.
pub fn control_word(d: &[u8]) -> u16
    requires { length d.now ≡ dictionary_length }
    ensures { result ≡ read d.now control_word }
{
    read2(d, places::CONTROL_WORD)
}

// 6041h, status word.
pub fn status_word(d: &[u8]) -> u16
    requires { length d.now ≡ dictionary_length }
    ensures { result ≡ read d.now status_word }
{
    read2(d, places::STATUS_WORD)
}

// 6060h, mode of operation.
pub fn mode(d: &[u8]) -> u8
    requires { length d.now ≡ dictionary_length }
    ensures { result ≡ read d.now mode }
{
    read1(d, places::MODE)
}

// 6061h, mode display.
pub fn mode_display(d: &[u8]) -> u8
    requires { length d.now ≡ dictionary_length }
    ensures { result ≡ read d.now mode_display }
{
    read1(d, places::MODE_DISPLAY)
}

// 6064h, position.
pub fn position(d: &[u8]) -> u32
    requires { length d.now ≡ dictionary_length }
    ensures { result ≡ read d.now position }
{
    read4(d, places::POSITION)
}

// 6067h, position window.
pub fn position_window(d: &[u8]) -> u32
    requires { length d.now ≡ dictionary_length }
    ensures { result ≡ read d.now position_window }
{
    read4(d, places::POSITION_WINDOW)
}

// 6068h, window time.
pub fn window_time(d: &[u8]) -> u16
    requires { length d.now ≡ dictionary_length }
    ensures { result ≡ read d.now window_time }
{
    read2(d, places::WINDOW_TIME)
}

// 606Ch, velocity.
pub fn velocity(d: &[u8]) -> u32
    requires { length d.now ≡ dictionary_length }
    ensures { result ≡ read d.now velocity }
{
    read4(d, places::VELOCITY)
}

// 606Dh, velocity window.
pub fn velocity_window(d: &[u8]) -> u16
    requires { length d.now ≡ dictionary_length }
    ensures { result ≡ read d.now velocity_window }
{
    read2(d, places::VELOCITY_WINDOW)
}

// 606Fh, velocity threshold.
pub fn velocity_threshold(d: &[u8]) -> u16
    requires { length d.now ≡ dictionary_length }
    ensures { result ≡ read d.now velocity_threshold }
{
    read2(d, places::VELOCITY_THRESHOLD)
}

// 607Ah, target position.
pub fn target_position(d: &[u8]) -> u32
    requires { length d.now ≡ dictionary_length }
    ensures { result ≡ read d.now target_position }
{
    read4(d, places::TARGET_POSITION)
}

// 607Dh, its entries.
pub fn limit_count(d: &[u8]) -> u8
    requires { length d.now ≡ dictionary_length }
    ensures { result ≡ read d.now limit_count }
{
    read1(d, places::LIMIT_COUNT)
}

// 607Dh:1, the least position.
pub fn minimum_position(d: &[u8]) -> u32
    requires { length d.now ≡ dictionary_length }
    ensures { result ≡ read d.now minimum_position }
{
    read4(d, places::MINIMUM_POSITION)
}

// 607Dh:2, the greatest position.
pub fn maximum_position(d: &[u8]) -> u32
    requires { length d.now ≡ dictionary_length }
    ensures { result ≡ read d.now maximum_position }
{
    read4(d, places::MAXIMUM_POSITION)
}

// 6081h, profile velocity.
pub fn profile_velocity(d: &[u8]) -> u32
    requires { length d.now ≡ dictionary_length }
    ensures { result ≡ read d.now profile_velocity }
{
    read4(d, places::PROFILE_VELOCITY)
}

// 6083h, profile acceleration.
pub fn profile_acceleration(d: &[u8]) -> u32
    requires { length d.now ≡ dictionary_length }
    ensures { result ≡ read d.now profile_acceleration }
{
    read4(d, places::PROFILE_ACCELERATION)
}

// 6084h, profile deceleration.
pub fn profile_deceleration(d: &[u8]) -> u32
    requires { length d.now ≡ dictionary_length }
    ensures { result ≡ read d.now profile_deceleration }
{
    read4(d, places::PROFILE_DECELERATION)
}

// 60FFh, target velocity.
pub fn target_velocity(d: &[u8]) -> u32
    requires { length d.now ≡ dictionary_length }
    ensures { result ≡ read d.now target_velocity }
{
    read4(d, places::TARGET_VELOCITY)
}

// 6502h, supported modes.
pub fn supported_modes(d: &[u8]) -> u32
    requires { length d.now ≡ dictionary_length }
    ensures { result ≡ read d.now supported_modes }
{
    read4(d, places::SUPPORTED_MODES)
}

// ---- written

// 1014h.
pub fn set_emergency_identifier(d: &mut [u8], v: u32)
    requires { length d.old ≡ dictionary_length }
    ensures { d.new ≡ store emergency_identifier v d.old }
{
    write4(d, places::EMERGENCY_IDENTIFIER, v);
}

// 1001h.
pub fn set_error_register(d: &mut [u8], v: u8)
    requires { length d.old ≡ dictionary_length }
    ensures { d.new ≡ store error_register v d.old }
{
    write1(d, places::ERROR_REGISTER, v);
}

// 603Fh, error code.
pub fn set_error_code(d: &mut [u8], v: u16)
    requires { length d.old ≡ dictionary_length }
    ensures { d.new ≡ store error_code v d.old }
{
    write2(d, places::ERROR_CODE, v);
}

// 6041h.
pub fn set_status_word(d: &mut [u8], v: u16)
    requires { length d.old ≡ dictionary_length }
    ensures { d.new ≡ store status_word v d.old }
{
    write2(d, places::STATUS_WORD, v);
}

// 6061h.
pub fn set_mode_display(d: &mut [u8], v: u8)
    requires { length d.old ≡ dictionary_length }
    ensures { d.new ≡ store mode_display v d.old }
{
    write1(d, places::MODE_DISPLAY, v);
}

// 6064h.
pub fn set_position(d: &mut [u8], v: u32)
    requires { length d.old ≡ dictionary_length }
    ensures { d.new ≡ store position v d.old }
{
    write4(d, places::POSITION, v);
}

// 606Ch.
pub fn set_velocity(d: &mut [u8], v: u32)
    requires { length d.old ≡ dictionary_length }
    ensures { d.new ≡ store velocity v d.old }
{
    write4(d, places::VELOCITY, v);
}
