// The device name, 1008h: "a constant visible string of 5 to 32 characters, not among the packed bytes". Another name goes in here and in
// `device_name`, which the proof holds to each other.
ghost use Rattle.std.specs.Prelude.{◌≡◌, get_or};
ghost use Rattle.rules_dictionary.specs.DeviceName.{device_name};

// How many characters it has, ..
pub const NAME_LENGTH: usize = 19;

// .. and these.
const NAME: [u8; NAME_LENGTH] = *b"Cendurak servo node";

// The character of that number, from 0 on; behind the last one 0.
pub fn name_at(i: usize) -> u8
    ensures { result ≡ get_or device_name i 0 }
{
    NAME.get(i).copied().unwrap_or(0)
}
