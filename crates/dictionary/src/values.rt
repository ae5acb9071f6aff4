// Values in bytes, low byte first.
ghost use Rattle.std.specs.Prelude.{◌≡◌, ◌+◌, ◌<◌, ◌≤◌, length};
ghost use Rattle.std.proofs.lemmas.List.Edits.{sets};
ghost use Rattle.rules_dictionary.specs.Numbers.{value, bytes, part};
ghost use Rattle.dictionary.specs.Sizes.{IsSize};

// Reading and writing stay three functions each: a trait would have these bodies in three impls, each with its type, width and laws, and
// the callers `u32::read_at(d, p)` for `read4(d, p)`.

// The value of the byte at a place.
pub fn read1(d: &[u8], place: usize) -> u8
    requires { place + 1 ≤ length d.now }
    ensures { result ≡ value (part place 1 d.now) }
{
    d[place]
}

// The value of two bytes from a place on.
pub fn read2(d: &[u8], place: usize) -> u16
    requires { place + 2 ≤ length d.now }
    ensures { result ≡ value (part place 2 d.now) }
{
    u16::from_le_bytes([d[place], d[place + 1]])
}

// The value of four bytes from a place on.
pub fn read4(d: &[u8], place: usize) -> u32
    requires { place + 4 ≤ length d.now }
    ensures { result ≡ value (part place 4 d.now) }
{
    u32::from_le_bytes([d[place], d[place + 1], d[place + 2], d[place + 3]])
}

// A value into the byte at a place.
pub fn write1(d: &mut [u8], place: usize, v: u8)
    requires { place + 1 ≤ length d.old }
    ensures { d.new ≡ sets d.old place (bytes 1 v) }
{
    d[place] = v;
}

// A value into two bytes from a place on.
pub fn write2(d: &mut [u8], place: usize, v: u16)
    requires { place + 2 ≤ length d.old }
    ensures { d.new ≡ sets d.old place (bytes 2 v) }
{
    let [low, high] = v.to_le_bytes();
    d[place] = low;
    d[place + 1] = high;
}

// A value into four bytes from a place on.
pub fn write4(d: &mut [u8], place: usize, v: u32)
    requires { place + 4 ≤ length d.old }
    ensures { d.new ≡ sets d.old place (bytes 4 v) }
{
    let [first, second, third, fourth] = v.to_le_bytes();
    d[place] = first;
    d[place + 1] = second;
    d[place + 2] = third;
    d[place + 3] = fourth;
}

// The value of 1, 2 or 4 bytes from a place on. `size` stays a number, as in `Entry` and `Move`.
pub fn read(d: &[u8], place: usize, size: u8) -> u32
    requires { (place + size ≤ length d.now) × IsSize size }
    ensures { result ≡ value (part place size d.now) }
{
    match size {
        1 => u32::from(read1(d, place)),
        2 => u32::from(read2(d, place)),
        _ => read4(d, place),
    }
}

// A value into 1, 2 or 4 bytes from a place on. The remainders stay: a cast has to lose nothing.
pub fn write(d: &mut [u8], place: usize, size: u8, v: u32)
    requires { (place + size ≤ length d.old) × IsSize size }
    ensures { d.new ≡ sets d.old place (bytes size v) }
{
    match size {
        1 => write1(d, place, (v % 0x100) as u8),
        2 => write2(d, place, (v % 0x1_0000) as u16),
        _ => write4(d, place, v),
    }
}
